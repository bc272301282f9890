ghost use Rattle.std.specs.Prelude.{ℕ, ◌<◌, length, List, Option, IfOk, is_err};
ghost use Rattle.std.specs.Io.{WritesAtMost};
ghost use Rattle.std.specs.Io.KnownBytes.{WriteAppends};
ghost use Rattle.wx_journal.specs.Told.{Counts};

/// The fault of a write: the code that the sink gives it, or 0 where it has none.
#[derive(Clone, Copy, Debug, PartialEq, Eq)]
pub struct WriteFault(pub u32);

/// What bytes are written to.
pub trait Sink {
    // the bytes that were written, where the sink tells them
    ghost held: { Self → Option (List ℕ) };
    // how many writes failed, which stops at `u64::MAX`
    ghost faults: { Self → ℕ };

    /// Writes a front part of the bytes, and answers how many they were.
    ///
    /// They are at least 1 where there are bytes. A fault writes none, and raises the
    /// count of the faults.
    fn write(&mut self, buf: &[u8]) -> Result<usize, WriteFault>
        ensures bound { WritesAtMost result buf.now }
        ensures some { IfOk result (λ n. 0 < length buf.now → 0 < n) }
        ensures bytes { WriteAppends (held self.old) (held self.new) result buf.now }
        ensures cause { Counts (is_err result) (faults self.old) (faults self.new) };
}
