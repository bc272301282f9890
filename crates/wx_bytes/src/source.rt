ghost use Rattle.std.specs.Prelude.{ℕ, List, Option, is_err};
ghost use Rattle.std.specs.Io.{ReadsAtMost};
ghost use Rattle.std.specs.Io.KnownBytes.{ReadConsumes};
ghost use Rattle.wx_journal.specs.Told.{Counts};

/// The fault of a read: the code that the source gives it, or 0 where it has none.
#[derive(Clone, Copy, Debug, PartialEq, Eq)]
pub struct ReadFault(pub u32);

/// What bytes are read from.
pub trait Source {
    // the bytes that are left, where the source tells them
    ghost left: { Self → Option (List ℕ) };
    // how many reads failed, which stops at `u64::MAX`
    ghost faults: { Self → ℕ };

    /// Fills the front of the buffer with the next bytes, and answers how many.
    ///
    /// 0 is the end of the source, or a buffer with no room. A fault leaves the bytes
    /// that are left, and raises the count of the faults.
    fn read(&mut self, buf: &mut [u8]) -> Result<usize, ReadFault>
        ensures bound { ReadsAtMost result buf.new }
        ensures bytes { ReadConsumes (left self.old) (left self.new) result buf.new }
        ensures cause { Counts (is_err result) (faults self.old) (faults self.new) };
}
