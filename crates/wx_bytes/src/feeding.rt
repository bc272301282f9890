ghost use Rattle.std.specs.Prelude.{ℕ, ◌≡◌, ◌+◌, ◌-◌, ◌<◌, ◌≤◌, length, List, OnOk, IfOk, OnErr, IsErrOf, is_err};
ghost use Rattle.std.specs.Io.KnownBytes.{Consumes, Appends, IsAtEnd};
ghost use Rattle.wx_journal.specs.Told.{Rose, Counts};
ghost use Rattle.wx_bytes.specs.Causes.{AddsFront, IsWhole, IsLonger};

use crate::sink::{Sink, WriteFault};
use crate::source::Source;
use std::alloc::Global;
use wx_text::Text;

/// How many bytes a source may give at most.
pub const LIMIT: usize = 16_777_216;

/// Why a source gave no text.
#[derive(Clone, Copy, Debug, PartialEq, Eq)]
pub enum Unread {
    /// A read failed.
    Fault,
    /// There are more bytes than `LIMIT`.
    TooLong,
    /// There was no memory for the text.
    Memory,
}

/// Reads a source to its end, and answers the bytes that it gave.
///
/// `Fault` comes where a read failed, `TooLong` where the source gave more bytes than
/// `LIMIT`, and `Memory` where the text could not grow. A source that tells its bytes and
/// has neither a fault nor want of memory gives `Ok` where they are `LIMIT` at most, and
/// `TooLong` where they are more.
pub fn read_all<S: Source>(alloc: Global, source: &mut S) -> Result<Text, Unread>
    ensures text { IfOk result (λ text. Consumes (S.left source.old) (S.left source.new) text × IsAtEnd (S.left source.new)) }
    ensures whole { IfOk result (λ text. IsWhole (S.left source.old) text) }
    ensures within { IfOk result (λ text. length text ≤ LIMIT) }
    ensures too_long { IsErrOf result Unread.TooLong → (read : List ℕ) × Consumes (S.left source.old) (S.left source.new) read × (LIMIT < length read) }
    ensures longer { IsErrOf result Unread.TooLong → IsLonger (S.left source.old) LIMIT }
    ensures fault { IsErrOf result Unread.Fault → Rose (S.faults source.old) (S.faults source.new) }
    ensures later { S.faults source.old ≤ S.faults source.new }
    ensures front { (read : List ℕ) × Consumes (S.left source.old) (S.left source.new) read }
{
    let mut text = Text::new(alloc);
    let mut buf = [0u8; 4096];
    while text.len() <= LIMIT {
        match source.read(&mut buf) {
            Err(_) => return Err(Unread::Fault),
            Ok(0) => return Ok(text),
            Ok(count) => match text.append(&buf[..count]) {
                Ok(()) => {}
                Err(_) => return Err(Unread::Memory),
            },
        }
    }
    Err(Unread::TooLong)
}

/// Writes all the bytes to a sink, in as many writes as it takes.
///
/// The fault is that of the write that failed, which comes before all were written. The
/// bytes before it were written, and those from it on were not.
pub fn write_all<K: Sink>(sink: &mut K, bytes: &[u8]) -> Result<(), WriteFault>
    ensures ok { OnOk result (Appends (K.held sink.old) (K.held sink.new) bytes.now) }
    ensures err { OnErr result (AddsFront (K.held sink.old) (K.held sink.new) bytes.now) }
    ensures cause { Counts (is_err result) (K.faults sink.old) (K.faults sink.new) }
{
    let mut done = 0;
    while done < bytes.len() {
        match sink.write(&bytes[done..]) {
            Ok(count) => done += count,
            Err(fault) => return Err(fault),
        }
    }
    Ok(())
}
