// A source over a reader and a sink over a writer, as those of the standard streams.
ghost use Rattle.std.specs.Prelude.{◌≡◌, MatchOption, unsigned_abs};
ghost use Rattle.std.specs.IoError.{raw_os_error};

use crate::sink::{Sink, WriteFault};
use crate::source::{ReadFault, Source};
use std::io;

/// A source over a reader, as that of standard input.
///
/// It tells what the reader tells, and of standard input that is nothing.
#[derive(Drop)]
pub struct StdSource<R> {
    reader: R,
    faults: u64,
}

impl<R: io::Read> StdSource<R> {
    /// A source that reads from this reader.
    pub fn new(reader: R) -> Self
        ensures faults { result.faults ≡ 0 }
        ensures reader { result.reader ≡ reader }
    {
        StdSource { reader, faults: 0 }
    }

    /// How many reads failed.
    pub fn faults(&self) -> u64
        ensures { result ≡ self.now.faults }
    {
        self.faults
    }
}

impl<R: io::Read> Source for StdSource<R> {
    ghost left = { λ s. R.remaining s.reader };

    ghost faults = { λ s. s.faults };

    fn read(&mut self, buf: &mut [u8]) -> Result<usize, ReadFault> {
        match self.reader.read(buf) {
            Ok(count) => Ok(count),
            Err(error) => {
                self.faults = self.faults.saturating_add(1);
                Err(ReadFault(code_of(&error)))
            }
        }
    }
}

/// A sink over a writer, as that of standard output.
///
/// It tells what the writer tells, and of standard output that is nothing.
#[derive(Drop)]
pub struct StdSink<W> {
    writer: W,
    faults: u64,
}

impl<W: io::Write> StdSink<W> {
    /// A sink that writes to this writer.
    pub fn new(writer: W) -> Self
        ensures faults { result.faults ≡ 0 }
        ensures writer { result.writer ≡ writer }
    {
        StdSink { writer, faults: 0 }
    }

    /// How many writes failed.
    pub fn faults(&self) -> u64
        ensures { result ≡ self.now.faults }
    {
        self.faults
    }
}

impl<W: io::Write> Sink for StdSink<W> {
    ghost held = { λ s. W.contents s.writer };

    ghost faults = { λ s. s.faults };

    fn write(&mut self, buf: &[u8]) -> Result<usize, WriteFault> {
        let code = match self.writer.write(buf) {
            Ok(count) if count > 0 || buf.is_empty() => return Ok(count),
            Ok(_) => 0,
            Err(error) => code_of(&error),
        };
        self.faults = self.faults.saturating_add(1);
        Err(WriteFault(code))
    }
}

/// The system's code of an error, or 0 where it has none.
fn code_of(error: &io::Error) -> u32
    ensures { MatchOption (raw_os_error error.now) (result ≡ 0) (λ code. result ≡ unsigned_abs code) }
{
    match error.raw_os_error() {
        Some(code) => code.unsigned_abs(),
        None => 0,
    }
}
