// A source that keeps what it gave, so that it can be told why a script is refused.
ghost use Rattle.std.specs.Prelude.{◌≡◌};

use std::alloc::Global;
use wx_bytes::{ReadFault, Source};
use wx_text::Text;

/// A source over another one, which keeps the bytes that it gives. It tells what the other one tells.
#[derive(Drop)]
pub struct KeepingSource<S> {
    source: S,
    kept: Text,
    is_whole: bool,
}

impl<S: Source> KeepingSource<S> {
    /// A source that gives what this one has left.
    pub fn new(alloc: Global, source: S) -> Self
        ensures { result.source ≡ source }
    {
        KeepingSource {
            source,
            kept: Text::new(alloc),
            is_whole: true,
        }
    }

    /// The bytes that were given. `None` where there was no memory to keep them.
    pub fn kept(&self) -> Option<&[u8]> {
        if self.is_whole {
            Some(self.kept.as_slice())
        } else {
            None
        }
    }
}

impl<S: Source> Source for KeepingSource<S> {
    ghost left = { λ s. S.left s.source };

    ghost faults = { λ s. S.faults s.source };

    fn read(&mut self, buf: &mut [u8]) -> Result<usize, ReadFault> {
        match self.source.read(buf) {
            Ok(count) => {
                if self.kept.append(&buf[..count]).is_err() {
                    self.is_whole = false;
                }
                Ok(count)
            }
            Err(fault) => Err(fault),
        }
    }
}
