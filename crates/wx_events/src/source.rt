// What an event came from.
ghost use Rattle.std.specs.Prelude.{◌≡◌};
ghost use Rattle.wx_events.specs.Sources.{source_word};

use std::alloc::Global;
use std::fmt;
use wx_text::{Memory, Text};
use wx_words::{Spelled, Words, put_word, read_rows};

/// What an event came from.
#[derive(Clone, Copy, Debug, PartialEq, Eq)]
pub enum Source {
    Filesystem,
    Keyboard,
    Mouse,
    Os,
    Time,
    /// The engine itself.
    Internal,
}

impl Source {
    /// The word of this source.
    fn word(self) -> &'static str
        ensures { result.now ≡ source_word self }
    {
        match self {
            Source::Filesystem => "filesystem",
            Source::Keyboard => "keyboard",
            Source::Mouse => "mouse",
            Source::Os => "os",
            Source::Time => "time",
            Source::Internal => "internal",
        }
    }
}

impl fmt::Display for Source {
    fn fmt<W: fmt::Write>(&self, f: &mut fmt::Formatter<W>) -> fmt::Result {
        f.write_str(self.word())
    }
}

#[tactic(auto, unfolding(crate::specs::Sources::source))]
impl Spelled for Source {
    ghost use Rattle.wx_events.specs.Sources.{source};

    ghost spelling = { source };

    fn put_after(&self, out: &mut Text) -> Result<(), Memory> {
        put_word(self.word().as_bytes(), out)
    }

    fn read(alloc: Global, line: &mut Words) -> Result<Option<Source>, Memory> {
        read_rows!(alloc, line;
            b"filesystem" => Source::Filesystem,
            b"keyboard" => Source::Keyboard,
            b"mouse" => Source::Mouse,
            b"os" => Source::Os,
            b"time" => Source::Time,
            b"internal" => Source::Internal,
        )
    }
}
