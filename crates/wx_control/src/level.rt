// How pressing a control is.
ghost use Rattle.std.specs.Prelude.{◌≡◌};
ghost use Rattle.wx_control.specs.Levels.{rank};

use std::alloc::Global;
use wx_text::{Memory, Text};
use wx_words::{Spelled, Words, put_word, read_rows};

/// How pressing a control is, rising in this order.
#[derive(Clone, Copy, Debug, PartialEq, Eq, PartialOrd, Ord)]
pub enum Level {
    Normal,
    High,
    Urgent,
}

impl Level {
    /// The place among the levels, from 0 for the lowest.
    pub fn rank(self) -> u8
        ensures { result ≡ rank self }
    {
        match self {
            Level::Normal => 0,
            Level::High => 1,
            Level::Urgent => 2,
        }
    }
}

#[tactic(auto, unfolding(crate::specs::Levels::level))]
impl Spelled for Level {
    ghost use Rattle.wx_control.specs.Levels.{level};

    ghost spelling = { level };

    fn put_after(&self, out: &mut Text) -> Result<(), Memory> {
        match self {
            Level::Normal => put_word(b"normal", out),
            Level::High => put_word(b"high", out),
            Level::Urgent => put_word(b"urgent", out),
        }
    }

    fn read(alloc: Global, line: &mut Words) -> Result<Option<Level>, Memory> {
        read_rows!(alloc, line;
            b"normal" => Level::Normal,
            b"high" => Level::High,
            b"urgent" => Level::Urgent,
        )
    }
}
