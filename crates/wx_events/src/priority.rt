// Priorities of events.
ghost use Rattle.std.specs.Prelude.{◌≡◌};
ghost use Rattle.wx_events.specs.Priority.{rank, is_urgent};
ghost use Rattle.wx_events.specs.Events.{priority_word};

use std::alloc::Global;
use std::fmt;
use wx_text::{Memory, Text};
use wx_words::{Spelled, Words, put_word, read_rows};

/// How pressing an event is, rising in this order.
#[derive(Clone, Copy, Debug, Default, PartialEq, Eq, PartialOrd, Ord, Hash)]
pub enum Priority {
    Low,
    #[default]
    Normal,
    High,
    Urgent,
}

impl Priority {
    /// The place among the priorities, from 0 for the lowest.
    pub fn rank(self) -> u8
        ensures { result ≡ rank self }
    {
        match self {
            Priority::Low => 0,
            Priority::Normal => 1,
            Priority::High => 2,
            Priority::Urgent => 3,
        }
    }

    /// The word of this priority.
    fn word(self) -> &'static str
        ensures { result.now ≡ priority_word self }
    {
        match self {
            Priority::Low => "low",
            Priority::Normal => "normal",
            Priority::High => "high",
            Priority::Urgent => "urgent",
        }
    }

    /// Whether this is `Urgent`.
    pub fn is_urgent(self) -> bool
        ensures { result ≡ is_urgent self }
    {
        matches!(self, Priority::Urgent)
    }
}

impl fmt::Display for Priority {
    fn fmt<W: fmt::Write>(&self, f: &mut fmt::Formatter<W>) -> fmt::Result {
        f.write_str(self.word())
    }
}

#[tactic(auto, unfolding(crate::specs::Events::priority))]
impl Spelled for Priority {
    ghost use Rattle.wx_events.specs.Events.{priority};

    ghost spelling = { priority };

    fn put_after(&self, out: &mut Text) -> Result<(), Memory> {
        put_word(self.word().as_bytes(), out)
    }

    fn read(alloc: Global, line: &mut Words) -> Result<Option<Priority>, Memory> {
        read_rows!(alloc, line;
            b"low" => Priority::Low,
            b"normal" => Priority::Normal,
            b"high" => Priority::High,
            b"urgent" => Priority::Urgent,
        )
    }
}
