// What one call asks of a job.
ghost use Rattle.std.specs.Prelude.{◌≡◌, Some, None};
ghost use Rattle.wx_control.specs.Asks.{sends_of};

use crate::control::Control;
use crate::level::Level;
use std::alloc::Global;
use wx_events::Signal;
use wx_text::{Copies, Memory, Text};
use wx_words::{Spelled, Words, put_row, put_word, read_rows};

/// What is asked of a job by one call, which may be several controls.
#[derive(Clone, Copy, Debug, PartialEq, Eq)]
pub enum Ask {
    /// This control alone.
    One(Control),
    /// A stop, then a start.
    Restart,
    /// A graceful stop, then a start.
    RestartWithSignal { signal: Signal, grace: u64 },
    /// A stop, then the deletion.
    Delete,
    /// A stop, then the deletion, before all that waits at a lower level.
    DeleteNow,
    /// To be told of the next end of its child, also while a grace runs.
    ToWait,
}

/// The controls of an ask, in order, and the level of each of them.
#[derive(Clone, Copy, Debug, PartialEq, Eq)]
pub struct Sends {
    pub first: Control,
    pub second: Option<Control>,
    pub level: Level,
}

impl Ask {
    /// The controls of this ask and their level, by the table of asks.
    pub fn controls(&self) -> Sends
        ensures { result ≡ sends_of self.now }
    {
        match self {
            Ask::One(control) => one(*control, Level::Normal),
            Ask::Restart => two(Control::Stop, Control::Start, Level::Normal),
            Ask::RestartWithSignal { signal, grace } => two(
                Control::GracefulStop {
                    signal: *signal,
                    grace: *grace,
                },
                Control::Start,
                Level::Normal,
            ),
            Ask::Delete => two(Control::Stop, Control::Delete, Level::Normal),
            Ask::DeleteNow => two(Control::Stop, Control::Delete, Level::Urgent),
            Ask::ToWait => one(Control::NextEnding, Level::High),
        }
    }
}

/// One control of this level.
fn one(first: Control, level: Level) -> Sends
    ensures { result ≡ record { first = first; second = None; level = level } }
{
    Sends {
        first,
        second: None,
        level,
    }
}

/// Two controls of this level.
fn two(first: Control, second: Control, level: Level) -> Sends
    ensures { result ≡ record { first = first; second = Some second; level = level } }
{
    Sends {
        first,
        second: Some(second),
        level,
    }
}

impl Copies for Ask {
    fn copy(&self, _alloc: Global) -> Result<Ask, Memory> {
        Ok(*self)
    }
}

#[tactic(auto, unfolding(crate::specs::Asks::ask))]
impl Spelled for Ask {
    ghost use Rattle.wx_control.specs.Asks.{ask};

    ghost spelling = { ask };

    fn put_after(&self, out: &mut Text) -> Result<(), Memory> {
        match self {
            Ask::One(control) => control.put_after(out),
            Ask::Restart => put_word(b"restart", out),
            Ask::RestartWithSignal { signal, grace } => {
                put_row(b"restartsignal", &&(*signal, *grace), out)
            }
            Ask::Delete => put_word(b"stopdelete", out),
            Ask::DeleteNow => put_word(b"deletenow", out),
            Ask::ToWait => put_word(b"towait", out),
        }
    }

    fn read(alloc: Global, line: &mut Words) -> Result<Option<Ask>, Memory> {
        let mut ahead = line.fork();
        if let Some(control) = Control::read(alloc, &mut ahead)? {
            *line = ahead;
            return Ok(Some(Ask::One(control)));
        }
        read_rows!(alloc, line;
            b"restart" => Ask::Restart,
            b"restartsignal" (signal, grace) => Ask::RestartWithSignal { signal, grace },
            b"stopdelete" => Ask::Delete,
            b"deletenow" => Ask::DeleteNow,
            b"towait" => Ask::ToWait,
        )
    }
}
