// Sinks of asks.
ghost use Rattle.std.specs.Prelude.{◌≡◌};
ghost use Rattle.wx_control.specs.Sent.{Sink, sent};

use crate::ask::Ask;
use crate::job::Job;
use crate::ticket::Ticket;
use std::alloc::Global;

/// Why an ask was not taken.
#[derive(Clone, Copy, Debug, PartialEq, Eq)]
pub enum Refused {
    /// The sink has no room.
    Full,
    /// Want of memory.
    Memory,
}

impl From<wx_words::Memory> for Refused {
    ghost use Rattle.wx_control.specs.declared.sink.Refused.{Refused};

    ghost from_gives = { λ _ refusal. refusal ≡ Refused.Memory };

    fn from(_memory: wx_words::Memory) -> Refused {
        Refused::Memory
    }
}

/// What takes asks of jobs.
pub trait Controls {
    /// The type of what no send changes.
    ghost Rest: { Type 0 };

    /// What contracts see of it.
    ghost sink: { Self → Sink Rest };

    /// Asks this of the job, and answers the ticket of the last control. Ok adds the ask at the end; a refused send
    /// leaves what was asked. `Full` comes only where the count of these rose.
    fn send(&mut self, alloc: Global, job: &Job, ask: Ask) -> Result<Ticket, Refused>
        ensures { Self.sink self.new ≡ sent result job.now.id ask (Self.sink self.old) };
}
