// Tickets, over the flag of a job and that of a control.
ghost use Rattle.std.specs.Prelude.{◌≡◌, true, IfOk};
ghost use Rattle.futures.specs.Poll.{IfReady, OnPending};
ghost use Rattle.futures.specs.Task.{Covers, Keeps};
ghost use Rattle.wx_control.specs.Flags.{Looks, poll_of};
ghost use Rattle.wx_control.specs.Tickets.{is_seen, twice};

use crate::flag::Flag;
use futures::Future;
use futures::task::{Context, Poll};
use std::alloc::Global;
use wx_text::{Copies, Memory};

/// Tells of one control: by `gone` that its job is gone, and by `done` that the control was done.
#[derive(Drop, Debug)]
pub struct Ticket {
    pub gone: Flag,
    pub done: Flag,
}

impl Ticket {
    /// The ticket of a control that is asked of a gone job: both its flags are copies of that of the job. It fails only
    /// for want of memory.
    pub fn resolved(alloc: Global, gone: &Flag) -> Result<Ticket, Memory>
        ensures { IfOk result (λ ticket. ticket ≡ twice gone.now) }
    {
        let done = gone.copy(alloc)?;
        let gone = gone.copy(alloc)?;
        Ok(Ticket { gone, done })
    }
}

impl Copies for Ticket {
    /// One more over copies of both flags.
    fn copy(&self, alloc: Global) -> Result<Ticket, Memory> {
        let gone = self.gone.copy(alloc)?;
        let done = self.done.copy(alloc)?;
        Ok(Ticket { gone, done })
    }
}

impl Future for Ticket {
    type Output = ();

    /// Looks at both flags. It is ready exactly where one of them is seen raised then, and else asks to be polled again.
    /// So a ticket that was ready stays so, and so does each copy that is made of it afterwards.
    fn poll(&mut self, cx: &mut Context<'_>) -> Poll<()>
        ensures gone { Looks self.old.gone self.new.gone }
        ensures done { Looks self.old.done self.new.done }
        ensures ready { result ≡ poll_of (is_seen self.new) }
        ensures stays { is_seen self.old ≡ true → result ≡ Poll.Ready tt }
        ensures asks { OnPending result (cx.new.is_woken ≡ true) }
        ensures value { IfReady result (λ _. Unit {0}) }
        ensures again { OnPending result (Unit {0}) }
        ensures registered { OnPending result (Covers cx.new (λ _. ⊥)) }
        ensures kept { Keeps cx.old cx.new }
    {
        let gone = self.gone.look();
        let done = self.done.look();
        if gone || done {
            return Poll::Ready(());
        }
        cx.yield_now()
    }
}
