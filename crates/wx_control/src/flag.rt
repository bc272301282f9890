// Flags that one side raises and others look at.
ghost use Rattle.std.specs.Prelude.{◌≡◌, true, false, IfOk};
ghost use Rattle.futures.specs.Poll.{IfReady, OnPending};
ghost use Rattle.futures.specs.Task.{Covers, Keeps};
ghost use Rattle.wx_control.specs.Flags.{Looks, poll_of};

use futures::Future;
use futures::task::{Context, Poll};
use std::alloc::Global;
use std::marker::Model;
use std::sync::{Arc, OnceLock};
use wx_text::{Copies, Memory};

/// A flag that one side raises and others look at. All its copies look at one lock, and each keeps whether it saw that
/// raised. Contracts see the name of the lock, and what this copy saw: that a flag is raised, and when, no clause says.
#[derive(Drop, Debug)]
pub struct Flag {
    lock: Arc<OnceLock<()>>,
    seen: bool,
}

impl Model for Flag {
    ghost use Rattle.std.specs.Arc.{arc_value};
    ghost use Rattle.wx_control.specs.Flags.{Flag as a-Flag};

    ghost Value = { a-Flag };

    ghost view = { λ f. record { lock = (arc_value f.lock).id; seen = f.seen } };
}

impl Flag {
    /// A flag with a lock of its own, raised or not. It fails only for want of memory.
    pub fn new(alloc: Global, value: bool) -> Result<Flag, Memory>
        ensures { IfOk result (λ flag. flag.seen ≡ false) }
    {
        let lock = if value {
            OnceLock::from(())
        } else {
            OnceLock::new()
        };
        Ok(Flag {
            lock: Arc::new(alloc, lock)?,
            seen: false,
        })
    }

    /// Whether this copy saw the flag raised, at an earlier look. It doesn't look now.
    pub fn seen(&self) -> bool
        ensures { result ≡ self.now.seen }
    {
        self.seen
    }

    /// Whether the flag is raised. It is where this copy saw it raised before, which this call doesn't change.
    pub fn raised(&self) -> bool
        ensures { self.now.seen ≡ true → result ≡ true }
    {
        self.seen || self.lock.get().is_some()
    }

    /// Raises the flag, for all its copies. One that is raised stays so.
    pub fn raise(&self) {
        // It is refused where the lock is raised, or is just being raised by another thread.
        let _ = self.lock.try_set(());
    }

    /// Looks whether the flag is raised, where this copy didn't see that before, and keeps what it saw.
    pub fn look(&mut self) -> bool
        ensures answer { result ≡ self.new.seen }
        ensures looks { Looks self.old self.new }
    {
        if !self.seen && self.lock.get().is_some() {
            self.seen = true;
        }
        self.seen
    }
}

impl Copies for Flag {
    /// One more that looks at the same lock, and saw what this one saw.
    fn copy(&self, _alloc: Global) -> Result<Flag, Memory> {
        Ok(Flag {
            lock: Arc::try_clone(&self.lock)?,
            seen: self.seen,
        })
    }
}

impl Future for Flag {
    type Output = ();

    /// Looks once. It is ready exactly where the flag is seen raised then, and else asks to be polled again.
    fn poll(&mut self, cx: &mut Context<'_>) -> Poll<()>
        ensures looks { Looks self.old self.new }
        ensures ready { result ≡ poll_of self.new.seen }
        ensures asks { OnPending result (cx.new.is_woken ≡ true) }
        ensures value { IfReady result (λ _. Unit {0}) }
        ensures again { OnPending result (Unit {0}) }
        ensures registered { OnPending result (Covers cx.new (λ _. ⊥)) }
        ensures kept { Keeps cx.old cx.new }
    {
        if self.look() {
            return Poll::Ready(());
        }
        cx.yield_now()
    }
}
