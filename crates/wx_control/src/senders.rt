// What handles ask of their jobs.
ghost use Rattle.wx_control.specs.Senders.{Asks};
ghost use Rattle.wx_control.specs.declared.control.Control.TheVariants.{Start, Stop, GracefulStop, TryRestart, TryGracefulRestart, Signal as Signals, SyncFunc, AsyncFunc, SetSyncSpawnHook, UnsetSpawnHook, SetSyncErrorHandler, UnsetErrorHandler, SetSpawnFn, SetSpawnChildFn, ClearSpawnFn};
ghost use Rattle.wx_control.specs.declared.ask.Ask.TheVariants.{One, Restart, RestartWithSignal, Delete, DeleteNow, ToWait};

use crate::ask::Ask;
use crate::control::Control;
use crate::job::Job;
use crate::sink::{Controls, Refused};
use crate::ticket::Ticket;
use std::alloc::Global;
use wx_events::Signal;

impl Job {
    /// Asks this one control of the job, by one send. It answers what the sink answers: the ticket of the control, or
    /// why it was refused. A handle that saw the job gone sends nothing, and answers a ticket that is ready at once. It
    /// fails then only for want of memory. All other senders go by this too.
    pub fn control<C: Controls>(
        &self,
        alloc: Global,
        c: &mut C,
        control: Control,
    ) -> Result<Ticket, Refused>
        ensures { Asks self.now (One control) result (C.sink c.old) (C.sink c.new) }
    {
        self.ask(alloc, c, Ask::One(control))
    }

    /// Asks for a start, as `control` does.
    pub fn start<C: Controls>(&self, alloc: Global, c: &mut C) -> Result<Ticket, Refused>
        ensures { Asks self.now (One Start) result (C.sink c.old) (C.sink c.new) }
    {
        self.control(alloc, c, Control::Start)
    }

    /// Asks for a stop, as `control` does.
    pub fn stop<C: Controls>(&self, alloc: Global, c: &mut C) -> Result<Ticket, Refused>
        ensures { Asks self.now (One Stop) result (C.sink c.old) (C.sink c.new) }
    {
        self.control(alloc, c, Control::Stop)
    }

    /// Asks for a graceful stop, as `control` does.
    pub fn stop_with_signal<C: Controls>(
        &self,
        alloc: Global,
        c: &mut C,
        signal: Signal,
        grace: u64,
    ) -> Result<Ticket, Refused>
        ensures { Asks self.now (One (GracefulStop signal grace)) result (C.sink c.old) (C.sink c.new) }
    {
        self.control(alloc, c, Control::GracefulStop { signal, grace })
    }

    /// Asks for a stop and then a start, by one send. It answers as `control` does, with the ticket of the start.
    pub fn restart<C: Controls>(&self, alloc: Global, c: &mut C) -> Result<Ticket, Refused>
        ensures { Asks self.now Restart result (C.sink c.old) (C.sink c.new) }
    {
        self.ask(alloc, c, Ask::Restart)
    }

    /// Asks for a graceful stop and then a start, as `restart` does.
    pub fn restart_with_signal<C: Controls>(
        &self,
        alloc: Global,
        c: &mut C,
        signal: Signal,
        grace: u64,
    ) -> Result<Ticket, Refused>
        ensures { Asks self.now (RestartWithSignal signal grace) result (C.sink c.old) (C.sink c.new) }
    {
        self.ask(alloc, c, Ask::RestartWithSignal { signal, grace })
    }

    /// Asks for a restart of a child that runs, as `control` does.
    pub fn try_restart<C: Controls>(&self, alloc: Global, c: &mut C) -> Result<Ticket, Refused>
        ensures { Asks self.now (One TryRestart) result (C.sink c.old) (C.sink c.new) }
    {
        self.control(alloc, c, Control::TryRestart)
    }

    /// Asks for a graceful restart of a child that runs, as `control` does.
    pub fn try_restart_with_signal<C: Controls>(
        &self,
        alloc: Global,
        c: &mut C,
        signal: Signal,
        grace: u64,
    ) -> Result<Ticket, Refused>
        ensures { Asks self.now (One (TryGracefulRestart signal grace)) result (C.sink c.old) (C.sink c.new) }
    {
        self.control(alloc, c, Control::TryGracefulRestart { signal, grace })
    }

    /// Asks for a signal to a child that runs, as `control` does.
    pub fn signal<C: Controls>(
        &self,
        alloc: Global,
        c: &mut C,
        sig: Signal,
    ) -> Result<Ticket, Refused>
        ensures { Asks self.now (One (Signals sig)) result (C.sink c.old) (C.sink c.new) }
    {
        self.control(alloc, c, Control::Signal(sig))
    }

    /// Asks for a stop and then the deletion, by one send. It answers as `control` does, with the ticket of the
    /// deletion.
    pub fn delete<C: Controls>(&self, alloc: Global, c: &mut C) -> Result<Ticket, Refused>
        ensures { Asks self.now Delete result (C.sink c.old) (C.sink c.new) }
    {
        self.ask(alloc, c, Ask::Delete)
    }

    /// Asks for a stop and then the deletion, before all that waits at a lower level, as `delete` does.
    pub fn delete_now<C: Controls>(&self, alloc: Global, c: &mut C) -> Result<Ticket, Refused>
        ensures { Asks self.now DeleteNow result (C.sink c.old) (C.sink c.new) }
    {
        self.ask(alloc, c, Ask::DeleteNow)
    }

    /// Asks to be told of the next end of its child, by one send. It answers as `control` does.
    pub fn to_wait<C: Controls>(&self, alloc: Global, c: &mut C) -> Result<Ticket, Refused>
        ensures { Asks self.now ToWait result (C.sink c.old) (C.sink c.new) }
    {
        self.ask(alloc, c, Ask::ToWait)
    }

    /// Asks that the function of this number be called, as `control` does.
    pub fn run<C: Controls>(&self, alloc: Global, c: &mut C, n: u32) -> Result<Ticket, Refused>
        ensures { Asks self.now (One (SyncFunc n)) result (C.sink c.old) (C.sink c.new) }
    {
        self.control(alloc, c, Control::SyncFunc(n))
    }

    /// Asks that the function of this number be begun, and be polled until it is ready, as `control` does.
    pub fn run_async<C: Controls>(
        &self,
        alloc: Global,
        c: &mut C,
        n: u32,
    ) -> Result<Ticket, Refused>
        ensures { Asks self.now (One (AsyncFunc n)) result (C.sink c.old) (C.sink c.new) }
    {
        self.control(alloc, c, Control::AsyncFunc(n))
    }

    /// Asks that the spawn hook of this number be called before each spawn, as `control` does.
    pub fn set_spawn_hook<C: Controls>(
        &self,
        alloc: Global,
        c: &mut C,
        n: u32,
    ) -> Result<Ticket, Refused>
        ensures { Asks self.now (One (SetSyncSpawnHook n)) result (C.sink c.old) (C.sink c.new) }
    {
        self.control(alloc, c, Control::SetSyncSpawnHook(n))
    }

    /// Asks that no spawn hook be called, as `control` does.
    pub fn unset_spawn_hook<C: Controls>(&self, alloc: Global, c: &mut C) -> Result<Ticket, Refused>
        ensures { Asks self.now (One UnsetSpawnHook) result (C.sink c.old) (C.sink c.new) }
    {
        self.control(alloc, c, Control::UnsetSpawnHook)
    }

    /// Asks for spawns by the spawn function of this number, as `control` does.
    pub fn set_spawn_fn<C: Controls>(
        &self,
        alloc: Global,
        c: &mut C,
        n: u32,
    ) -> Result<Ticket, Refused>
        ensures { Asks self.now (One (SetSpawnFn n)) result (C.sink c.old) (C.sink c.new) }
    {
        self.control(alloc, c, Control::SetSpawnFn(n))
    }

    /// Asks for spawns as where no function was set, as `control` does.
    pub fn unset_spawn_fn<C: Controls>(&self, alloc: Global, c: &mut C) -> Result<Ticket, Refused>
        ensures { Asks self.now (One ClearSpawnFn) result (C.sink c.old) (C.sink c.new) }
    {
        self.control(alloc, c, Control::ClearSpawnFn)
    }

    /// Asks for spawns by the child function of this number, as `control` does.
    pub fn set_spawn_child_fn<C: Controls>(
        &self,
        alloc: Global,
        c: &mut C,
        n: u32,
    ) -> Result<Ticket, Refused>
        ensures { Asks self.now (One (SetSpawnChildFn n)) result (C.sink c.old) (C.sink c.new) }
    {
        self.control(alloc, c, Control::SetSpawnChildFn(n))
    }

    /// Asks for spawns as where no function was set, as `control` does.
    pub fn unset_spawn_child_fn<C: Controls>(
        &self,
        alloc: Global,
        c: &mut C,
    ) -> Result<Ticket, Refused>
        ensures { Asks self.now (One ClearSpawnFn) result (C.sink c.old) (C.sink c.new) }
    {
        self.control(alloc, c, Control::ClearSpawnFn)
    }

    /// Asks that the error handler of this number be called at each fault of a call on its child, as `control` does.
    pub fn set_error_handler<C: Controls>(
        &self,
        alloc: Global,
        c: &mut C,
        n: u32,
    ) -> Result<Ticket, Refused>
        ensures { Asks self.now (One (SetSyncErrorHandler n)) result (C.sink c.old) (C.sink c.new) }
    {
        self.control(alloc, c, Control::SetSyncErrorHandler(n))
    }

    /// Asks that no error handler be called, as `control` does.
    pub fn unset_error_handler<C: Controls>(
        &self,
        alloc: Global,
        c: &mut C,
    ) -> Result<Ticket, Refused>
        ensures { Asks self.now (One UnsetErrorHandler) result (C.sink c.old) (C.sink c.new) }
    {
        self.control(alloc, c, Control::UnsetErrorHandler)
    }

    /// Asks this of the job, by one send, or answers the ticket of a gone job where this handle saw it gone.
    fn ask<C: Controls>(&self, alloc: Global, c: &mut C, ask: Ask) -> Result<Ticket, Refused>
        ensures { Asks self.now ask result (C.sink c.old) (C.sink c.new) }
    {
        if self.gone().seen() {
            return Ok(Ticket::resolved(alloc, self.gone())?);
        }
        c.send(alloc, self, ask)
    }
}
