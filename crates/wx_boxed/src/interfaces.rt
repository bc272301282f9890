// What a caller's boxes do in a run, besides filters.
ghost use Rattle.std.specs.Prelude.{◌≡◌, false, OnErr};
ghost use Rattle.wx_command.specs.Spawnables.{spawnable_of};
ghost use Rattle.wx_hooks.specs.ErrorHooks.{IsNewHook};
ghost use Rattle.wx_hooks.specs.Handled.{IsNewHandler};

use wx_command::Spawnable;
use wx_control::Id;
use wx_hooks::{ActionHandler, ErrorHook};
use wx_job::JobTaskContext;
use wx_journal::HostFault;
use wx_text::Memory;

/// An action handler.
pub trait OnAction {
    /// Is handed a batch. The handler that is lent shows it and the jobs, and collects what is asked for. It doesn't call
    /// `ActionHandler::hand`.
    fn act(&mut self, handler: &mut ActionHandler<'_>)
        requires fresh { IsNewHandler handler.old }
        ensures same { handler.new ≡ record handler.old { acts = handler.new.acts } };
}

/// An error handler of the engine.
pub trait OnError {
    /// Is shown an error. The hook that is lent shows it, and collects what is wished. It doesn't call `ErrorHook::shown`.
    fn error(&mut self, hook: &mut ErrorHook)
        requires fresh { IsNewHook hook.old }
        ensures error { hook.new.error ≡ hook.old.error }
        ensures open { hook.new.told ≡ false };
}

/// A function that jobs call, or begin and poll.
pub trait OnJob {
    /// Is called for a job.
    fn run(&mut self, job: Id, cx: &JobTaskContext<'_>);

    /// Begins for a job. It is then polled at each step of this job until it is ready.
    fn begin(&mut self, job: Id, cx: &JobTaskContext<'_>);

    /// Whether what was begun for this job is ready.
    fn poll(&mut self, job: Id) -> bool;
}

/// A spawn hook.
pub trait OnSpawn {
    /// Changes what a job is about to spawn, which is what its command spawns. It fails only for want of memory, and then
    /// leaves that as it was.
    fn hook(&mut self, job: Id, what: &mut Spawnable, cx: &JobTaskContext<'_>) -> Result<(), Memory>
        requires { what.old ≡ spawnable_of cx.now.command.now }
        ensures { OnErr result (what.new ≡ what.old) };
}

/// An error handler of jobs.
pub trait OnFault {
    /// Is shown the fault of a call on the child of a job.
    fn fault(&mut self, job: Id, fault: HostFault);
}
