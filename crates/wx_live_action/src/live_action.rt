// The acts of the program that runs a command again at each change.
ghost use Rattle.std.specs.Prelude.{◌≡◌, ◌*◌, ◌++◌, [], ◌∷◌, None, IfOk, OnOk, option_map};
ghost use Rattle.wx_command.specs.declared.command.Command.{Command as ACommand};
ghost use Rattle.wx_control.specs.declared.ask.Ask.TheVariants.{RestartWithSignal};
ghost use Rattle.wx_events.specs.declared.process.Signal.TheVariants.{Terminate};
ghost use Rattle.wx_journal.specs.Names.{next_job};
ghost use Rattle.wx_journal.specs.declared.entry.Act.TheVariants.{Ask as Asks};
ghost use Rattle.wx_live_action.specs.LiveActs.{second, id_of, job_of, batch, first_acts, later_acts, AsksAsLive};
ghost use Rattle.wx_live_action.specs.LiveLaws.{job_over};

use crate::keys::{all_end, any_q};
use std::alloc::Global;
use wx_command::Command;
use wx_control::{Ask, Control, Controls, Job};
use wx_events::Signal;
use wx_hooks::ActionHandler;
use wx_plain::{ActRefused, Chooses};
use wx_text::Copies;

/// How long the command has to end before it runs again: five seconds.
const RESTART_GRACE: u64 = 5_000_000_000;

/// How long it has to end with the run: ten seconds.
const QUIT_GRACE: u64 = 10_000_000_000;

/// Runs a command again at each batch. The first batch creates its job and starts it. A later one with the key q ends the run
/// gracefully, one that holds only ends of the keyboard's input does nothing, and any other restarts the command. A command that
/// is to end is sent Terminate, and has ten seconds with the key q, and else five.
pub struct LiveAction {
    alloc: Global,
    command: Command,
    job: Option<Job>,
}

// Its parts are dropped by one call: docs/DESIGN.md, "What proofs cost".
impl Drop for LiveAction {
    fn drop(self) {
        let LiveAction {
            alloc: _,
            command: _,
            job: _,
        } = self;
    }
}

impl LiveAction {
    /// The acts that run this command, before the first batch.
    pub fn new(alloc: Global, command: Command) -> LiveAction
        ensures command { result.command ≡ command }
        ensures job { result.job ≡ None }
    {
        LiveAction {
            alloc,
            command,
            job: None,
        }
    }
}

impl Chooses for LiveAction {
    ghost Plan = { ACommand };

    ghost plan = { λ s. s.command };

    ghost rule = { λ command p e. AsksAsLive command p e };

    ghost stands = { λ s p. option_map (λ job. job.id) s.job ≡ job_of p };

    fn choose(&mut self, _n: u32, handler: &mut ActionHandler<'_>) -> Result<(), ActRefused> {
        match &self.job {
            Some(job) => go_on(self.alloc, job, handler),
            None => {
                self.job = Some(begin(self.alloc, &self.command, handler)?);
                Ok(())
            }
        }
    }

    ghost stands_other = { λ s p e own other is. job_over (option_map (λ job. job.id) s.job) p e other is };
}

/// Creates the job that runs this command, starts it, and answers a handle on it. It fails only where an act was refused.
fn begin(
    alloc: Global,
    command: &Command,
    handler: &mut ActionHandler<'_>,
) -> Result<Job, ActRefused>
    requires { handler.old.acts ≡ [] }
    ensures same { handler.new ≡ record handler.old { acts = handler.new.acts } }
    ensures job { IfOk result (λ job. job.id ≡ id_of (next_job handler.old.past)) }
    ensures acts { OnOk result (handler.new.acts ≡ first_acts command.now (id_of (next_job handler.old.past))) }
{
    let (_, job) = handler.create_job(alloc, command.copy(alloc)?)?;
    match handler.send(alloc, &job, Ask::One(Control::Start)) {
        Ok(_) => Ok(job),
        Err(refused) => {
            drop(job);
            Err(ActRefused::from(refused))
        }
    }
}

/// Asks for what a later batch is to do with this job. It fails only where an act was refused.
#[tactic(auto, using(crate::proofs::BatchLemmas::batch_is))]
fn go_on(alloc: Global, job: &Job, handler: &mut ActionHandler<'_>) -> Result<(), ActRefused>
    requires { handler.old.acts ≡ [] }
    ensures same { handler.new ≡ record handler.old { acts = handler.new.acts } }
    ensures acts { OnOk result (handler.new.acts ≡ later_acts job.now.id (batch handler.old.past handler.old.names)) }
{
    let quits = any_q(handler.events().as_slice());
    let ended = all_end(handler.events().as_slice());
    if quits {
        handler.quit_gracefully(Signal::Terminate, QUIT_GRACE);
        Ok(())
    } else if ended {
        Ok(())
    } else {
        restart(alloc, job, handler)
    }
}

/// Asks this job to run its command again. It fails only where an act was refused.
fn restart(alloc: Global, job: &Job, handler: &mut ActionHandler<'_>) -> Result<(), ActRefused>
    ensures same { handler.new ≡ record handler.old { acts = handler.new.acts } }
    ensures acts { OnOk result (handler.new.acts ≡ handler.old.acts ++ Asks job.now.id (RestartWithSignal Terminate (5 * second)) ∷ []) }
{
    let restart = Ask::RestartWithSignal {
        signal: Signal::Terminate,
        grace: RESTART_GRACE,
    };
    handler.send(alloc, job, restart)?;
    Ok(())
}
