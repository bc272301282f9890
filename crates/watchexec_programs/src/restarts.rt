// Restarts a program at each batch, and ends with it at an interrupt.
ghost use Rattle.std.specs.Prelude.{◌≡◌};

use crate::runs::{folder, journal_of};
use std::alloc::Global;
use std::test::Fail;
use watchexec::Watchexec;
use watchexec::action::ActionHandler;
use watchexec_supervisor::Signal;
use watchexec_supervisor::command::{Command, Program, SpawnOptions};
use watchexec_supervisor::job::Job;
use wx_engine::{BoxedHooks, OnAction};
use wx_text::{List, Memory, Text};

/// How long the program has to end once it was sent a signal: five seconds.
const GRACE: u64 = 5_000_000_000;

/// Restarts a program at each batch. At an interrupt, and where a call fails, it quits.
#[derive(Drop)]
struct Restarts {
    alloc: Global,
    job: Option<Job>,
}

impl OnAction for Restarts {
    fn act(&mut self, handler: &mut ActionHandler<'_>) {
        if handler.signals().any(|signal| signal == Signal::Interrupt) {
            handler.quit_gracefully(Signal::Terminate, GRACE);
        } else if restart(self.alloc, &mut self.job, handler).is_none() {
            handler.quit();
        }
    }
}

/// Asks for a restart of the job, which is created where there is none yet. It answers nothing where a call fails.
fn restart(alloc: Global, job: &mut Option<Job>, handler: &mut ActionHandler<'_>) -> Option<()>
    ensures same { handler.new ≡ record handler.old { acts = handler.new.acts } }
{
    if job.is_none() {
        *job = Some(create(alloc, handler)?);
    }
    let job = job.as_ref()?;
    job.restart_with_signal(alloc, handler, Signal::Terminate, GRACE)
        .ok()?;
    Some(())
}

/// Creates the job. It answers nothing where a call fails.
fn create(alloc: Global, handler: &mut ActionHandler<'_>) -> Option<Job>
    ensures same { handler.new ≡ record handler.old { acts = handler.new.acts } }
{
    let command = make_all(alloc).ok()?;
    let (_, job) = handler.create_job(alloc, command).ok()?;
    Some(job)
}

/// The command `make all`.
fn make_all(alloc: Global) -> Result<Command, Memory> {
    let prog = Text::from_slice(alloc, b"make")?;
    let mut args = List::new(alloc);
    args.push(Text::from_slice(alloc, b"all")?)?;
    Ok(Command {
        program: Program::Exec { prog, args },
        options: SpawnOptions::default(),
    })
}

/// Hooks that hold it under the number 0.
fn hooks(alloc: Global) -> Result<BoxedHooks, Memory> {
    let mut actions: List<Box<dyn OnAction + Drop>> = List::new(alloc);
    actions.push(Box::new(alloc, Restarts { alloc, job: None })?)?;
    let (filters, errors, functions) = (List::new(alloc), List::new(alloc), List::new(alloc));
    let (hooks, faults) = (List::new(alloc), List::new(alloc));
    Ok(BoxedHooks::new(alloc, filters, actions, errors, functions, hooks, faults))
}

/// The journal of a run that follows these lines.
pub(crate) fn run(alloc: Global, lines: &[u8]) -> Result<Text, Fail> {
    let mut hooks = hooks(alloc)?;
    let engine = Watchexec::new(alloc, 0, folder(alloc)?)?;
    journal_of(alloc, engine, &mut hooks, lines)
}
