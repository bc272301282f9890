// A spawn hook that sets a variable of the environment.
ghost use Rattle.std.specs.Prelude.{◌≡◌};

use crate::runs::{folder, journal_of};
use std::alloc::Global;
use std::test::Fail;
use watchexec::action::ActionHandler;
use watchexec::{Id, Watchexec};
use watchexec_supervisor::command::{Command, Program, SpawnOptions};
use watchexec_supervisor::job::JobTaskContext;
use wx_command::Spawnable;
use wx_engine::{BoxedHooks, OnAction, OnSpawn};
use wx_text::{Copies, List, Memory, Text};

/// Lets the program `env` run what is about to be spawned, with this setting.
#[derive(Drop)]
struct Sets {
    alloc: Global,
    setting: &'static [u8],
}

impl OnSpawn for Sets {
    fn hook(
        &mut self,
        _job: Id,
        what: &mut Spawnable,
        _cx: &JobTaskContext<'_>,
    ) -> Result<(), Memory> {
        let mut words = List::new(self.alloc);
        words.push(Text::from_slice(self.alloc, b"env")?)?;
        words.push(Text::from_slice(self.alloc, self.setting)?)?;
        for word in what.words.as_slice() {
            words.push(word.copy(self.alloc)?)?;
        }
        what.words = words;
        Ok(())
    }
}

/// Starts a job at each batch, with spawn hook 0. Where a call fails it quits.
#[derive(Drop)]
struct Starts {
    alloc: Global,
}

impl OnAction for Starts {
    fn act(&mut self, handler: &mut ActionHandler<'_>) {
        if start(self.alloc, handler).is_none() {
            handler.quit();
        }
    }
}

/// Creates a job, sets its hook and starts it. It answers nothing where a call fails.
fn start(alloc: Global, handler: &mut ActionHandler<'_>) -> Option<()>
    ensures same { handler.new ≡ record handler.old { acts = handler.new.acts } }
{
    let command = serve(alloc).ok()?;
    let (_, job) = handler.create_job(alloc, command).ok()?;
    job.set_spawn_hook(alloc, handler, 0).ok()?;
    job.start(alloc, handler).ok()?;
    Some(())
}

/// The command `serve`.
fn serve(alloc: Global) -> Result<Command, Memory> {
    let prog = Text::from_slice(alloc, b"serve")?;
    let args = List::new(alloc);
    Ok(Command {
        program: Program::Exec { prog, args },
        options: SpawnOptions::default(),
    })
}

/// Hooks that hold both, each under the number 0.
fn hooks(alloc: Global) -> Result<BoxedHooks, Memory> {
    let mut actions: List<Box<dyn OnAction + Drop>> = List::new(alloc);
    actions.push(Box::new(alloc, Starts { alloc })?)?;
    let mut hooks: List<Box<dyn OnSpawn + Drop>> = List::new(alloc);
    let setting = b"PORT=8000";
    hooks.push(Box::new(alloc, Sets { alloc, setting })?)?;
    let (filters, errors) = (List::new(alloc), List::new(alloc));
    let (functions, faults) = (List::new(alloc), List::new(alloc));
    Ok(BoxedHooks::new(alloc, filters, actions, errors, functions, hooks, faults))
}

/// The journal of a run that follows these lines.
pub(crate) fn run(alloc: Global, lines: &[u8]) -> Result<Text, Fail> {
    let mut hooks = hooks(alloc)?;
    let engine = Watchexec::new(alloc, 0, folder(alloc)?)?;
    journal_of(alloc, engine, &mut hooks, lines)
}
