// Jobs that an action handler makes.
ghost use Rattle.std.specs.Prelude.{◌≡◌};

use std::alloc::Global;
use wx_command::{Command, Program, SpawnOptions};
use wx_control::{Id, Job};
use wx_hooks::ActionHandler;
use wx_text::{List, Memory, Text};

/// A command that runs this program, with no argument.
pub fn command_of(alloc: Global, prog: &[u8]) -> Result<Command, Memory> {
    Ok(Command {
        program: Program::Exec {
            prog: Text::from_slice(alloc, prog)?,
            args: List::new(alloc),
        },
        options: SpawnOptions::default(),
    })
}

/// Whether the job runs this program, with no argument.
fn runs(alloc: Global, job: &Job, prog: &[u8]) -> Result<bool, Memory> {
    let want = command_of(alloc, prog)?;
    let is = job.command() == &want;
    drop(want);
    Ok(is)
}

/// Creates a job that runs this program, and answers the handle on it, where the job has this id and this command.
pub fn created(alloc: Global, id: Id, prog: &[u8], handler: &mut ActionHandler<'_>) -> Option<Job>
    ensures same { handler.new ≡ record handler.old { acts = handler.new.acts } }
{
    let command = command_of(alloc, prog).ok()?;
    let Ok((made, job)) = handler.create_job(alloc, command) else {
        return None;
    };
    let runs = runs(alloc, &job, prog).unwrap_or(false);
    if made == id && job.id() == id && runs {
        Some(job)
    } else {
        drop(job);
        None
    }
}
