// Runs with plain hooks: the lines of the calls are worked out by hand.
ghost use Rattle.std.specs.Prelude.{◌≡◌};

use crate::trial::{Run, expect_run};
use std::alloc::Global;
use std::process::Abort;
use std::test::Fail;
use wx_command::Command;
use wx_config::Change;
use wx_control::{Id, Job};
use wx_follow_trial::command_of;
use wx_hooks::ActionHandler;
use wx_plain::{ActRefused, Chooses};

/// What is asked for at each batch.
#[derive(Clone, Copy)]
enum Does {
    /// Nothing.
    Nothing,
    /// A job is created, which is to call what hooks have for jobs, and to start.
    Calls,
    /// A job is created, and another one is to be got that was never made.
    Gets,
    /// A job is created, and the settings are to be changed.
    Changes,
}

/// Asks for this at each batch.
#[derive(Drop)]
struct Own {
    alloc: Global,
    does: Does,
}

impl Chooses for Own {
    ghost Plan = { Unit {0} };

    ghost plan = { λ _. tt };

    ghost rule = { λ _ _ _. Unit {0} };

    fn choose(&mut self, _n: u32, handler: &mut ActionHandler<'_>) -> Result<(), ActRefused> {
        match self.does {
            Does::Nothing => Ok(()),
            Does::Calls => call_all(self.alloc, handler),
            Does::Gets => create_and_get(self.alloc, handler),
            Does::Changes => create_and_change(self.alloc, handler),
        }
    }

    ghost stands_other = { λ _ _ _ _ _ _. tt };
}

/// Creates a job.
fn create(alloc: Global, handler: &mut ActionHandler<'_>) -> Result<Job, ActRefused>
    ensures same { handler.new ≡ record handler.old { acts = handler.new.acts } }
{
    let (_, job) = handler.create_job(alloc, command_of(alloc, b"a")?)?;
    Ok(job)
}

/// Asks this job to call a function and to begin another, by a spawn hook and an error handler, and to start.
fn ask_all(alloc: Global, job: &Job, handler: &mut ActionHandler<'_>) -> Result<(), ActRefused>
    ensures same { handler.new ≡ record handler.old { acts = handler.new.acts } }
{
    job.set_spawn_hook(alloc, handler, 3)?;
    job.set_error_handler(alloc, handler, 4)?;
    job.run(alloc, handler, 1)?;
    job.run_async(alloc, handler, 2)?;
    job.start(alloc, handler)?;
    Ok(())
}

/// Creates a job that calls what hooks have for jobs.
fn call_all(alloc: Global, handler: &mut ActionHandler<'_>) -> Result<(), ActRefused>
    ensures same { handler.new ≡ record handler.old { acts = handler.new.acts } }
{
    let job = create(alloc, handler)?;
    let asked = ask_all(alloc, &job, handler);
    drop(job);
    asked
}

/// Gets the job 7, which was never made.
fn get(alloc: Global, command: &Command, handler: &mut ActionHandler<'_>) -> Result<(), ActRefused>
    ensures same { handler.new ≡ record handler.old { acts = handler.new.acts } }
{
    drop(handler.get_or_create_job(alloc, Id(7), command)?);
    Ok(())
}

/// Creates a job and gets another one that was never made.
fn create_and_get(alloc: Global, handler: &mut ActionHandler<'_>) -> Result<(), ActRefused>
    ensures same { handler.new ≡ record handler.old { acts = handler.new.acts } }
{
    drop(create(alloc, handler)?);
    let command = command_of(alloc, b"a")?;
    let got = get(alloc, &command, handler);
    drop(command);
    got
}

/// Creates a job and changes the settings.
fn create_and_change(alloc: Global, handler: &mut ActionHandler<'_>) -> Result<(), ActRefused>
    ensures same { handler.new ≡ record handler.old { acts = handler.new.acts } }
{
    drop(create(alloc, handler)?);
    handler.change(alloc, Change::Filterer(1))?;
    Ok(())
}

/// Runs, what is asked for at each batch, and whether an act is refused.
const RUNS: [(Run, Does, bool); 8] = [
    (
        (
            "an event passes",
            "turn 0 arrive low 1 unknown\nturn 0 work\nturn 10 work\n",
            "filter 0 0 pass\nhand 0 1 0\n",
        ),
        Does::Nothing,
        false,
    ),
    (
        (
            "functions do nothing and are ready, a spawn hook leaves the command, and a fault is shown",
            "spawn fault 2\nturn 0 arrive urgent 0\nturn 0 work\nturn 1 job 0\nturn 2 job 0\nturn 3 job 0\nturn 4 job 0\nturn 5 job 0\nturn 6 job 0\n",
            "hand 0 1 0 create 0 exec ---- 1 a ask 0 sethook 3 ask 0 seterror 4 ask 0 run 1 ask 0 runasync 2 ask 0 start\nrun 0 1\nbegun 0 2\npoll 0 2 ready\nhook 0 3 ---- 1 a\njoberror 0 4 2\n",
        ),
        Does::Calls,
        false,
    ),
    (
        (
            "a directory passes",
            "node dir /\nnode dir /w\nnode dir /w/b\nturn 0 file\nturn 0 file\nturn 0 file\nturn 0 file\nturn 0 file\nturn 0 file\n",
            "dir 0 /w/b pass\n",
        ),
        Does::Nothing,
        false,
    ),
    (
        (
            "an event of ignored paths is rejected",
            "turn 0 arrive normal 2 path /w/a.tmp file path /w/out/b file\nturn 0 work\nturn 10 work\n",
            "filter 0 0 reject\n",
        ),
        Does::Nothing,
        false,
    ),
    (
        (
            "an ignored directory isn't entered",
            "node dir /\nnode dir /w\nnode dir /w/out\nnode dir /w/out/b\nturn 0 file\nturn 0 file\nturn 0 file\nturn 0 file\nturn 0 file\nturn 0 file\n",
            "dir 0 /w/out reject\n",
        ),
        Does::Nothing,
        false,
    ),
    (
        (
            "nothing is wished of an error",
            "node dir /\nturn 0 file\nturn 0 file\nturn 0 file\n",
            "show 0 fswatcher native pathscan /w notfound none\n",
        ),
        Does::Nothing,
        false,
    ),
    (
        (
            "where a job was never made the run ends behind the acts before",
            "turn 0 arrive urgent 0\nturn 0 work\nturn 1 arrive urgent 0\nturn 1 work\n",
            "hand 0 1 0 create 0 exec ---- 1 a quit\n",
        ),
        Does::Gets,
        true,
    ),
    (
        (
            "and so it does where the revision can't rise",
            "turn 0 arrive urgent 0\nturn 0 work\nturn 1 arrive urgent 0\nturn 1 work\n",
            "hand 0 1 0 create 0 exec ---- 1 a quit\n",
        ),
        Does::Changes,
        true,
    ),
];

/// Holds these hooks to what they are to do in a run.
fn expect_plain(rt: &impl Abort, alloc: Global, row: &(Run, Does, bool)) -> Result<(), Fail> {
    let (run, does, refused) = row;
    let chooser = Own { alloc, does: *does };
    expect_run(rt, alloc, run, chooser, *refused)
}

#[test]
fn all_but_the_acts_is_the_default(rt: HostRuntime) -> Result<(), Fail> {
    for row in &RUNS {
        expect_plain(&rt, rt.alloc(), row)?;
    }
    Ok(())
}
