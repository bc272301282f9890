// A program is started, sent a signal and stopped by a job without an engine, and each ticket is awaited.
use crate::driven::{Driven, drive};
use crate::runs::{hooks, world};
use futures::executor::block_on;
use futures::future::{Either, select};
use std::alloc::{AllocGlobal, Global};
use std::random::RandomSource;
use std::sync::Wait;
use std::test::Fail;
use watchexec_supervisor::Signal;
use watchexec_supervisor::command::{Command, Program, SpawnOptions};
use watchexec_supervisor::job::{Job, Ticket};
use wx_control::Refused;
use wx_job::{Host, JobHooks};
use wx_text::{List, Memory, Text};

/// The command `serve`.
fn serve(alloc: Global) -> Result<Command, Memory> {
    let prog = Text::from_slice(alloc, b"serve")?;
    let args = List::new(alloc);
    Ok(Command {
        program: Program::Exec { prog, args },
        options: SpawnOptions::default(),
    })
}

/// Lets the job take turns until the ticket of what was asked is ready, or the job is gone.
fn wait<R, H, K>(
    rt: &R,
    driven: &mut Driven<H, K>,
    asked: Result<Ticket, Refused>,
) -> Result<(), Fail>
where
    R: Wait + RandomSource + AllocGlobal,
    H: Host + Drop,
    K: JobHooks + Drop,
{
    match block_on(rt, select(driven, asked?))? {
        Either::Left((ended, _)) => Ok(ended?),
        Either::Right(_) => Ok(()),
    }
}

/// Starts the program, sends it a signal, stops it with a grace of two nanoseconds, and deletes the job.
fn supervise<R, H, K>(rt: &R, job: &Job, driven: &mut Driven<H, K>) -> Result<(), Fail>
where
    R: Wait + RandomSource + AllocGlobal,
    H: Host + Drop,
    K: JobHooks + Drop,
{
    let alloc = rt.alloc();
    let started = job.start(alloc, driven);
    wait(rt, driven, started)?;
    let signalled = job.signal(alloc, driven, Signal::User1);
    wait(rt, driven, signalled)?;
    let stopped = job.stop_with_signal(alloc, driven, Signal::Terminate, 2);
    wait(rt, driven, stopped)?;
    let deleted = job.delete_now(alloc, driven);
    wait(rt, driven, deleted)
}

/// The journal of the job, over this host and these hooks.
fn journal_over<R, H, K>(rt: &R, host: H, hooks: K) -> Result<Text, Fail>
where
    R: Wait + RandomSource + AllocGlobal,
    H: Host + Drop,
    K: JobHooks + Drop,
{
    let command = serve(rt.alloc())?;
    let (job, mut driven) = drive(rt.alloc(), command, host, hooks)?;
    supervise(rt, &job, &mut driven)?;
    Ok(driven.lines()?)
}

/// The journal of the job. What its children do is said in no line, so all goes well.
pub(crate) fn run<R>(rt: &R) -> Result<Text, Fail>
where
    R: Wait + RandomSource + AllocGlobal,
{
    let alloc = rt.alloc();
    journal_over(rt, world(alloc, b"")?, hooks(alloc, b"")?)
}
