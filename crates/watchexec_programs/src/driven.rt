// A job without an engine, whose turns are given here.
ghost use Rattle.std.specs.Prelude.{◌≡◌, None, []};
ghost use Rattle.wx_job.specs.Stands.{TaskStands};

use futures::Future;
use futures::task::{Context, Poll};
use std::alloc::Global;
use watchexec::Id;
use watchexec_supervisor::command::Command;
use watchexec_supervisor::job::{Job, Ticket, start_job};
use wx_control::{Ask, Controls, Refused};
use wx_job::{Host, JobHooks, JobTask};
use wx_journal::{Entry, Journal, Turn, TurnKind, put_lines};
use wx_machine::Stepped;
use wx_text::{Memory, Text};

/// A job, with what runs its children, what it calls, and its journal. As a future it takes one turn at each poll, at the moments
/// from 1 on, and is ready once the job is gone or there is no memory.
#[derive(Drop)]
pub(crate) struct Driven<H, K> {
    alloc: Global,
    task: JobTask,
    host: H,
    hooks: K,
    journal: Journal,
    asked: Vec<(Id, Ask)>,
    at: u64,
    ghost stands: { TaskStands task journal.past },
}

/// A job that runs this command, over this host and these hooks, and a handle on it.
pub(crate) fn drive<H: Host + Drop, K: JobHooks + Drop>(
    alloc: Global,
    command: Command,
    host: H,
    hooks: K,
) -> Result<(Job, Driven<H, K>), Memory> {
    let mut journal = Journal::new(alloc)?;
    journal.reserve(1)?;
    let (job, task) = start_job(alloc, Id(0), command)?;
    journal.push(Entry::Made(Id(0)));
    let driven = Driven {
        alloc,
        task,
        host,
        hooks,
        journal,
        asked: Vec::new(alloc),
        at: 0,
    };
    Ok((job, driven))
}

#[tactic(auto, using(wx_machine::proofs::Frame::frame_turn, wx_job::proofs::StandsLemmas::stands_history))]
impl<H: Host + Drop, K: JobHooks + Drop> Driven<H, K> {
    /// A turn in which the job takes a step. Each call that is listed needs room, which is taken before.
    fn turn(&mut self) -> Result<Stepped, Memory> {
        let room = self.task.parked().checked_add(17).ok_or(Memory)?;
        self.journal.reserve(room)?;
        self.host.reserve(room)?;
        self.hooks.reserve(16)?;
        self.at = self.at.saturating_add(1);
        let (at, kind) = (self.at, TurnKind::Job(Id(0)));
        self.journal.push(Entry::Turn(Turn { at, kind }));
        self.task.step(
            self.alloc,
            at,
            &mut self.host,
            &mut self.hooks,
            &mut self.journal,
        )
    }

    /// The lines of its journal.
    pub(crate) fn lines(&self) -> Result<Text, Memory> {
        let mut text = Text::new(self.alloc);
        put_lines(self.journal.as_slice(), &mut text)?;
        Ok(text)
    }
}

/// Handles on the job send to it.
impl<H: Host + Drop, K: JobHooks + Drop> Controls for Driven<H, K> {
    ghost Rest = { Unit {0} };

    ghost sink = { λ s. record { asks = s.asked.items; sends = None; fulls = 0; rest = tt; place = [] } };

    fn send(&mut self, alloc: Global, job: &Job, ask: Ask) -> Result<Ticket, Refused> {
        if self.asked.reserve(1).is_err() {
            return Err(Refused::Memory);
        }
        let ticket = self.task.send(alloc, ask, None, &mut self.journal)?;
        self.asked.push_reserved((job.id(), ask));
        Ok(ticket)
    }
}

impl<H: Host + Drop, K: JobHooks + Drop> Future for Driven<H, K> {
    type Output = Result<(), Memory>;

    fn poll(&mut self, cx: &mut Context<'_>) -> Poll<Result<(), Memory>> {
        match self.turn() {
            Ok(Stepped::Gone) => Poll::Ready(Ok(())),
            Ok(_) => cx.yield_now(),
            Err(want) => Poll::Ready(Err(want)),
        }
    }
}
