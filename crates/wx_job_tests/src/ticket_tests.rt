// Tickets of jobs as futures, and what handles tell of jobs: worked out by hand, move by move.
//
// Behind ` => ` in a line stands what one poll of each ticket finds, in the order of the asks, and what the handle tells then.
use crate::expecting::expect_yes;
use crate::player::{One, new_job};
use crate::seen::expect_line;
use crate::test_world::command_a;
use futures::Future;
use futures::executor::block_on;
use futures::task::{Context, Poll};
use futures::test::MockTask;
use std::alloc::Global;
use std::process::Abort;
use wx_control::{Ask, Control, Flag, Id, Job, Ticket};
use wx_job::start_job;
use wx_machine::{Stepped, children_are_reaped};
use wx_text::{Copies, Memory};

/// Whether one poll by this task finds the ticket ready.
fn is_ready(task: &MockTask, ticket: &mut Ticket) -> bool {
    matches!(task.poll(ticket), Poll::Ready(()))
}

/// The word of a poll that finds a ticket ready or not: the flags that are seen raised then.
fn word_of(ready: bool, ticket: &Ticket) -> &'static str {
    match (ready, ticket.done.seen(), ticket.gone.seen()) {
        (false, false, false) => "pending",
        (true, true, false) => "done",
        (true, false, true) => "gone",
        (true, true, true) => "both",
        _ => "wrong",
    }
}

/// Whether a copy of a ticket is shown by the same text.
fn is_same(alloc: Global, ticket: &Ticket, copy: &Ticket) -> Result<bool, Memory> {
    let shown = format!(in alloc; "{ticket:?}")?;
    let again = format!(in alloc; "{copy:?}")?;
    Ok(shown.as_str() == again.as_str())
}

/// Whether one poll of a ticket finds this, and one of a copy that is made behind it finds the same.
fn is_polled(
    task: &MockTask,
    alloc: Global,
    ticket: &mut Ticket,
    want: &str,
) -> Result<bool, Memory> {
    let ready = is_ready(task, ticket);
    let found = word_of(ready, ticket) == want;
    let mut copy = ticket.copy(alloc)?;
    let same = is_same(alloc, ticket, &copy);
    let again = is_ready(task, &mut copy);
    let found_again = word_of(again, &copy) == want;
    drop(copy);
    Ok(same? && found && found_again)
}

/// The words of whether the job is dead and whether its child runs, as the handle tells.
fn life_of(job: &mut One) -> &'static str {
    match (job.handle.is_dead(), job.handle.is_running()) {
        (true, true) => "dead runs",
        (true, false) => "dead rests",
        (false, true) => "alive runs",
        (false, false) => "alive rests",
    }
}

/// Whether this is what one poll of each ticket finds, and then what the handle tells.
fn are_polled(task: &MockTask, alloc: Global, job: &mut One, want: &str) -> Result<bool, Memory> {
    let mut rest = want;
    for given in job.tickets.iter_mut() {
        let Some((word, behind)) = rest.split_once(" ") else {
            return Ok(false);
        };
        if !is_polled(task, alloc, &mut given.ticket, word)? {
            return Ok(false);
        }
        rest = behind;
    }
    Ok(rest == life_of(job))
}

/// Plays a line, and holds what is seen of the job, and what one poll of each ticket finds and the handle tells then, to what
/// stands there.
fn expect_told(rt: &impl Abort, task: &MockTask, alloc: Global, job: &mut One, line: &str) {
    let (played, want) = line
        .split_once(" => ")
        .expect(rt, "a line and what is told");
    expect_line(rt, alloc, job, played);
    expect_yes(rt, are_polled(task, alloc, job, want), line);
}

/// Plays each story with a job of its own.
fn each_told(rt: &impl Abort, task: &MockTask, alloc: Global, stories: &str) {
    for story in stories.split("\n\n") {
        let mut job = new_job(rt, alloc);
        for line in story.lines() {
            expect_told(rt, task, alloc, &mut job, line);
        }
        drop(job);
    }
}

/// A job without handles: the grace of its graceful stop runs to its end, and the step behind it ends the job.
const CLOSED: &str = "\
start,gracefulstop terminate 10,close =  | pending => pending pending alive rests
step 1 = pick 0 0, spawn 0 0 default ---- 1 a ok, raise 0 | did runs 0 from 1 => done pending alive runs
step 2 = pick 0 1, signal 0 15 ok | did runs 0 from 1 until 12 => done pending alive runs
step 3 = word idle | idle runs 0 from 1 until 12 => done pending alive runs
step 12 = grace 0, kill 0 ok, wait 0 success, raise 1 | did success from 1 to 12 => done done alive rests
step 13 = gone 0 | gone success from 1 to 12 => both both dead rests";

#[test]
fn a_closed_job_ends_behind_its_grace(rt: HostRuntime) {
    let task = MockTask::new(&rt).expect(&rt, "a task");
    each_told(&rt, &task, rt.alloc(), CLOSED);
}

/// Of two asks one is done, and the end of the job tells of both; what is asked then is over at once. A spawn that fails, a
/// wait for an end, and one that fails. A deletion. A function. A case that is given up. An ask of two controls, whose ticket is
/// that of the second. A grace of a restart, and faults that are shown.
const TOLD: &str = "\
start,stop = asked 1 0 normal stop | pending => pending pending alive rests
step 1 = pick 0 0, spawn 0 0 default ---- 1 a ok, raise 0 | did runs 0 from 1 => done pending alive runs
end = drop 0, gone 0 | left 0 from 1 => both gone dead rests
start =  | left 0 from 1 => both gone both dead rests
restart,step 2 =  | gone left 0 from 1 => both gone both both dead rests

start,step 1 ! 0 = pick 0 0, spawn 0 0 default ---- 1 a fault 7, raise 0 | did pending => done alive rests
start,step 2 = pick 0 1, spawn 1 0 default ---- 1 a ok, raise 1 | did runs 1 from 2 => done done alive runs
towait,step 3 = pick 0 2 | did runs 1 from 2 parks 1 => done done pending alive runs
ended 4 ! 0 = wait 1 fault 7 | did runs 1 from 2 parks 1 => done done pending alive runs
ended 5 = wait 1 success, raise 2 | did success from 2 to 5 => done done done alive rests

start,step 1,delete = asked 1 0 normal delete | runs 0 from 1 => done pending alive runs
stop,step 2 = pick 0 1, raise 1, drop 0, gone 0 | gone left 0 from 1 => both both gone dead rests

runasync 3,start,poll later,step 1 = pick 0 0, begun 0 3 | did pending => pending pending alive rests
step 2 = poll 0 3 later, word later | later pending => pending pending alive rests
step 3 = poll 0 3 ready, raise 0 | did pending => done pending alive rests
step 4 = pick 0 1, spawn 0 0 default ---- 1 a ok, raise 1 | did runs 0 from 4 => done done alive runs
runasync 4,step 5,close,poll later,step 6 = poll 0 4 later, word later | later runs 0 from 4 => done done pending alive runs
end = drop 0, gone 0 | left 0 from 4 => both both gone dead rests

start,sethook 9,tryrestart,step 1,step 2,step 3 = pick 0 2, kill 0 ok, wait 0 success, hook 0 9 memory | memory pending => done done pending alive rests
delete,step 4 = pick 0 3, raise 3, gone 0 | gone pending => both both gone both dead rests

start,step 1,restart = asked 1 0 normal stop, asked 2 0 normal start | runs 0 from 1 => done pending alive runs
step 2 = pick 0 1, kill 0 ok, wait 0 success, raise 1 | did success from 1 to 2 => done pending alive rests
step 3 = pick 0 2, spawn 1 0 default ---- 1 a ok, raise 2 | did runs 1 from 3 => done done alive runs

seterror 5,start,trygracefulrestart quit 9,step 1,step 2,step 3 = pick 0 2, signal 0 3 ok | did runs 0 from 2 until 12 => done done pending alive runs
ended 4 ! 0 = wait 0 fault 7, joberror 0 5 7 | did runs 0 from 2 until 12 => done done pending alive runs
ended 5 = wait 0 success, spawn 1 0 default ---- 1 a ok, raise 2 | did runs 1 from 5 => done done done alive runs
tryrestart,step 6 ! 2 = pick 0 3, kill 1 ok, wait 1 success, spawn 2 0 default ---- 1 a fault 7, joberror 0 5 7, raise 3 | did pending => done done done done alive rests";

#[test]
fn tickets_and_handles_tell_of_a_run(rt: HostRuntime) {
    let task = MockTask::new(&rt).expect(&rt, "a task");
    each_told(&rt, &task, rt.alloc(), TOLD);
}

/// Asks this over a flag of the caller.
fn ask_over(rt: &impl Abort, alloc: Global, job: &mut One, wish: Ask, last: &Flag) -> Ticket {
    let ticket = job.ask_over(alloc, wish, last);
    ticket.expect(rt, "a ticket")
}

/// Polls a ticket, and holds whether it is ready, and whether the flag of the caller is raised, to be so.
fn expect_poll(
    rt: &impl Abort,
    task: &MockTask,
    ticket: &mut Ticket,
    flag: &Flag,
    want: (bool, bool),
) {
    let raised = flag.raised();
    assert!(rt; (is_ready(task, ticket), raised) == want);
}

/// Makes a turn of the job.
fn step(rt: &impl Abort, alloc: Global, job: &mut One, at: u64) {
    let answer = job.step(alloc, at);
    answer.expect(rt, "a turn");
}

/// A flag of the caller is raised by the last control of its ask.
fn expect_raised(rt: &impl Abort, task: &MockTask, alloc: Global, job: &mut One, flag: &Flag) {
    let mut restart = ask_over(rt, alloc, job, Ask::Restart, flag);
    step(rt, alloc, job, 1);
    expect_poll(rt, task, &mut restart, flag, (false, false));
    step(rt, alloc, job, 2);
    expect_poll(rt, task, &mut restart, flag, (true, true));
    assert!(rt; !restart.gone.raised());
    drop(restart);
}

const START: Ask = Ask::One(Control::Start);

/// A flag that the caller raises ends the wait for its ticket alone.
fn expect_ended(rt: &impl Abort, task: &MockTask, alloc: Global, job: &mut One, flag: &Flag) {
    let mut start = ask_over(rt, alloc, job, START, flag);
    expect_poll(rt, task, &mut start, flag, (false, false));
    flag.raise();
    expect_poll(rt, task, &mut start, flag, (true, true));
    assert!(rt; !start.gone.raised());
    drop(start);
}

/// The flag of an ask of a job that is gone is left alone.
fn expect_late(rt: &impl Abort, task: &MockTask, alloc: Global, job: &mut One, flag: &Flag) {
    job.end().expect(rt, "the end");
    let mut late = ask_over(rt, alloc, job, START, flag);
    expect_poll(rt, task, &mut late, flag, (true, false));
    drop(late);
}

/// A flag that isn't raised.
fn new_flag(rt: &impl Abort, alloc: Global) -> Flag {
    Flag::new(alloc, false).expect(rt, "a flag")
}

#[test]
fn flags_of_the_caller(rt: HostRuntime) {
    let alloc = rt.alloc();
    let task = MockTask::new(&rt).expect(&rt, "a task");
    let mut job = new_job(&rt, alloc);
    expect_raised(&rt, &task, alloc, &mut job, &new_flag(&rt, alloc));
    expect_ended(&rt, &task, alloc, &mut job, &new_flag(&rt, alloc));
    expect_late(&rt, &task, alloc, &mut job, &new_flag(&rt, alloc));
    drop(job);
}

/// Does one turn of its job at each poll, at the moments from 1 on, and then polls the ticket of this place. It is ready once
/// that is, or the job is gone, and gives the moment of the last turn.
struct Turns {
    alloc: Global,
    job: One,
    at: u64,
    awaited: usize,
}

// Its parts are dropped by one call: docs/DESIGN.md, "What proofs cost".
impl Drop for Turns {
    fn drop(self) {
        let Turns {
            alloc: _,
            job: _,
            at: _,
            awaited: _,
        } = self;
    }
}

impl Future for Turns {
    type Output = Result<u64, Memory>;

    fn poll(&mut self, cx: &mut Context<'_>) -> Poll<Result<u64, Memory>> {
        self.at = self.at.saturating_add(1);
        let answer = match self.job.step(self.alloc, self.at) {
            Ok(answer) => answer,
            Err(want) => return Poll::Ready(Err(want)),
        };
        let gone = answer == Some(Stepped::Gone);
        let Some(given) = self.job.tickets.get_mut(self.awaited) else {
            return Poll::Ready(Err(Memory));
        };
        match given.ticket.poll(cx) {
            Poll::Pending if !gone => Poll::Pending,
            _ => Poll::Ready(Ok(self.at)),
        }
    }
}

#[test]
fn an_executor_awaits_tickets(rt: HostRuntime) {
    let alloc = rt.alloc();
    let mut job = new_job(&rt, alloc);
    let asked = "start,gracefulstop terminate 10,close =  | pending";
    expect_line(&rt, alloc, &mut job, asked);
    let mut turns = Turns {
        alloc,
        job,
        at: 0,
        awaited: 0,
    };
    let started = block_on(&rt, &mut turns).expect(&rt, "an executor");
    turns.awaited = 1;
    let stopped = block_on(&rt, &mut turns).expect(&rt, "an executor");
    let alive = !turns.job.handle.is_dead();
    drop(turns);
    assert!(rt; started == Ok(1) && stopped == Ok(12) && alive);
}

/// Holds a handle to be one on job 4, which runs the program `a`.
fn expect_handle(rt: &impl Abort, alloc: Global, job: Job) {
    let command = command_a(alloc).expect(rt, "a command");
    assert!(rt; job.id() == Id(4) && job.command() == &command);
}

#[test]
fn a_handle_tells_its_job(rt: HostRuntime) {
    let command = command_a(rt.alloc()).expect(&rt, "a command");
    let (job, task) = start_job(rt.alloc(), Id(4), command).expect(&rt, "a job");
    drop(task);
    expect_handle(&rt, rt.alloc(), job);
    children_are_reaped();
}
