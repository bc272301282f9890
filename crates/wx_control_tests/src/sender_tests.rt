// Senders of jobs that live and that are gone: the expected values are worked out by hand.
ghost use Rattle.std.specs.Prelude.{Some, []};

use crate::control_tests::{copy_of, expect_so, new_flag, put_sends};
use crate::expecting::expect_yes;
use crate::flag_tests::is_ready;
use futures::executor::block_on;
use futures::future::join;
use futures::test::MockTask;
use std::alloc::Global;
use std::process::Abort;
use std::thread;
use wx_command::{Command, Program, SharedCommand, SpawnOptions};
use wx_control::{Ask, Control, Controls, Flag, Id, Job, Mirror, Refused, Ticket};
use wx_events::Signal;
use wx_text::{Copies, List, Memory, Text};
use wx_words::Spelled;
use wx_words_trial::{equals_its_copy, line_of};

/// A sink that keeps the asks that it takes with the flag of the last one, counts all sends, and refuses each where it
/// is told to.
#[derive(Drop)]
struct Kept {
    asks: List<(Id, Ask)>,
    last: Option<Flag>,
    sends: u64,
    fulls: u64,
    refuses: Option<Refused>,
}

impl Controls for Kept {
    ghost Rest = { Unit {0} };

    ghost sink = { λ k. record { asks = k.asks; sends = Some k.sends; fulls = k.fulls; rest = tt; place = [] } };

    fn send(&mut self, alloc: Global, job: &Job, ask: Ask) -> Result<Ticket, Refused> {
        self.sends = self.sends.saturating_add(1);
        match self.refuses {
            Some(Refused::Full) => {
                self.fulls = self.fulls.saturating_add(1);
                Err(Refused::Full)
            }
            Some(Refused::Memory) => Err(Refused::Memory),
            None => {
                let done = Flag::new(alloc, false)?;
                let ticket = open_ticket(alloc, job, &done)?;
                self.asks.push((job.id(), ask))?;
                self.last = Some(done);
                Ok(ticket)
            }
        }
    }
}

/// A ticket of this job that is done by this flag.
fn open_ticket(alloc: Global, job: &Job, done: &Flag) -> Result<Ticket, Memory> {
    let gone = job.gone().copy(alloc)?;
    let done = done.copy(alloc)?;
    Ok(Ticket { gone, done })
}

/// A sink that holds nothing and answers this.
fn sink(alloc: Global, refuses: Option<Refused>) -> Kept {
    Kept {
        asks: List::new(alloc),
        last: None,
        sends: 0,
        fulls: 0,
        refuses,
    }
}

/// The command `true`.
fn command(alloc: Global) -> Result<SharedCommand, Memory> {
    let command = Command {
        program: Program::Exec {
            prog: Text::from_slice(alloc, b"true")?,
            args: List::new(alloc),
        },
        options: SpawnOptions::default(),
    };
    SharedCommand::new(alloc, command)
}

/// A handle on the job of this name, which runs `true` and is gone once this flag is raised.
fn job(rt: &impl Abort, alloc: Global, number: u32, gone: Flag) -> Job {
    let command = command(alloc).expect(rt, "a command");
    let mirror = Mirror::new(alloc).expect(rt, "a mirror");
    Job::new(Id(number), command, gone, mirror)
}

/// A handle on a job of this name that isn't gone.
fn live_job(rt: &impl Abort, alloc: Global, number: u32) -> Job {
    job(rt, alloc, number, new_flag(rt, alloc))
}

/// Appends an ask of a job: the job and what was asked, then its controls and their level.
fn put_asked(id: Id, ask: &Ask, lines: &mut Text) -> Result<(), Memory> {
    id.put(lines)?;
    lines.append(b" ")?;
    ask.put(lines)?;
    lines.append(b" = ")?;
    put_sends(ask, lines)
}

/// The asks of this sink, each on a line of its own.
fn asks_of(alloc: Global, sink: &Kept) -> Result<Text, Memory> {
    let mut lines = Text::new(alloc);
    for (id, ask) in sink.asks.as_slice() {
        put_asked(*id, ask, &mut lines)?;
        lines.append(b"\n")?;
    }
    Ok(lines)
}

/// Holds the asks of this sink to be these lines.
fn expect_asks(rt: &impl Abort, alloc: Global, sink: &Kept, want: &str) {
    let asks = asks_of(alloc, sink).expect(rt, "the asks");
    assert!(rt; asks.as_slice() == want.as_bytes());
}

/// How many senders a job has.
const SENDERS: u32 = 22;

/// Calls the sender of this number, in the order in which `ASKED` lists what they ask.
fn call(job: &Job, alloc: Global, sink: &mut Kept, number: u32) -> Result<Ticket, Refused> {
    match number {
        0 => job.control(alloc, sink, Control::Delete),
        1 => job.start(alloc, sink),
        2 => job.stop(alloc, sink),
        3 => job.stop_with_signal(alloc, sink, Signal::User1, 0),
        4 => job.restart(alloc, sink),
        5 => job.restart_with_signal(alloc, sink, Signal::User1, 5),
        6 => job.try_restart(alloc, sink),
        7 => job.try_restart_with_signal(alloc, sink, Signal::User1, 6),
        8 => job.signal(alloc, sink, Signal::User1),
        9 => job.delete(alloc, sink),
        10 => job.delete_now(alloc, sink),
        11 => job.to_wait(alloc, sink),
        12 => job.run(alloc, sink, 7),
        13 => job.run_async(alloc, sink, 8),
        14 => job.set_spawn_hook(alloc, sink, 2),
        15 => job.unset_spawn_hook(alloc, sink),
        16 => job.set_spawn_fn(alloc, sink, 5),
        17 => job.unset_spawn_fn(alloc, sink),
        18 => job.set_spawn_child_fn(alloc, sink, 6),
        19 => job.unset_spawn_child_fn(alloc, sink),
        20 => job.set_error_handler(alloc, sink, 9),
        _ => job.unset_error_handler(alloc, sink),
    }
}

/// What the senders ask of job 3, as `asks_of` writes it.
const ASKED: &str = "\
3 delete = delete; normal
3 start = start; normal
3 stop = stop; normal
3 gracefulstop user1 0 = gracefulstop user1 0; normal
3 restart = stop, start; normal
3 restartsignal user1 5 = gracefulstop user1 5, start; normal
3 tryrestart = tryrestart; normal
3 trygracefulrestart user1 6 = trygracefulrestart user1 6; normal
3 signal user1 = signal user1; normal
3 stopdelete = stop, delete; normal
3 deletenow = stop, delete; urgent
3 towait = nextending; high
3 run 7 = run 7; normal
3 runasync 8 = runasync 8; normal
3 sethook 2 = sethook 2; normal
3 unsethook = unsethook; normal
3 setspawn 5 = setspawn 5; normal
3 clearspawn = clearspawn; normal
3 setchild 6 = setchild 6; normal
3 clearspawn = clearspawn; normal
3 seterror 9 = seterror 9; normal
3 unseterror = unseterror; normal
";

/// The ticket that the sender of this number gives.
fn ticket_of(rt: &impl Abort, alloc: Global, job: &Job, sink: &mut Kept, number: u32) -> Ticket {
    call(job, alloc, sink, number).expect(rt, "a ticket")
}

/// Ends the test where this isn't so at the sender of this number.
fn expect_at(rt: &impl Abort, so: bool, number: u32) {
    assert!(rt; so, "at {number}");
}

/// Raises the flag of the last ask.
fn raise_last(rt: &impl Abort, sink: &mut Kept) {
    let done = sink.last.take().expect(rt, "a flag of the ask");
    done.raise();
}

/// Calls the sender of this number, which sends and gives a ticket that is ready once its flag is raised.
fn expect_sent(
    rt: &impl Abort,
    alloc: Global,
    task: &MockTask,
    job: &Job,
    sink: &mut Kept,
    number: u32,
) {
    let mut ticket = ticket_of(rt, alloc, job, sink, number);
    expect_at(rt, sink.sends == number as u64 + 1, number);
    expect_at(rt, !is_ready(task, &mut ticket), number);
    raise_last(rt, sink);
    expect_at(rt, is_ready(task, &mut ticket), number);
    drop(ticket);
}

#[test]
fn each_sender_of_a_live_job_sends_once(rt: HostRuntime) {
    let alloc = rt.alloc();
    let task = MockTask::new(&rt).expect(&rt, "a task");
    let one = live_job(&rt, alloc, 3);
    let mut sink = sink(alloc, None);
    for number in 0..SENDERS {
        expect_sent(&rt, alloc, &task, &one, &mut sink, number);
    }
    expect_asks(&rt, alloc, &sink, ASKED);
    drop(sink);
    drop(one);
    drop(task);
}

/// Starts this job.
fn start(rt: &impl Abort, alloc: Global, job: &Job, sink: &mut Kept) {
    let ticket = job.start(alloc, sink).expect(rt, "a ticket");
    drop(ticket);
}

/// Calls the sender of this number, which gives a ticket that is ready.
fn expect_ready_at_once(
    rt: &impl Abort,
    alloc: Global,
    task: &MockTask,
    job: &Job,
    sink: &mut Kept,
    number: u32,
) {
    let mut ticket = ticket_of(rt, alloc, job, sink, number);
    expect_at(rt, is_ready(task, &mut ticket), number);
    drop(ticket);
}

#[test]
fn no_sender_of_a_gone_job_sends(rt: HostRuntime) {
    let alloc = rt.alloc();
    let task = MockTask::new(&rt).expect(&rt, "a task");
    let gone = new_flag(&rt, alloc);
    let mut one = job(&rt, alloc, 3, copy_of(&rt, alloc, &gone));
    let mut sink = sink(alloc, None);
    expect_so(&rt, !one.is_dead(), "it lives");
    gone.raise();
    drop(gone);
    start(&rt, alloc, &one, &mut sink);
    expect_so(&rt, one.is_dead(), "it is gone");
    for number in 0..SENDERS {
        expect_ready_at_once(&rt, alloc, &task, &one, &mut sink, number);
    }
    expect_asks(&rt, alloc, &sink, "3 start = start; normal\n");
    expect_so(&rt, sink.sends == 1, "one was sent");
    drop(sink);
    drop(one);
    drop(task);
}

const OF_TWO_JOBS: &str = "\
3 start = start; normal
0 stop = stop; normal
3 stop = stop; normal
3 start = start; normal
";

/// Sends this control to this job.
fn control(rt: &impl Abort, alloc: Global, job: &Job, sink: &mut Kept, control: Control) {
    let ticket = job.control(alloc, sink, control).expect(rt, "a ticket");
    drop(ticket);
}

/// Stops this job.
fn stop(rt: &impl Abort, alloc: Global, job: &Job, sink: &mut Kept) {
    let ticket = job.stop(alloc, sink).expect(rt, "a ticket");
    drop(ticket);
}

#[test]
fn asks_of_two_jobs_in_order(rt: HostRuntime) {
    let alloc = rt.alloc();
    let one = live_job(&rt, alloc, 3);
    let other = live_job(&rt, alloc, 0);
    let mut sink = sink(alloc, None);
    start(&rt, alloc, &one, &mut sink);
    stop(&rt, alloc, &other, &mut sink);
    control(&rt, alloc, &one, &mut sink, Control::Stop);
    control(&rt, alloc, &one, &mut sink, Control::Start);
    expect_asks(&rt, alloc, &sink, OF_TWO_JOBS);
    expect_so(&rt, sink.sends == 4, "four were sent");
    drop(sink);
    drop(other);
    drop(one);
}

/// Calls the sender of this number, which is refused so.
fn expect_refusal(
    rt: &impl Abort,
    alloc: Global,
    job: &Job,
    sink: &mut Kept,
    number: u32,
    refusal: Refused,
) {
    let answer = call(job, alloc, sink, number).err();
    expect_at(rt, answer == Some(refusal), number);
}

/// Calls each sender over a sink that refuses so: nothing is kept, and so many sends find no room.
fn expect_refused(rt: &impl Abort, alloc: Global, job: &Job, refusal: Refused, fulls: u64) {
    let mut sink = sink(alloc, Some(refusal));
    for number in 0..SENDERS {
        expect_refusal(rt, alloc, job, &mut sink, number, refusal);
    }
    expect_so(rt, sink.asks.is_empty(), "no ask is kept");
    expect_so(rt, sink.sends == 22 && sink.fulls == fulls, "22 sends");
    drop(sink);
}

#[test]
fn refused_sends_leave_nothing(rt: HostRuntime) {
    let one = live_job(&rt, rt.alloc(), 3);
    expect_refused(&rt, rt.alloc(), &one, Refused::Full, 22);
    expect_refused(&rt, rt.alloc(), &one, Refused::Memory, 0);
    drop(one);
}

/// Another handle on this job.
fn copy_of_job(rt: &impl Abort, alloc: Global, job: &Job) -> Job {
    job.copy(alloc).expect(rt, "a copy of the handle")
}

/// Holds the words of the command of this job to be these.
fn expect_command(rt: &impl Abort, alloc: Global, job: &Job, want: &[u8]) {
    let line = line_of(alloc, job.command()).expect(rt, "a line");
    assert!(rt; line.as_slice() == want);
}

#[test]
fn copies_are_equal(rt: HostRuntime) {
    let alloc = rt.alloc();
    let one = live_job(&rt, alloc, 9);
    let copy = copy_of_job(&rt, alloc, &one);
    drop(one);
    expect_command(&rt, alloc, &copy, b"exec ---- 1 true");
    drop(copy);
    expect_yes(&rt, equals_its_copy(alloc, &Control::Stop), "a control");
    let ask = Ask::One(Control::Start);
    expect_yes(&rt, equals_its_copy(alloc, &ask), "an ask");
}

/// Starts a job by a copy of this handle: whether a copy of the ticket is ready then.
fn start_by_a_copy(
    rt: &impl Abort,
    alloc: Global,
    task: &MockTask,
    job: &Job,
    sink: &mut Kept,
) -> bool {
    let copy = copy_of_job(rt, alloc, job);
    let ticket = copy.start(alloc, sink).expect(rt, "a ticket");
    drop(copy);
    let mut second = ticket.copy(alloc).expect(rt, "a copy of the ticket");
    drop(ticket);
    let ready = is_ready(task, &mut second);
    drop(second);
    ready
}

#[test]
fn a_copy_of_a_handle_keeps_what_was_seen(rt: HostRuntime) {
    let alloc = rt.alloc();
    let task = MockTask::new(&rt).expect(&rt, "a task");
    let mut one = live_job(&rt, alloc, 9);
    let mut sink = sink(alloc, None);
    let ready = start_by_a_copy(&rt, alloc, &task, &one, &mut sink);
    expect_so(&rt, !ready, "it isn't ready");
    one.gone().raise();
    let ready = start_by_a_copy(&rt, alloc, &task, &one, &mut sink);
    expect_so(&rt, ready && sink.sends == 2, "it is ready by the raise");
    expect_so(&rt, one.is_dead(), "it is gone");
    let ready = start_by_a_copy(&rt, alloc, &task, &one, &mut sink);
    expect_so(&rt, ready && sink.sends == 2, "it is ready and not sent");
    let twice = "9 start = start; normal\n9 start = start; normal\n";
    expect_asks(&rt, alloc, &sink, twice);
    drop(sink);
    drop(one);
    drop(task);
}

/// What a copy of this handle shows of the child.
fn runs_by_a_copy(rt: &impl Abort, alloc: Global, job: &Job) -> bool {
    let copy = copy_of_job(rt, alloc, job);
    let runs = copy.is_running();
    drop(copy);
    runs
}

/// Tells of the child by this mirror, and holds what it and the handle show to be so.
fn expect_told(rt: &impl Abort, alloc: Global, mirror: &Mirror, job: &Job, runs: bool) {
    mirror.tell(runs);
    expect_so(
        rt,
        mirror.told() == runs && job.is_running() == runs,
        "it is told",
    );
    expect_so(rt, runs_by_a_copy(rt, alloc, job) == runs, "a copy is told");
}

#[test]
fn a_handle_shows_what_was_told_of_its_child(rt: HostRuntime) {
    let alloc = rt.alloc();
    let mirror = Mirror::new(alloc).expect(&rt, "a mirror");
    let copy = mirror.copy(alloc).expect(&rt, "a copy of the mirror");
    let command = command(alloc).expect(&rt, "a command");
    let one = Job::new(Id(1), command, new_flag(&rt, alloc), copy);
    expect_so(&rt, !mirror.told() && !one.is_running(), "none runs");
    expect_told(&rt, alloc, &mirror, &one, true);
    expect_told(&rt, alloc, &mirror, &one, false);
    drop(one);
    drop(mirror);
}

#[test]
fn one_thread_awaits_what_another_raises(rt: HostRuntime) {
    let alloc = rt.alloc();
    let gone = new_flag(&rt, alloc);
    let mut one = job(&rt, alloc, 1, copy_of(&rt, alloc, &gone));
    let ticket = Ticket::resolved(alloc, &gone).expect(&rt, "a ticket");
    let both = join(copy_of(&rt, alloc, &gone), ticket);
    let raise = move || {
        gone.raise();
        one.is_dead()
    };
    let rt = &rt;
    let (dead, awaited) = thread::join(rt, raise, move || block_on(rt, both));
    let awaited = awaited.expect(rt, "both are awaited");
    assert!(rt; dead && awaited == ((), ()));
}
