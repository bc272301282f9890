// What is seen of a job behind the moves of a line.
//
// A line is `MOVES = SEEN`. The moves stand with commas between them: what is asked; `step` or `ended` and a moment; `poll ready`,
// `poll later`, `ends END` or `word TEXT` for what a later call answers; `close`; `end`. Where ` ! N` stands behind them, the call on
// the host of this number, from 0, fails. What is seen comes of the last move: the entries but the turn, and behind ` | `
//
// - `did`, `idle`, `later`, `gone` or `memory`, where it takes a step;
// - the state; `until` and the end of the grace that stands; `parks` and how many tickets are parked;
// - where it stands there, `after` and the state before, and behind `; ` what the last hook or function was shown.
//
// A block of lines is the story of one job, each line of which goes on from the one before. Where its first line is `MOVES:` each
// other line has a job of its own, with which these moves are made before.
use crate::expecting::expect_yes;
use crate::player::{Given, One, Played, new_job};
use std::alloc::Global;
use std::fmt;
use std::process::Abort;
use wx_job::JobTask;
use wx_journal::{Entry, Journal};
use wx_machine::{CommandState, Stepped};
use wx_text::{Memory, Text};

/// A state, shown by its words: `pending`, `runs CHILD from MOMENT`, or `END from MOMENT to MOMENT`. A child that was let go has
/// `left`.
#[derive(Clone, Copy)]
struct State<'a> {
    of: &'a CommandState,
    left: bool,
}

impl fmt::Display for State<'_> {
    fn fmt<W: fmt::Write>(&self, f: &mut fmt::Formatter<W>) -> fmt::Result {
        let runs = if self.left { "left" } else { "runs" };
        match self.of {
            CommandState::Pending => f.write_str("pending"),
            CommandState::Running { child, started } => write!(f, "{runs} {child} from {started}"),
            CommandState::Finished {
                status,
                started,
                finished,
            } => write!(f, "{status} from {started} to {finished}"),
        }
    }
}

/// The state before another, where there was one.
#[derive(Clone, Copy)]
struct Before<'a>(Option<&'a CommandState>);

impl fmt::Display for Before<'_> {
    fn fmt<W: fmt::Write>(&self, f: &mut fmt::Formatter<W>) -> fmt::Result {
        match self.0 {
            Some(of) => write!(f, "{}", State { of, left: false }),
            None => f.write_str("none"),
        }
    }
}

/// What a job is: its state, the end of a grace that stands, and how many tickets are parked.
#[derive(Clone, Copy)]
struct Seen<'a>(&'a JobTask);

impl fmt::Display for Seen<'_> {
    fn fmt<W: fmt::Write>(&self, f: &mut fmt::Formatter<W>) -> fmt::Result {
        let left = self.0.running_child().is_none();
        let of = self.0.state();
        write!(f, " {}", State { of, left })?;
        if let Some(ends) = self.0.grace_end() {
            write!(f, " until {ends}")?;
        }
        match self.0.parked() {
            0 => Ok(()),
            parked => write!(f, " parks {parked}"),
        }
    }
}

/// The word of what a move answered, with a space before it. A move that takes no step has none.
fn answer_word(answer: Result<Option<Stepped>, Memory>) -> &'static str {
    match answer {
        Ok(Some(Stepped::Did)) => " did",
        Ok(Some(Stepped::Idle)) => " idle",
        Ok(Some(Stepped::Later)) => " later",
        Ok(Some(Stepped::Gone)) => " gone",
        Ok(None) => "",
        Err(Memory) => " memory",
    }
}

/// Appends an entry but a turn, with a comma before it where it isn't the first.
fn put_seen(entry: &Entry, text: &mut Text) -> Result<(), Memory> {
    if matches!(entry, Entry::Turn(_)) {
        return Ok(());
    }
    if text.len() > 0 {
        text.append(b", ")?;
    }
    entry.put(text)
}

/// The entries behind the first `listed`, but turns, with a comma between them.
fn entries_of(alloc: Global, journal: &Journal, listed: usize) -> Result<Text, Memory> {
    let mut text = Text::new(alloc);
    for entry in journal.as_slice().iter().skip(listed) {
        put_seen(entry, &mut text)?;
    }
    Ok(text)
}

/// Whether the entries and the job are these behind the last move of a line.
fn is_seen(alloc: Global, job: &One, played: Played, want: &str) -> Result<bool, Memory> {
    let Some((listed, is)) = want.split_once(" |") else {
        return Ok(false);
    };
    let entries = entries_of(alloc, &job.world.journal, played.listed)?;
    if entries.as_slice() != listed.as_bytes() {
        return Ok(false);
    }
    let seen = format!(in alloc; "{}{}", answer_word(played.answer), Seen(&job.task))?;
    Ok(seen.as_str() == is)
}

/// Whether this is the state before, and, where that is told, what the last hook or function was shown.
fn is_before(alloc: Global, job: &One, want: &str) -> Result<bool, Memory> {
    let before = Before(job.task.previous());
    let text = match &job.world.hooks.shown {
        Some((letter, of, then)) if want.contains(";") => {
            let then = Before(then.as_ref());
            format!(in alloc;
                "{before}; {letter} {} after {then}",
                State { of, left: false }
            )?
        }
        None if want.contains(";") => format!(in alloc; "{before}; none")?,
        _ => format!(in alloc; "{before}")?,
    };
    Ok(text.as_str() == want)
}

/// Whether this entry lists that the ticket of this name was raised.
fn raises(entry: &Entry, name: u64) -> bool {
    match entry {
        Entry::Raise(ticket) => *ticket == name,
        _ => false,
    }
}

/// Whether the journal lists that the ticket of this name was raised.
fn is_raised(name: u64, journal: &Journal) -> bool {
    for entry in journal.as_slice() {
        if raises(entry, name) {
            return true;
        }
    }
    false
}

/// Whether the flags of a ticket are raised just where the journal says so, of a job that is gone or isn't.
fn is_flagged(given: &Given, gone: bool, journal: &Journal) -> bool {
    let done = match given.name {
        Some(name) => is_raised(name, journal),
        None => gone,
    };
    given.ticket.done.raised() == done && given.ticket.gone.raised() == gone
}

/// Whether the state is of the sort that its methods say, and its child, where one runs, is the one that the task tells.
fn is_of_its_sort(task: &JobTask) -> bool {
    let state = task.state();
    let sort = (state.is_pending(), state.is_running(), state.is_finished());
    let child = task.running_child();
    match *state {
        CommandState::Pending => sort == (true, false, false) && child.is_none(),
        CommandState::Running { child: one, .. } => {
            sort == (false, true, false)
                && (child == Some(one) || task.is_gone() && child.is_none())
        }
        CommandState::Finished { .. } => sort == (false, false, true) && child.is_none(),
    }
}

/// Whether the flags of each ticket are raised just where the journal says so, and the handle tells what the task does.
fn is_told(job: &mut One) -> bool {
    let gone = job.task.is_gone();
    let runs = job.task.running_child().is_some();
    if job.handle.is_dead() != gone || job.handle.is_running() != runs {
        return false;
    }
    for given in &job.tickets {
        if !is_flagged(given, gone, &job.world.journal) {
            return false;
        }
    }
    is_of_its_sort(&job.task)
}

/// Holds what is seen behind the last move of a line to this.
fn expect_seen(
    rt: &impl Abort,
    alloc: Global,
    job: &mut One,
    played: Played,
    want: &str,
    line: &str,
) {
    let (seen, before) = match want.split_once(" after ") {
        Some((seen, before)) => (seen, Some(before)),
        None => (want, None),
    };
    expect_yes(rt, is_seen(alloc, job, played, seen), line);
    if let Some(before) = before {
        expect_yes(rt, is_before(alloc, job, before), line);
    }
    expect_yes(rt, Ok(is_told(job)), line);
}

/// Plays a line, and holds what comes of its last move to what stands there. The tickets and the handle have to tell what the
/// journal and the task do.
pub(crate) fn expect_line(rt: &impl Abort, alloc: Global, job: &mut One, line: &str) {
    let (moves, want) = line.split_once(" = ").expect(rt, "moves and what is seen");
    let played = job.play_line(rt, alloc, moves);
    expect_seen(rt, alloc, job, played, want, line);
}

/// Plays a story, line by line.
pub(crate) fn expect_story(rt: &impl Abort, alloc: Global, job: &mut One, story: &str) {
    for line in story.lines() {
        expect_line(rt, alloc, job, line);
    }
}

/// Plays a case behind these moves, with a job of its own.
fn expect_case(rt: &impl Abort, alloc: Global, before: &str, case: &str) {
    let mut job = new_job(rt, alloc);
    job.play_line(rt, alloc, before);
    expect_line(rt, alloc, &mut job, case);
    drop(job);
}

/// Plays a block, which is a story or has cases.
fn expect_block(rt: &impl Abort, alloc: Global, block: &str) {
    match block.split_once(":\n") {
        Some((before, cases)) => {
            for case in cases.lines() {
                expect_case(rt, alloc, before, case);
            }
        }
        None => {
            let mut job = new_job(rt, alloc);
            expect_story(rt, alloc, &mut job, block);
            drop(job);
        }
    }
}

/// Plays the blocks of a table.
pub(crate) fn each_block(rt: &impl Abort, alloc: Global, table: &str) {
    for block in table.split("\n\n") {
        expect_block(rt, alloc, block);
    }
}
