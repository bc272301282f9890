// How entries are read.
ghost use Rattle.std.specs.Prelude.{◌≡◌, IfOk};
ghost use Rattle.wx_words.specs.Line.{Reads};
ghost use Rattle.wx_words.specs.Combine.{read_pair};
ghost use Rattle.wx_words.specs.Results.{read_result};
ghost use Rattle.wx_words.specs.ToEnd.{HasWord};
ghost use Rattle.wx_journal.specs.AtFront.{read_front};
ghost use Rattle.wx_journal.specs.Answers.{fault};
ghost use Rattle.wx_words.specs.Choices.{read_at};
ghost use Rattle.wx_journal.specs.Entries.{entry, file_rows, job_rows, brought, dir, make, filtered, hook, poll, signal, spawn, hand, unread, read_hand, read_entry};

use crate::answers::{read_backed, read_hooked, read_news, read_ready, read_verdict};
use crate::child::{HostFault, SpawnTag};
use crate::entry::{Act, Entry};
use std::alloc::Global;
use wx_command::Spawnable;
use wx_control::Id;
use wx_error::RuntimeError;
use wx_notify::Notify;
use wx_text::{List, Memory};
use wx_watch::{NotifyFault, Watcher};
use wx_words::{Spelled, TextPath, Words, is_word, read_result, read_row, take_literal};

/// What a call on a child answered.
type Answered<T> = Result<T, HostFault>;

/// Takes all values that stand at the front one behind the other, and leaves the line behind the last one.
#[tactic(auto, using(crate::proofs::AtFrontLaws::ends))]
fn take_front<T: Spelled>(alloc: Global, line: &mut Words) -> Result<List<T>, Memory>
    requires { HasWord T.spelling }
    ensures { IfOk result (λ xs. read_front T.spelling.read line.old ≡ (xs, line.new)) }
{
    let mut items = List::new(alloc);
    while let Some(item) = T::take(alloc, line)? {
        items.push(item)?;
    }
    Ok(items)
}

/// Takes a value and the answer of a call on a child behind it, or loses the place.
fn read_answered<A: Spelled, T: Spelled>(
    alloc: Global,
    line: &mut Words,
) -> Result<Option<(A, Answered<T>)>, Memory>
    ensures { IfOk result (λ x. Reads line.new x (read_pair A.spelling.read (read_result T.spelling fault) line.old)) }
{
    let Some(value) = A::read(alloc, line)? else {
        return Ok(None);
    };
    let Some(answer) = read_result(alloc, line)? else {
        return Ok(None);
    };
    Ok(Some((value, answer)))
}

/// Takes what stands behind the first word of a signal, or loses the place.
#[tactic(auto, unfolding(wx_words::specs::Parts::both))]
fn read_signal(
    alloc: Global,
    line: &mut Words,
) -> Result<Option<(u64, (i32, Answered<()>))>, Memory>
    ensures { IfOk result (λ x. Reads line.new x (signal.read line.old)) }
{
    let Some(child) = u64::read(alloc, line)? else {
        return Ok(None);
    };
    let Some(rest) = read_answered(alloc, line)? else {
        return Ok(None);
    };
    Ok(Some((child, rest)))
}

/// A child with its job, its tag, what was spawned and the answer.
type Spawned = (u64, (Id, (SpawnTag, (Spawnable, Answered<()>))));

/// Takes what stands behind the first word of a spawn, or loses the place.
#[tactic(auto, unfolding(wx_words::specs::Parts::both))]
fn read_spawn(alloc: Global, line: &mut Words) -> Result<Option<Spawned>, Memory>
    ensures { IfOk result (λ x. Reads line.new x (spawn.read line.old)) }
{
    let Some(child) = u64::read(alloc, line)? else {
        return Ok(None);
    };
    let Some(job) = Id::read(alloc, line)? else {
        return Ok(None);
    };
    let Some(tag) = SpawnTag::read(alloc, line)? else {
        return Ok(None);
    };
    let Some(rest) = read_answered(alloc, line)? else {
        return Ok(None);
    };
    Ok(Some((child, (job, (tag, rest)))))
}

/// Takes what stands behind the first word of a call of a filter, or loses the place.
#[tactic(auto, unfolding(wx_words::specs::Parts::both))]
fn read_filter(
    alloc: Global,
    line: &mut Words,
) -> Result<Option<(u32, (u64, Result<bool, RuntimeError>))>, Memory>
    ensures { IfOk result (λ x. Reads line.new x (filtered.read line.old)) }
{
    let Some(n) = u32::read(alloc, line)? else {
        return Ok(None);
    };
    let Some(name) = u64::read(alloc, line)? else {
        return Ok(None);
    };
    let Some(answer) = read_verdict(alloc, line)? else {
        return Ok(None);
    };
    Ok(Some((n, (name, answer))))
}

/// Takes what stands behind the first word where a directory was shown to a filter, or loses the place.
#[tactic(auto, unfolding(wx_words::specs::Parts::both))]
fn read_dir(
    alloc: Global,
    line: &mut Words,
) -> Result<Option<(u32, (TextPath, Result<bool, RuntimeError>))>, Memory>
    ensures { IfOk result (λ x. Reads line.new x (dir.read line.old)) }
{
    let Some(n) = u32::read(alloc, line)? else {
        return Ok(None);
    };
    let Some(path) = TextPath::read(alloc, line)? else {
        return Ok(None);
    };
    let Some(answer) = read_verdict(alloc, line)? else {
        return Ok(None);
    };
    Ok(Some((n, (path, answer))))
}

/// The name of a backend, how it watches files, whether it follows links, and what its maker answered.
type MadeBackend = (u64, (Watcher, (bool, Result<(), NotifyFault>)));

/// Takes what stands behind the first word of a make, or loses the place.
#[tactic(auto, unfolding(wx_words::specs::Parts::both))]
fn read_make(alloc: Global, line: &mut Words) -> Result<Option<MadeBackend>, Memory>
    ensures { IfOk result (λ x. Reads line.new x (make.read line.old)) }
{
    let Some(back) = u64::read(alloc, line)? else {
        return Ok(None);
    };
    let Some(watcher) = Watcher::read(alloc, line)? else {
        return Ok(None);
    };
    let Some(follow) = bool::read(alloc, line)? else {
        return Ok(None);
    };
    let Some(answer) = read_backed(alloc, line)? else {
        return Ok(None);
    };
    Ok(Some((back, (watcher, (follow, answer)))))
}

/// The name of an item, that of the backend, and what this brought.
type BroughtItem = (u64, (u64, Result<Notify, NotifyFault>));

/// Takes what stands behind the first word of an item that was brought, or loses the place.
#[tactic(auto, unfolding(wx_words::specs::Parts::both))]
fn read_brought(alloc: Global, line: &mut Words) -> Result<Option<BroughtItem>, Memory>
    ensures { IfOk result (λ x. Reads line.new x (brought.read line.old)) }
{
    let Some(item) = u64::read(alloc, line)? else {
        return Ok(None);
    };
    let Some(back) = u64::read(alloc, line)? else {
        return Ok(None);
    };
    let Some(answer) = read_news(alloc, line)? else {
        return Ok(None);
    };
    Ok(Some((item, (back, answer))))
}

/// Takes what stands behind the first word of a poll, or loses the place.
#[tactic(auto, unfolding(wx_words::specs::Parts::both))]
fn read_poll(alloc: Global, line: &mut Words) -> Result<Option<(Id, (u32, bool))>, Memory>
    ensures { IfOk result (λ x. Reads line.new x (poll.read line.old)) }
{
    let Some(job) = Id::read(alloc, line)? else {
        return Ok(None);
    };
    let Some(n) = u32::read(alloc, line)? else {
        return Ok(None);
    };
    let Some(ready) = read_ready(alloc, line)? else {
        return Ok(None);
    };
    Ok(Some((job, (n, ready))))
}

/// Takes what stands behind the first word of a call of a spawn hook, or loses the place.
#[tactic(auto, unfolding(wx_words::specs::Parts::both))]
fn read_hook(
    alloc: Global,
    line: &mut Words,
) -> Result<Option<(Id, (u32, Result<Spawnable, Memory>))>, Memory>
    ensures { IfOk result (λ x. Reads line.new x (hook.read line.old)) }
{
    let Some(job) = Id::read(alloc, line)? else {
        return Ok(None);
    };
    let Some(n) = u32::read(alloc, line)? else {
        return Ok(None);
    };
    let Some(answer) = read_hooked(alloc, line)? else {
        return Ok(None);
    };
    Ok(Some((job, (n, answer))))
}

/// Takes nothing: a `Hand` has acts behind its names with no count, and is read by `read_hand`.
fn read_no_hand(
    _alloc: Global,
    line: &mut Words,
) -> Result<Option<(u32, (List<u64>, List<Act>))>, Memory>
    ensures { IfOk result (λ x. Reads line.new x (unread.read line.old)) }
{
    let _ = &line;
    Ok(None)
}

/// Goes through these rows, where the first word was taken already, and then to what stands behind them.
macro_rules! rows_at {
    ($alloc:expr, $line:expr, $first:expr; $($word:literal $(($($field:pat),+ $(= $reader:path)?))? => $value:expr,)+; $rest:expr) => {{
        $(if is_word($first, $word.as_slice()) {
            return read_row!($alloc, $line; $(($($field),+ $(= $reader)?))? => $value);
        })+
        $rest
    }};
}

/// Takes what stands behind the first word of an entry of a job, where this is that word, or loses the place.
#[tactic(auto, unfolding(wx_words::specs::Parts::both))]
fn read_of_job(alloc: Global, first: &[u8], line: &mut Words) -> Result<Option<Entry>, Memory>
    ensures { IfOk result (λ x. Reads line.new x (read_at job_rows first.now line.old)) }
{
    rows_at!(alloc, line, first;
        b"made" (job) => Entry::Made(job),
        b"asked" (ticket, (job, (level, control))) => Entry::Asked { ticket, job, level, control },
        b"pick" (job, ticket) => Entry::Pick { job, ticket },
        b"grace" (job) => Entry::GraceOver(job),
        b"spawn" (child, (job, (tag, (what, answer))) = read_spawn) => Entry::Spawn { child, job, tag, what, answer },
        b"signal" (child, (number, answer) = read_signal) => Entry::Signal { child, number, answer },
        b"kill" (child, answer = read_answered) => Entry::Kill { child, answer },
        b"wait" (child, answer = read_answered) => Entry::Wait { child, answer },
        b"drop" (child) => Entry::Dropped(child),
        b"raise" (ticket) => Entry::Raise(ticket),
        b"gone" (job) => Entry::Gone(job),
        b"run" (job, n) => Entry::Run { job, n },
        b"begun" (job, n) => Entry::Begun { job, n },
        b"poll" (job, (n, ready) = read_poll) => Entry::Poll { job, n, ready },
        b"hook" (job, (n, answer) = read_hook) => Entry::Hook { job, n, answer },
        b"joberror" (job, (n, code)) => Entry::JobError { job, n, code },
        ; Ok(None)
    )
}

/// Takes what stands behind the first word of an entry of what is watched, or of a job, where this is that word, or loses
/// the place.
#[tactic(auto, unfolding(wx_words::specs::Parts::both))]
fn read_of_files(alloc: Global, first: &[u8], line: &mut Words) -> Result<Option<Entry>, Memory>
    ensures { IfOk result (λ x. Reads line.new x (read_at file_rows first.now line.old)) }
{
    rows_at!(alloc, line, first;
        b"dir" (n, (path, answer) = read_dir) => Entry::Dir { n, path, answer },
        b"make" (back, (watcher, (follow, answer)) = read_make) => Entry::Make { back, watcher, follow, answer },
        b"applied" (revision) => Entry::Applied(revision),
        b"heard" (item) => Entry::Heard(item),
        b"brought" (item, (back, answer) = read_brought) => Entry::Brought { item, back, answer },
        b"letgo" (item, cause) => Entry::LetGo { item, cause },
        b"ready" (revision) => Entry::Ready(revision),
        ; read_of_job(alloc, first, line)
    )
}

/// Takes an entry but a `Hand`, or loses the place.
#[tactic(auto, unfolding(crate::specs::Entries::entry, wx_words::specs::Parts::both))]
fn read_any(alloc: Global, line: &mut Words) -> Result<Option<Entry>, Memory>
    ensures { IfOk result (λ x. Reads line.new x (entry.read line.old)) }
{
    let Some(first) = line.next() else {
        return Ok(None);
    };
    rows_at!(alloc, line, first;
        b"begin" (beginning) => Entry::Begin(beginning),
        b"sent" (name, (priority, event)) => Entry::Sent { name, event, priority },
        b"turn" (turn) => Entry::Turn(turn),
        b"turnfault" (code) => Entry::TurnFault(code),
        b"offer" (name, (item, (outcome, (priority, event)))) => Entry::Offer { name, item, result: outcome, event, priority },
        b"word" (word) => Entry::Word(word),
        b"take" (name) => Entry::Take(name),
        b"filter" (n, (name, answer) = read_filter) => Entry::Filter { n, name, answer },
        b"show" (n, (error, wish)) => Entry::Show { n, error, wish },
        b"hand" (n, (names, acts) = read_no_hand) => Entry::Hand { n, names, acts },
        b"changed" (revision) => Entry::Changed(revision),
        ; read_of_files(alloc, first, line)
    )
}

/// Takes the number of a handler and the names of a batch behind the word hand, or loses the place.
#[tactic(auto, unfolding(wx_words::specs::Parts::both))]
fn read_batch(alloc: Global, line: &mut Words) -> Result<Option<(u32, List<u64>)>, Memory>
    ensures { IfOk result (λ x. Reads line.new x (hand.read line.old)) }
{
    if !take_literal(b"hand", line) {
        return Ok(None);
    }
    Spelled::read(alloc, line)
}

/// Takes a `Hand` with as many acts as stand behind it, or loses the place.
#[tactic(auto, using(crate::specs::Acts::act_has_word))]
fn read_hand(alloc: Global, line: &mut Words) -> Result<Option<Entry>, Memory>
    ensures { IfOk result (λ x. Reads line.new x (read_hand line.old)) }
{
    let Some((n, names)) = read_batch(alloc, line)? else {
        return Ok(None);
    };
    let acts: List<Act> = take_front(alloc, line)?;
    Ok(Some(Entry::Hand { n, names, acts }))
}

/// Takes an entry, or loses the place.
pub fn read_entry(alloc: Global, line: &mut Words) -> Result<Option<Entry>, Memory>
    ensures { IfOk result (λ x. Reads line.new x (read_entry line.old)) }
{
    let mut ahead = line.fork();
    if let Some(entry) = read_any(alloc, &mut ahead)? {
        *line = ahead;
        return Ok(Some(entry));
    }
    read_hand(alloc, line)
}
