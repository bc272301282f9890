// Runs over a recursor with its outside. A text has runs, each behind `# ` and what it shows, and each line of a run is told from
// the last one by a line's end. A line edits the tree, says what is held at first, orders a failure, calls something, or says
// behind ` = ` what is found: paths or errors in order, or `none`, a number, or `yes` or `no`. Behind `short` stands a line whose call
// finds no memory.
use crate::setup::put_items;
use crate::shown::shown;
use crate::trial::Trial;
use std::alloc::Global;
use std::process::Abort;
use wx_fs_trial::{count_words, has_word, is_found, path, place, put_node, root};
use wx_holding::{find_guard, is_safe, list, look_at_root};
use wx_rebuild::{defer, install, prepare, replay, replay_count};
use wx_recursor::{Found, GuardFound, Identity, Work};
use wx_text::{List, Memory};
use wx_topology::{be_unsure, create, remove, rename};

/// A failure is ordered for the look, the judgement or the call on the backend of this number, counted from 0.
fn orders(trial: &mut Trial, what: &str, words: &str) -> Result<bool, Memory> {
    let (number, how) = words.split_once(" ").unwrap_or((words, ""));
    let Ok(number) = number.parse::<u64>() else {
        return Ok(false);
    };
    match what {
        "look" => trial.scan.tree.fail(number, 5)?,
        "call" => trial.back.fail(number, how)?,
        _ if how == "fails" => trial.dirs.failing_call = Some(number as usize),
        _ => trial.dirs.refused_call = Some(number as usize),
    }
    Ok(true)
}

/// The next look fails.
fn fails_next(trial: &mut Trial) -> Result<bool, Memory> {
    let next = trial.scan.looks;
    trial.scan.tree.fail(next, 5)?;
    Ok(true)
}

/// From the look of this number on, counted from 0, the later tree stands there.
fn changes_from(trial: &mut Trial, number: &str) -> bool {
    let Ok(look) = number.parse::<u64>() else {
        return false;
    };
    trial.scan.from = look;
    true
}

/// Puts a node into the tree that stands later.
fn puts_later(trial: &mut Trial, words: &str) -> Result<bool, Memory> {
    match words.split_once(" ") {
        Some((kind, at)) => put_node(trial.alloc, &mut trial.scan.later, kind, at),
        None => Ok(false),
    }
}

/// A path that changed in some way is looked at.
fn probes(trial: &mut Trial, at: &str) -> Result<bool, Memory> {
    let alloc = trial.alloc;
    let work = Work::Probe(place(alloc, at)?, List::new(alloc));
    trial.held.queue.push_back(work)?;
    Ok(true)
}

/// This directory is refused, or what judges fails at it.
fn judges(trial: &mut Trial, word: &str, at: &str) -> Result<bool, Memory> {
    let at = path(trial.alloc, at)?;
    if word == "refused" {
        trial.dirs.refused.push(at)?;
    } else {
        trial.dirs.failing = Some(at);
    }
    Ok(true)
}

/// A directory is listed for the recursive root before it, and what is found is taken.
fn lists(trial: &mut Trial, words: &str) -> Result<bool, Memory> {
    let (of, at) = words.split_once(" ").unwrap_or((words, words));
    let owner = root(trial.alloc, "r", of)?;
    let at = place(trial.alloc, at)?;
    let found = list(trial.alloc, &at, &mut trial.scan)?;
    trial.held.take_listing(trial.alloc, &owner, &at, found)?;
    Ok(true)
}

/// Tells of a change at a path. No where the word names none.
fn tells(trial: &mut Trial, word: &str, at: &str) -> Result<bool, Memory> {
    let at = place(trial.alloc, at)?;
    match word {
        "create" => create(trial.alloc, &at, &mut trial.held)?,
        "remove" => remove(trial.alloc, &at, &mut trial.held)?,
        "ambiguous" => be_unsure(trial.alloc, &at, &mut trial.held)?,
        _ => return Ok(false),
    }
    Ok(true)
}

/// What was at the first path is at the second.
fn renames(trial: &mut Trial, words: &str) -> Result<bool, Memory> {
    let (from, to) = words.split_once(" ").unwrap_or((words, ""));
    let left = place(trial.alloc, from)?;
    let reached = place(trial.alloc, to)?;
    rename(trial.alloc, &left, &reached, &mut trial.held)?;
    Ok(true)
}

/// The calls on the backend from here on fail as these words say, in order. At `ok` one doesn't.
fn order_all(trial: &mut Trial, words: &str) -> Result<(), Memory> {
    let mut call = trial.back.calls;
    for word in words.split(" ") {
        if word != "ok" {
            trial.back.fail(call, word)?;
        }
        call = call.saturating_add(1);
    }
    Ok(())
}

/// A backend that fails so is installed, and what waits is watched again.
fn replays(trial: &mut Trial, words: &str) -> Result<bool, Memory> {
    order_all(trial, words)?;
    install(&mut trial.held);
    replay(
        trial.alloc,
        &mut trial.held,
        &mut trial.back,
        &mut trial.scan,
    )?;
    Ok(true)
}

/// Sets these roots.
fn sets(trial: &mut Trial, roots: &str) -> Result<bool, Memory> {
    trial.reconcile(roots)?;
    Ok(true)
}

/// What is done about the outside with words behind it.
fn does_outside(trial: &mut Trial, word: &str, more: &str) -> Result<bool, Memory> {
    match word {
        "look" | "call" | "judgement" => orders(trial, word, more),
        "next" => fails_next(trial),
        "changes" => Ok(changes_from(trial, more)),
        "later" => puts_later(trial, more),
        "refused" | "misjudged" => judges(trial, word, more),
        _ => put_node(trial.alloc, &mut trial.scan.tree, word, more),
    }
}

/// What is done with words behind it.
fn does(trial: &mut Trial, word: &str, more: &str) -> Result<bool, Memory> {
    match word {
        "with" => put_items(trial.alloc, more, &mut trial.held),
        "roots" => sets(trial, more),
        "probe" => probes(trial, more),
        "list" => lists(trial, more),
        "rename" => renames(trial, more),
        "replay" => replays(trial, more),
        "create" | "remove" | "ambiguous" => tells(trial, word, more),
        _ => does_outside(trial, word, more),
    }
}

/// What is done about what is held. No where the line names nothing.
fn calls(trial: &mut Trial, line: &str) -> Result<bool, Memory> {
    match line {
        "rescan" => trial.held.rescan(trial.alloc)?,
        "prepare" => prepare(trial.alloc, &mut trial.held)?,
        "defer" => defer(&mut trial.held),
        _ => return Ok(false),
    }
    Ok(true)
}

/// Links are followed.
fn follows(trial: &mut Trial) -> bool {
    trial.follow = true;
    true
}

/// What a line of one word says is done.
fn acts(trial: &mut Trial, line: &str) -> Result<bool, Memory> {
    match line {
        "settle" => trial.settle(),
        "follow" => Ok(follows(trial)),
        _ => calls(trial, line),
    }
}

/// How many there are of what the word names in the outside.
fn number_outside(trial: &Trial, what: &str) -> Option<u64> {
    match what {
        "judgements" => Some(trial.dirs.asked.len() as u64),
        "rebuilds" => Some(trial.rebuilds),
        "looks" => Some(trial.scan.looks),
        "calls" => Some(trial.back.calls),
        _ => None,
    }
}

/// How many there are of what the word names.
fn number(trial: &Trial, what: &str) -> Option<u64> {
    match what {
        "retries" => Some(trial.held.retries.len() as u64),
        "excluded" => Some(trial.held.excluded.len() as u64),
        "registrations" => Some(trial.held.registrations.len() as u64),
        "filter" => Some(u64::from(trial.held.filter)),
        "replays" => Some(replay_count(&trial.held)),
        _ => number_outside(trial, what),
    }
}

/// What the words name, in order.
fn listed(trial: &Trial, what: &str) -> Result<Option<String>, Memory> {
    match what {
        "owned" => Ok(Some(trial.owned()?)),
        "registered" => Ok(Some(trial.registered()?)),
        "unwatched" => Ok(Some(trial.unwatched()?)),
        "guards" => Ok(Some(trial.guards()?)),
        "asked" => Ok(Some(trial.asked()?)),
        _ => Ok(None),
    }
}

/// Whether this list or number is found.
fn is_listed(trial: &Trial, what: &str, wanted: &str) -> Result<bool, Memory> {
    if let Some(count) = number(trial, what) {
        return Ok(wanted.parse::<u64>() == Ok(count));
    }
    match listed(trial, what)? {
        Some(found) => Ok(is_found(found.as_str(), wanted)),
        None => Ok(false),
    }
}

/// What a look at a root finds, as a word.
fn found_word(found: &Found) -> &'static str {
    match found {
        Found::Missing => "missing",
        Found::Barred => "barred",
        Found::Rejected => "rejected",
        Found::Fault(_, _) => "fault",
        Found::Refused(_) => "refused",
        Found::Here(Identity::Canonical(_)) => "directory",
        Found::Here(Identity::Lexical(_)) => "other",
        Found::Entries(_) => "entries",
    }
}

/// Whether the root is found so, and is safe where it is found.
fn is_root(trial: &mut Trial, at: &str, wanted: &str) -> Result<bool, Memory> {
    let at = place(trial.alloc, at)?;
    let found = look_at_root(trial.alloc, &at, trial.follow, &mut trial.scan)?;
    let word = found_word(&found);
    drop(found);
    let safe = is_safe(trial.alloc, &at, trial.follow, &mut trial.scan)?;
    let here = word == "directory" || word == "other";
    Ok(word == wanted && safe == here)
}

/// Whether the guard of the path is found there.
fn is_guard(trial: &mut Trial, at: &str, wanted: &str) -> Result<bool, Memory> {
    let at = place(trial.alloc, at)?;
    let wanted = place(trial.alloc, wanted)?;
    match find_guard(trial.alloc, &at, trial.follow, &mut trial.scan)? {
        GuardFound::At(found, _) => Ok(found.is_same(&wanted)),
        GuardFound::Nowhere | GuardFound::Faulty(_, _) => Ok(false),
    }
}

/// Whether just this is held, with a semicolon between two parts. The queue is lost.
fn is_held(trial: &mut Trial, wanted: &str) -> Result<bool, Memory> {
    let held = shown(trial.alloc, &mut trial.held)?;
    let found = held.as_str();
    Ok(is_found(found.strip_suffix("; ").unwrap_or(found), wanted))
}

/// Whether this is so, as `yes` or `no` says.
fn is_so(so: bool, wanted: &str) -> bool {
    wanted == if so { "yes" } else { "no" }
}

/// Whether what is asked for behind the first word is found.
fn answers(trial: &mut Trial, what: &str, wanted: &str) -> Result<bool, Memory> {
    match what.split_once(" ") {
        Some(("root", at)) => is_root(trial, at, wanted),
        Some(("guard", at)) => is_guard(trial, at, wanted),
        _ => is_listed(trial, what, wanted),
    }
}

/// Whether a line that says what is found holds.
fn finds(trial: &mut Trial, what: &str, wanted: &str) -> Result<bool, Memory> {
    match what {
        "held" => is_held(trial, wanted),
        "shown" => Ok(is_found(trial.shown.as_str(), wanted)),
        "has work" => Ok(is_so(trial.held.has_work(), wanted)),
        "needs retry" => Ok(is_so(trial.held.needs_retry(), wanted)),
        "all but" => has_all_but(trial, wanted),
        _ => answers(trial, what, wanted),
    }
}

/// What is owned in the runs of `failing_tests` where nothing fails, in the order in which it is watched.
const ALL: &str = "/w /w/a /w/d /w/g /w/a/b /w/d/e /w/g/h /w/a/b/c";

/// Whether these are all of `ALL` but those that begin so, in any order.
fn is_all_but(missing: &str, found: &str) -> bool {
    let mut count: usize = 0;
    for word in ALL.split(" ") {
        let is_missing = word.starts_with(missing);
        if is_missing == has_word(found, word) {
            return false;
        }
        if !is_missing {
            count = count.saturating_add(1);
        }
    }
    count_words(found) == count
}

/// Whether nothing is guarded, and all but what begins so is owned and registered.
fn has_all_but(trial: &Trial, missing: &str) -> Result<bool, Memory> {
    let owned = trial.owned()?;
    let registered = trial.registered()?;
    Ok(
        trial.held.guards.is_empty()
            && is_all_but(missing, owned.as_str())
            && is_all_but(missing, registered.as_str()),
    )
}

/// Whether the call finds no memory.
fn is_short(trial: &mut Trial, call: &str) -> bool {
    let (word, more) = call.split_once(" ").unwrap_or((call, ""));
    does(trial, word, more) == Err(Memory)
}

/// Whether a line of a run holds.
fn holds(trial: &mut Trial, line: &str) -> Result<bool, Memory> {
    if let Some((what, wanted)) = line.split_once(" = ") {
        return finds(trial, what, wanted);
    }
    match line.split_once(" ") {
        Some(("short", call)) => Ok(is_short(trial, call)),
        Some((word, more)) => does(trial, word, more),
        None => acts(trial, line),
    }
}

/// Ends the test where the answer isn't yes, and says what the run shows, and at which line it is.
fn expect_yes(rt: &impl Abort, answer: Result<bool, Memory>, shows: &str, line: &str) {
    assert!(rt; answer == Ok(true), "{shows}: {line}");
}

/// Each line of this run holds, one after the other.
pub fn each_holds(rt: &impl Abort, trial: &mut Trial, shows: &str, lines: &str, end: &str) {
    for line in lines.split(end) {
        if !line.is_empty() {
            expect_yes(rt, holds(trial, line), shows, line);
        }
    }
}

/// The run holds for a new recursor over an empty tree. Its first line says what it shows.
fn run_holds(rt: &impl Abort, alloc: Global, run: &str) {
    let (shows, lines) = run.split_once("\n").unwrap_or((run, ""));
    let mut trial = Trial::new(alloc).expect(rt, shows);
    each_holds(rt, &mut trial, shows, lines, "\n");
    drop(trial);
}

/// Each run of the text holds.
pub fn runs_hold(rt: &impl Abort, alloc: Global, runs: &str) {
    for run in runs.split("# ") {
        if !run.is_empty() {
            run_holds(rt, alloc, run);
        }
    }
}
