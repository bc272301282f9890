// Runs over a recursor. A text has runs, each behind `# ` and what it shows. Its second line has the folder, and how the second watch
// of the backend fails, or `ok`. Each other line edits the tree, calls the recursor, or says behind ` = ` what is found. Behind
// `short` stands a line whose call finds no memory.
use crate::drawn_tests::settles;
use crate::public_tests::is_public;
use crate::trial::{Trial, Tried};
use std::alloc::Global;
use std::process::Abort;
use wx_fs_trial::{is_found, path, put_node};
use wx_text::Memory;

/// Takes a path of the tree away.
fn takes_away<B: Tried + Drop>(trial: &mut Trial<B>, at: &str) -> Result<bool, Memory> {
    trial.tree.gone(&path(trial.alloc, at)?)?;
    Ok(true)
}

/// Refuses a directory.
fn refuses<B: Tried + Drop>(trial: &mut Trial<B>, at: &str) -> Result<bool, Memory> {
    trial.dirs.refused.push(path(trial.alloc, at)?)?;
    Ok(true)
}

/// Puts nodes into the tree. A directory ends with a slash, a link with an at sign.
fn plants<B: Tried + Drop>(trial: &mut Trial<B>, nodes: &str) -> Result<bool, Memory> {
    for node in nodes.split(" ") {
        let (kind, at) = match (node.strip_suffix("/"), node.strip_suffix("@")) {
            (Some(""), _) => ("d", "/"),
            (Some(at), _) => ("d", at),
            (_, Some(at)) => ("l", at),
            _ => ("f", node),
        };
        put_node(trial.alloc, &mut trial.tree, kind, at)?;
        trial.nodes = trial.nodes.saturating_add(1);
    }
    Ok(true)
}

/// Tells the recursor of a change at a path. No where the word names no call.
fn tells<B: Tried + Drop>(trial: &mut Trial<B>, call: &str, at: &str) -> Result<bool, Memory> {
    let at = path(trial.alloc, at)?;
    match call {
        "create" => trial.recursor.topology_create(&at)?,
        "remove" => trial.recursor.topology_remove(&at)?,
        "ambiguous" => trial.recursor.topology_ambiguous(&at)?,
        _ => return Ok(false),
    }
    Ok(true)
}

/// Tells the recursor that what was at the first path is at the second.
fn renames<B: Tried + Drop>(trial: &mut Trial<B>, paths: &str) -> Result<bool, Memory> {
    let (from, to) = paths.split_once(" ").unwrap_or((paths, ""));
    let left = path(trial.alloc, from)?;
    let reached = path(trial.alloc, to)?;
    trial.recursor.topology_rename(&left, &reached)?;
    Ok(true)
}

/// Sets these roots.
fn sets<B: Tried + Drop>(trial: &mut Trial<B>, roots: &str) -> Result<bool, Memory> {
    trial.reconcile(roots)?;
    Ok(true)
}

/// Steps at most so often.
fn steps<B: Tried + Drop>(trial: &mut Trial<B>, most: &str) -> Result<bool, Memory> {
    match most.parse::<u64>() {
        Ok(most) => trial.run(most),
        Err(_) => Ok(false),
    }
}

/// Does what the first word says with the words behind it. No where it names nothing.
fn changes<B: Tried + Drop>(trial: &mut Trial<B>, word: &str, more: &str) -> Result<bool, Memory> {
    match word {
        "roots" => sets(trial, more),
        "tree" => plants(trial, more),
        "gone" => takes_away(trial, more),
        "refused" => refuses(trial, more),
        "rename" => renames(trial, more),
        "rebuild" => trial.rebuild(more),
        "steps" => steps(trial, more),
        "settles" => settles(trial, more),
        _ => tells(trial, word, more),
    }
}

/// Calls what the word names. No where it names nothing.
fn calls<B: Tried + Drop>(trial: &mut Trial<B>, word: &str) -> Result<bool, Memory> {
    match word {
        "rescan" => trial.recursor.rescan()?,
        "prepare" => trial.recursor.prepare_backend_rebuild()?,
        "defer" => trial.recursor.defer_replay(),
        _ => return Ok(false),
    }
    Ok(true)
}

/// Notes how often the tree was looked at.
fn notes_looks<B: Tried + Drop>(trial: &mut Trial<B>) -> bool {
    trial.looks = trial.tree.looks();
    true
}

/// Does what a line says of one word.
fn does<B: Tried + Drop>(trial: &mut Trial<B>, word: &str) -> Result<bool, Memory> {
    match word {
        "settle" => trial.settle(),
        "asks" => Ok(!trial.settle()?),
        "step" => trial.goes_on(),
        "replay" => Ok(trial.replay()?.is_some()),
        "forget" => Ok(trial.forget()),
        "lend" => Ok(trial.lend()),
        "restore" => Ok(trial.restore()),
        "looks" => Ok(notes_looks(trial)),
        _ => calls(trial, word),
    }
}

/// Whether this is so, as `yes` or `no` says.
fn is_so(so: bool, wanted: &str) -> bool {
    wanted == if so { "yes" } else { "no" }
}

/// How many there are of what the word names: rebuilds that were asked for, roots, paths that a replay would watch, looks since they
/// were noted.
fn number<B: Tried + Drop>(trial: &Trial<B>, what: &str) -> Option<u64> {
    match what {
        "rebuilds" => Some(trial.rebuilds),
        "roots" => Some(trial.recursor.held().roots.len() as u64),
        "replays" => Some(trial.recursor.replay_count()),
        "looks" => Some(trial.tree.looks().saturating_sub(trial.looks)),
        _ => None,
    }
}

/// Whether just so many are there, or the path is public.
fn counts<B: Tried + Drop>(trial: &Trial<B>, what: &str, wanted: &str) -> Result<bool, Memory> {
    match (number(trial, what), what.strip_prefix("public ")) {
        (Some(count), _) => Ok(wanted.parse::<u64>() == Ok(count)),
        (None, Some(at)) => Ok(is_so(is_public(trial, at)?, wanted)),
        _ => Ok(false),
    }
}

/// What the word names, in order.
fn listed<B: Tried + Drop>(trial: &Trial<B>, what: &str) -> Result<String, Memory> {
    match what {
        "owned" => trial.owned(),
        "guards" => trial.guards(),
        "watched" => trial.watched(),
        _ => trial.unwatched(),
    }
}

/// Whether a line that says what is found holds.
fn finds<B: Tried + Drop>(trial: &Trial<B>, what: &str, wanted: &str) -> Result<bool, Memory> {
    match what {
        "owned" | "guards" | "watched" | "unwatched" => {
            Ok(is_found(listed(trial, what)?.as_str(), wanted))
        }
        "shown" => Ok(is_found(trial.shown.as_str(), wanted)),
        "has work" => Ok(is_so(trial.recursor.has_work(), wanted)),
        "needs retry" => Ok(is_so(trial.recursor.needs_retry(), wanted)),
        _ => counts(trial, what, wanted),
    }
}

/// Whether a line of a run holds.
fn holds<B: Tried + Drop>(trial: &mut Trial<B>, line: &str) -> Result<bool, Memory> {
    if let Some((what, wanted)) = line.split_once(" = ") {
        return finds(trial, what, wanted);
    }
    match line.split_once(" ") {
        Some((word, more)) => changes(trial, word, more),
        None => does(trial, line),
    }
}

/// Whether a line of a run holds, or behind `short` finds no memory.
fn is_right<B: Tried + Drop>(trial: &mut Trial<B>, line: &str) -> Result<bool, Memory> {
    match line.strip_prefix("short ") {
        Some(call) => Ok(holds(trial, call) == Err(Memory)),
        None => holds(trial, line),
    }
}

/// Ends the test where the answer isn't yes, and says what the run shows, and at which line it is.
fn expect_yes(rt: &impl Abort, answer: Result<bool, Memory>, shows: &str, line: &str) {
    assert!(rt; answer == Ok(true), "{shows}: {line}");
}

/// The run holds for a new recursor. Its first line says what it shows.
fn run_holds<B: Tried + Drop>(rt: &impl Abort, alloc: Global, run: &str) {
    let (shows, more) = run.split_once("\n").unwrap_or((run, ""));
    let (over, lines) = more.split_once("\n").unwrap_or((more, ""));
    let (folder, fails) = over.split_once(" ").unwrap_or((over, "ok"));
    let mut trial = Trial::<B>::new(alloc, folder, fails).expect(rt, shows);
    for line in lines.lines() {
        expect_yes(rt, is_right(&mut trial, line), shows, line);
    }
    drop(trial);
}

/// Each run of the text holds.
pub fn runs_hold<B: Tried + Drop>(rt: &impl Abort, alloc: Global, runs: &str) {
    for run in runs.split("# ") {
        if !run.is_empty() {
            run_holds::<B>(rt, alloc, run);
        }
    }
}
