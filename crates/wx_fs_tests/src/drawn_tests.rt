// Recursors over drawn trees, with drawn roots. Of each tree stands what the slow walk says of it: what is to be owned, what is to
// guard, and which roots are absent.
use crate::drawn::TREES;
use crate::runs::runs_hold;
use crate::trial::{Trial, Tried};
use std::alloc::Global;
use wx_fs_trial::{FailingBackend, count_words, has_word, has_words};
use wx_text::Memory;

/// What is to come of roots, words each.
#[derive(Clone, Copy)]
struct Outcome<'a> {
    owned: &'a str,
    guards: &'a str,
    absent: &'a str,
}

/// Whether the same words stand in both, in any order, and as often as it may be.
fn have_same(first: &str, second: &str) -> bool {
    has_words(first, second) && has_words(second, first)
}

/// Whether what is owned and what guards stands there once each, and nothing else.
fn is_each_once(watched: &str, wanted: &Outcome<'_>) -> bool {
    let mut count = count_words(wanted.owned);
    for guard in wanted.guards.split(" ") {
        if !guard.is_empty() && !has_word(wanted.owned, guard) {
            count = count.saturating_add(1);
        }
    }
    count_words(watched) == count
        && has_words(watched, wanted.owned)
        && has_words(watched, wanted.guards)
}

/// The roots that are shown to be absent. None where something else is shown.
fn absent(alloc: Global, shown: &str) -> Result<Option<String>, Memory> {
    let mut roots = String::new(alloc);
    for line in shown.lines() {
        let named = line.strip_prefix("fswatcher native pathscan").unwrap_or("");
        match named.strip_suffix(" notfound") {
            Some(at) => roots.push_str(at)?,
            None => return Ok(None),
        }
    }
    Ok(Some(roots))
}

/// Whether just these absent roots were shown.
fn are_absent<B: Tried + Drop>(trial: &Trial<B>, wanted: &str) -> Result<bool, Memory> {
    match absent(trial.alloc, trial.shown.as_str())? {
        Some(found) => Ok(have_same(found.as_str(), wanted)),
        None => Ok(false),
    }
}

/// Whether just this is owned, guards, and is watched, each path once.
fn is_kept<B: Tried + Drop>(trial: &Trial<B>, wanted: &Outcome<'_>) -> Result<bool, Memory> {
    let owned = trial.owned()?;
    let guards = trial.guards()?;
    let watched = trial.watched()?;
    Ok(
        have_same(owned.as_str(), wanted.owned)
            && have_same(guards.as_str(), wanted.guards)
            && is_each_once(watched.as_str(), wanted),
    )
}

/// How many steps are enough once these roots are set: for so many guards, roots, nodes and owners.
fn enough<B: Tried + Drop>(trial: &Trial<B>, roots: &str) -> usize {
    let roots = if roots == "none" {
        0
    } else {
        roots.split(", ").count()
    };
    let held = trial.recursor.held();
    roots
        .saturating_mul(trial.nodes.saturating_add(1))
        .saturating_add(held.guards.len())
        .saturating_add(held.owners.len())
        .saturating_add(1)
        .saturating_mul(4)
}

/// Sets the roots, with nothing shown so far, and takes steps, of which so many are enough.
fn comes_to_rest<B: Tried + Drop>(trial: &mut Trial<B>, roots: &str) -> Result<bool, Memory> {
    let most = enough(trial, roots);
    trial.forget();
    trial.reconcile(roots)?;
    Ok(trial.run(most as u64)? && trial.is_idle())
}

/// What a line says is to come of its roots.
fn wanted(words: &str) -> Option<(&str, Outcome<'_>)> {
    let (roots, more) = words.split_once(" owned")?;
    let (owned, more) = more.split_once(" guards")?;
    let (guards, absent) = more.split_once(" absent")?;
    Some((
        roots,
        Outcome {
            owned,
            guards,
            absent,
        },
    ))
}

/// Whether the roots settle, and just this comes of them.
pub fn settles<B: Tried + Drop>(trial: &mut Trial<B>, words: &str) -> Result<bool, Memory> {
    let Some((roots, wanted)) = wanted(words) else {
        return Ok(false);
    };
    Ok(
        comes_to_rest(trial, roots)?
            && is_kept(trial, &wanted)?
            && are_absent(trial, wanted.absent)?,
    )
}

#[test]
fn drawn_trees_are_walked(rt: HostRuntime) {
    runs_hold::<FailingBackend>(&rt, rt.alloc(), TREES);
}
