// What is held at first, from words.
use std::alloc::Global;
use wx_fs_trial::{place, root};
use wx_holding::Held;
use wx_recursor::{GuardWatch, Identity, Known, Owner, Retry};
use wx_text::{Copies, Memory};

/// A path and, behind a blank, the directory that it leads to, where that is another one.
fn known(alloc: Global, words: &str) -> Result<Known, Memory> {
    let (path, directory) = words.split_once(" ").unwrap_or((words, words));
    let path = place(alloc, path)?;
    let identity = Identity::Canonical(place(alloc, directory)?);
    Ok(Known { path, identity })
}

/// The first root owns the path.
fn own(alloc: Global, words: &str, held: &mut Held) -> Result<(), Memory> {
    let owned = known(alloc, words)?;
    let root = match held.roots.as_slice().first() {
        Some(first) => first.copy(alloc)?,
        None => root(alloc, "r", "/")?,
    };
    let path = owned.path.copy(alloc)?;
    let seen = true;
    held.owners.push(Owner { root, path, seen })?;
    held.known.push(owned)
}

/// A root, and the directory that guards it.
fn guard(alloc: Global, words: &str, held: &mut Held) -> Result<(), Memory> {
    let (of, at) = words.split_once(" ").unwrap_or((words, words));
    let Known { path, identity } = known(alloc, at)?;
    let guarded = root(alloc, "r", of)?;
    held.roots.push(guarded.copy(alloc)?)?;
    held.guards.push(GuardWatch {
        root: guarded,
        path,
        identity,
    })?;
    Ok(())
}

/// A root, and the path at which a look is to be done again.
fn retry(alloc: Global, words: &str, held: &mut Held) -> Result<(), Memory> {
    let (of, at) = words.split_once(" ").unwrap_or((words, words));
    let root = root(alloc, "r", of)?;
    let path = place(alloc, at)?;
    held.retries.push(Retry { root, path })?;
    Ok(())
}

/// Holds a path in the list that the word names. No where it names none.
fn put_path(alloc: Global, word: &str, at: &str, held: &mut Held) -> Result<bool, Memory> {
    let path = place(alloc, at)?;
    match word {
        "excluded" => held.excluded.push(path)?,
        "tombstone" => held.tombstones.push(path)?,
        "skipped" => held.skipped.push(path)?,
        "failed" => held.failed.push(path)?,
        _ => return Ok(false),
    }
    Ok(true)
}

/// Holds what a word and paths name. No where the word names nothing.
fn put_item(alloc: Global, word: &str, paths: &str, held: &mut Held) -> Result<bool, Memory> {
    match word {
        "root" => held.roots.push(root(alloc, "r", paths)?)?,
        "flat" => held.roots.push(root(alloc, "n", paths)?)?,
        "own" => own(alloc, paths, held)?,
        "guard" => guard(alloc, paths, held)?,
        "retry" => retry(alloc, paths, held)?,
        "registered" => held.registrations.push(known(alloc, paths)?)?,
        "waiting" => held.waiting.push(known(alloc, paths)?)?,
        _ => return put_path(alloc, word, paths, held),
    }
    Ok(true)
}

/// Holds what these items name, with a comma between two. No where one names nothing.
pub fn put_items(alloc: Global, items: &str, held: &mut Held) -> Result<bool, Memory> {
    for item in items.split(", ") {
        let (word, paths) = item.split_once(" ").unwrap_or((item, ""));
        if !put_item(alloc, word, paths, held)? {
            return Ok(false);
        }
    }
    Ok(true)
}
