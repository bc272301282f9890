// What a recursor holds, as a text.
use std::alloc::Global;
use wx_fs_trial::put_place;
use wx_holding::Held;
use wx_recursor::{GuardWatch, Item, Known, Owner, ScanFault, ShownError, Work};
use wx_text::Memory;
use wx_tree::Place;

/// Begins a part of the text where it has paths.
fn begin(word: &str, is_empty: bool, out: &mut String) -> Result<(), Memory> {
    if !is_empty {
        out.push_str(word)?;
    }
    Ok(())
}

/// Ends it.
fn end(is_empty: bool, out: &mut String) -> Result<(), Memory> {
    if !is_empty {
        out.push_str("; ")?;
    }
    Ok(())
}

fn put_known(alloc: Global, word: &str, known: &[Known], out: &mut String) -> Result<(), Memory> {
    begin(word, known.is_empty(), out)?;
    for one in known {
        put_place(alloc, &one.path, out)?;
    }
    end(known.is_empty(), out)
}

pub fn put_owners(alloc: Global, owners: &[Owner], out: &mut String) -> Result<(), Memory> {
    for owner in owners {
        put_place(alloc, &owner.path, out)?;
    }
    Ok(())
}

pub fn put_guards(alloc: Global, guards: &[GuardWatch], out: &mut String) -> Result<(), Memory> {
    for guard in guards {
        put_place(alloc, &guard.path, out)?;
    }
    Ok(())
}

fn put_places(alloc: Global, word: &str, places: &[Place], out: &mut String) -> Result<(), Memory> {
    begin(word, places.is_empty(), out)?;
    for place in places {
        put_place(alloc, place, out)?;
    }
    end(places.is_empty(), out)
}

/// A word, a root or a path, and one more where there is one.
fn put_item(
    alloc: Global,
    word: &str,
    first: &Place,
    second: Option<&Place>,
    out: &mut String,
) -> Result<(), Memory> {
    out.push_str(word)?;
    put_place(alloc, first, out)?;
    match second {
        Some(path) => put_place(alloc, path, out),
        None => Ok(()),
    }
}

fn put_work(alloc: Global, work: &Work, out: &mut String) -> Result<(), Memory> {
    match work {
        Work::Plain(Item::Guard(root)) => put_item(alloc, "guard", &root.path, None, out),
        Work::Plain(Item::Visit(root)) => put_item(alloc, "visit", &root.path, None, out),
        Work::Plain(Item::Scan(root, path)) => {
            put_item(alloc, "scan", &root.path, Some(path), out)
        }
        Work::Plain(Item::Candidate(root, path)) => {
            put_item(alloc, "candidate", &root.path, Some(path), out)
        }
        Work::Probe(path, owners) => {
            put_item(alloc, "probe", path, None, out)?;
            for root in owners.as_slice() {
                put_place(alloc, &root.path, out)?;
            }
            Ok(())
        }
    }
}

/// The queue, which is lost.
fn put_queue(alloc: Global, held: &mut Held, out: &mut String) -> Result<(), Memory> {
    let n = held.queue.len();
    for _ in 0..n {
        if let Some(work) = held.queue.pop_front() {
            put_work(alloc, &work, out)?;
            out.push_str("; ")?;
        }
    }
    Ok(())
}

/// An error as its word, with the path where there is one.
pub fn put_error(alloc: Global, error: &ShownError, out: &mut String) -> Result<(), Memory> {
    match error {
        ShownError::PathAdd(at, _) => put_item(alloc, "add", at, None, out),
        ShownError::PathScan(at, ScanFault::NotFound) => put_item(alloc, "absent", at, None, out),
        ShownError::PathScan(at, ScanFault::Io(_)) => put_item(alloc, "fault", at, None, out),
        ShownError::PathScan(at, ScanFault::Changed(_, _)) => {
            put_item(alloc, "changed", at, None, out)
        }
        ShownError::PathRemove(at, _) => put_item(alloc, "remove", at, None, out),
        ShownError::TooManyWatches(_) => Ok(out.push_str("watches")?),
        ShownError::TooManyHandles(_) => Ok(out.push_str("handles")?),
        ShownError::Filter(_) => Ok(out.push_str("filter")?),
    }
}

fn put_errors(alloc: Global, errors: &[ShownError], out: &mut String) -> Result<(), Memory> {
    for error in errors {
        put_error(alloc, error, out)?;
        out.push_str("; ")?;
    }
    Ok(())
}

/// What is watched, owned and guards.
fn put_watched(alloc: Global, held: &Held, out: &mut String) -> Result<(), Memory> {
    put_known(alloc, "registered", held.registrations.as_slice(), out)?;
    put_known(alloc, "waiting", held.waiting.as_slice(), out)?;
    begin("owned", held.owners.is_empty(), out)?;
    put_owners(alloc, held.owners.as_slice(), out)?;
    end(held.owners.is_empty(), out)?;
    begin("guards", held.guards.is_empty(), out)?;
    put_guards(alloc, held.guards.as_slice(), out)?;
    end(held.guards.is_empty(), out)
}

/// What is noted of paths.
fn put_noted(alloc: Global, held: &Held, out: &mut String) -> Result<(), Memory> {
    put_places(alloc, "skipped", held.skipped.as_slice(), out)?;
    put_places(alloc, "tombstones", held.tombstones.as_slice(), out)?;
    put_places(alloc, "excluded", held.excluded.as_slice(), out)?;
    put_places(alloc, "lost", held.lost.as_slice(), out)
}

/// Each list that isn't empty, each item of the queue, which is lost, each error, and whether a rebuild is asked for and a sweep is
/// owed, with a semicolon behind each.
pub fn shown(alloc: Global, held: &mut Held) -> Result<String, Memory> {
    let mut out = String::new(alloc);
    put_watched(alloc, held, &mut out)?;
    put_noted(alloc, held, &mut out)?;
    put_queue(alloc, held, &mut out)?;
    put_errors(alloc, held.shown.as_slice(), &mut out)?;
    if held.asks_rebuild {
        out.push_str("rebuild; ")?;
    }
    if held.sweep_due {
        out.push_str("sweep; ")?;
    }
    Ok(out)
}
