// What is queued, guarded, and kept for a retry.
ghost use Rattle.std.specs.Prelude.{◌≡◌, ◌++◌, IfOk, OnOk, filter, not};
ghost use Rattle.wx_tree.specs.Paths.{has_entry, holds, same};
ghost use Rattle.wx_recursor.specs.Calls.{kept_guard_watches, queued_guards, queued_retries, queued_roots, retried};
ghost use Rattle.wx_recursor.specs.Guarding.{guards_of_others};
ghost use Rattle.wx_recursor.specs.Holding.{guards_at, has_retry};
ghost use Rattle.wx_recursor.specs.Owners.{candidates};
ghost use Rattle.wx_recursor.specs.Steps.{has_guard_watch, plain_items};

use crate::owners::has_root;
use std::alloc::Global;
use std::collections::VecDeque;
use wx_recursor::{GuardWatch, Item, Retry, Work};
use wx_text::{Copies, Memory};
use wx_tree::{Place, Root};

/// Queues the guards of the roots at this path. It fails only for want of memory.
pub fn queue_guards_at(
    alloc: Global,
    path: &Place,
    roots: &[Root],
    queue: &mut VecDeque<Work>,
) -> Result<(), Memory>
    ensures { OnOk result (queue.new.items ≡ queue.old.items ++ guards_at path.now roots.now) }
{
    let mut rest = roots;
    while let [root, after @ ..] = rest {
        if root.path.is_same(path) {
            queue.push_back(Work::Plain(Item::Guard(root.copy(alloc)?)))?;
        }
        rest = after;
    }
    Ok(())
}

/// Makes each direct entry of the path a candidate, and passes over all else. It fails only for want of memory.
pub fn queue_entries(
    alloc: Global,
    root: &Root,
    path: &Place,
    entries: &[Place],
    queue: &mut VecDeque<Work>,
) -> Result<(), Memory>
    ensures { OnOk result (queue.new.items ≡ queue.old.items ++ plain_items (candidates root.now (filter (has_entry path.now) entries.now))) }
{
    let mut rest = entries;
    while let [first, after @ ..] = rest {
        if path.has_entry(first) {
            queue.push_back(Work::Plain(Item::Candidate(root.copy(alloc)?, first.copy(alloc)?)))?;
        }
        rest = after;
    }
    Ok(())
}

/// Queues the guards of these roots. It fails only for want of memory.
pub fn queue_guards(
    alloc: Global,
    roots: &[Root],
    guards: &[GuardWatch],
    queue: &mut VecDeque<Work>,
) -> Result<(), Memory>
    ensures { OnOk result (queue.new.items ≡ queue.old.items ++ queued_guards (kept_guard_watches roots.now guards.now)) }
{
    let mut rest = guards;
    while let [guard, after @ ..] = rest {
        if has_root(&guard.root, roots) {
            queue.push_back(Work::Plain(Item::Guard(guard.root.copy(alloc)?)))?;
        }
        rest = after;
    }
    Ok(())
}

/// Queues these roots. It fails only for want of memory.
pub fn queue_roots(alloc: Global, roots: &[Root], queue: &mut VecDeque<Work>) -> Result<(), Memory>
    ensures { OnOk result (queue.new.items ≡ queue.old.items ++ queued_roots roots.now) }
{
    let mut rest = roots;
    while let [root, after @ ..] = rest {
        queue.push_back(Work::Plain(Item::Visit(root.copy(alloc)?)))?;
        rest = after;
    }
    Ok(())
}

/// A retry as an item: the root is looked at again, or the path as a candidate. It fails only for want of memory.
fn retried(alloc: Global, retry: &Retry) -> Result<Work, Memory>
    ensures { IfOk result (λ w. w ≡ retried retry.now) }
{
    let root = retry.root.copy(alloc)?;
    if retry.root.path.is_same(&retry.path) {
        return Ok(Work::Plain(Item::Visit(root)));
    }
    let path = retry.path.copy(alloc)?;
    Ok(Work::Plain(Item::Candidate(root, path)))
}

/// Queues the retries of these roots. It fails only for want of memory.
pub fn queue_retries(
    alloc: Global,
    roots: &[Root],
    retries: &[Retry],
    queue: &mut VecDeque<Work>,
) -> Result<(), Memory>
    ensures { OnOk result (queue.new.items ≡ queue.old.items ++ queued_retries roots.now retries.now) }
{
    let mut rest = retries;
    while let [first, after @ ..] = rest {
        if has_root(&first.root, roots) {
            queue.push_back(retried(alloc, first)?)?;
        }
        rest = after;
    }
    Ok(())
}

/// Whether a retry of the path is kept for the root.
pub fn has_retry(root: &Root, path: &Place, retries: &[Retry]) -> bool
    ensures { result ≡ has_retry root.now path.now retries.now }
{
    let mut rest = retries;
    while let [first, after @ ..] = rest {
        if root.is_same(&first.root) && path.is_same(&first.path) {
            return true;
        }
        rest = after;
    }
    false
}

/// Whether something guards the root.
pub fn has_guard_watch(root: &Root, guards: &[GuardWatch]) -> bool
    ensures { result ≡ has_guard_watch root.now guards.now }
{
    let mut rest = guards;
    while let [first, after @ ..] = rest {
        if root.is_same(&first.root) {
            return true;
        }
        rest = after;
    }
    false
}

/// Nothing guards the root.
pub fn release_guard(root: &Root, guards: &mut Vec<GuardWatch>)
    ensures { guards.new.items ≡ guards_of_others root.now guards.old.items }
{
    guards.retain(|g| !root.is_same(&g.root));
}

/// The guards of these roots stay.
pub fn keep_guards(roots: &[Root], guards: &mut Vec<GuardWatch>)
    ensures { guards.new.items ≡ kept_guard_watches roots.now guards.old.items }
{
    guards.retain(|g| has_root(&g.root, roots));
}

/// The path is no tombstone any more.
pub fn lift_tombstone(path: &Place, tombstones: &mut Vec<Place>)
    ensures { tombstones.new.items ≡ filter (λ q. not (same path.now q)) tombstones.old.items }
{
    tombstones.retain(|q| !path.is_same(q));
}

/// What lies at the path and above it is no tombstone any more.
pub fn lift_above(path: &Place, tombstones: &mut Vec<Place>)
    ensures { tombstones.new.items ≡ filter (λ q. not (holds q path.now)) tombstones.old.items }
{
    tombstones.retain(|q| !q.holds(path));
}
