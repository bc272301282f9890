// What a change queues.
ghost use Rattle.std.specs.Prelude.{◌≡◌, ◌&&◌, ◌++◌, ◌∷◌, [], IfOk, OnOk, filter, not};
ghost use Rattle.wx_holding.specs.Holding.{state_of};
ghost use Rattle.wx_recursor.specs.Calls.{guards_below, guards_of_roots_below, owners_at, roots_below};
ghost use Rattle.wx_recursor.specs.Rebuilds.{is_under_any};
ghost use Rattle.wx_recursor.specs.Steps.{candidates_of, owns_parent};
ghost use Rattle.wx_recursor.specs.declared.work.Work.TheVariants.{Probe};
ghost use Rattle.wx_topology.specs.Drafts.{spared};
ghost use Rattle.wx_tree.specs.Paths.{has_entry, same};
ghost use Rattle.wx_tree.specs.Roots.{same_root};

use crate::drafts::is_under_any;
use std::alloc::Global;
use std::collections::VecDeque;
use wx_holding::Held;
use wx_recursor::{GuardWatch, Item, Owner, Work};
use wx_text::{Copies, List, Memory};
use wx_tree::{Place, Root};

/// Queues the guards of guarded roots at or below the path. It fails only for want of memory.
fn queue_guards_below(
    alloc: Global,
    path: &Place,
    guards: &[GuardWatch],
    queue: &mut VecDeque<Work>,
) -> Result<(), Memory>
    ensures { OnOk result (queue.new.items ≡ queue.old.items ++ guards_below path.now guards.now) }
{
    let mut rest = guards;
    while let [guard, after @ ..] = rest {
        if path.holds(&guard.root.path) {
            queue.push_back(Work::Plain(Item::Guard(guard.root.copy(alloc)?)))?;
        }
        rest = after;
    }
    Ok(())
}

/// Queues the guards of the roots at or below the path. It fails only for want of memory.
pub fn queue_guards_of_roots_below(
    alloc: Global,
    path: &Place,
    roots: &[Root],
    queue: &mut VecDeque<Work>,
) -> Result<(), Memory>
    ensures { OnOk result (queue.new.items ≡ queue.old.items ++ guards_of_roots_below path.now roots.now) }
{
    let mut rest = roots;
    while let [root, after @ ..] = rest {
        if path.holds(&root.path) {
            queue.push_back(Work::Plain(Item::Guard(root.copy(alloc)?)))?;
        }
        rest = after;
    }
    Ok(())
}

/// Queues the roots at or below the path. It fails only for want of memory.
fn queue_roots_below(
    alloc: Global,
    path: &Place,
    roots: &[Root],
    queue: &mut VecDeque<Work>,
) -> Result<(), Memory>
    ensures { OnOk result (queue.new.items ≡ queue.old.items ++ roots_below path.now roots.now) }
{
    let mut rest = roots;
    while let [root, after @ ..] = rest {
        if path.holds(&root.path) {
            queue.push_back(Work::Plain(Item::Visit(root.copy(alloc)?)))?;
        }
        rest = after;
    }
    Ok(())
}

/// Queues the guards and the roots at or below the path. It fails only for want of memory.
pub fn queue_stirred(
    alloc: Global,
    path: &Place,
    held: &Held,
    queue: &mut VecDeque<Work>,
) -> Result<(), Memory>
    ensures { OnOk result (queue.new.items ≡ queue.old.items ++ (guards_below path.now (state_of held.now).guards ++ roots_below path.now (state_of held.now).roots)) }
{
    queue_guards_below(alloc, path, held.guards.as_slice(), queue)?;
    queue_roots_below(alloc, path, held.roots.as_slice(), queue)
}

/// Whether this is owned at or below none of the paths that are cleared, by the root, and is the parent of the path.
fn is_owner_above(root: &Root, path: &Place, owner: &Owner, cleared: &[Place]) -> bool
    ensures { result ≡ (not (is_under_any owner.now.path cleared.now) && (same_root root.now owner.now.root && has_entry owner.now.path path.now)) }
{
    !is_under_any(&owner.path, cleared) && root.is_same(&owner.root) && owner.path.has_entry(path)
}

/// Whether the root owns the parent of the path, where nothing is owned at or below what is cleared.
fn owns_parent(root: &Root, path: &Place, owners: &[Owner], cleared: &[Place]) -> bool
    ensures { result ≡ owns_parent root.now path.now (spared cleared.now owners.now) }
{
    let mut rest = owners;
    while let [first, after @ ..] = rest {
        if is_owner_above(root, path, first, cleared) {
            return true;
        }
        rest = after;
    }
    false
}

/// Whether the root is recursive, and owns the parent of the path.
fn is_asked(root: &Root, path: &Place, owners: &[Owner], cleared: &[Place]) -> bool
    ensures { result ≡ (root.now.recursive && owns_parent root.now path.now (spared cleared.now owners.now)) }
{
    root.recursive && owns_parent(root, path, owners, cleared)
}

/// Makes the path a candidate of each recursive root that owns its parent. It fails only for want of memory.
fn queue_asked(
    alloc: Global,
    path: &Place,
    roots: &[Root],
    owners: &[Owner],
    cleared: &[Place],
    queue: &mut VecDeque<Work>,
) -> Result<(), Memory>
    ensures { OnOk result (queue.new.items ≡ queue.old.items ++ candidates_of path.now (filter (λ r. r.recursive && owns_parent r path.now (spared cleared.now owners.now)) roots.now)) }
{
    let mut rest = roots;
    while let [root, after @ ..] = rest {
        if is_asked(root, path, owners, cleared) {
            queue.push_back(Work::Plain(Item::Candidate(root.copy(alloc)?, path.copy(alloc)?)))?;
        }
        rest = after;
    }
    Ok(())
}

/// Makes the path a candidate of each recursive root that owns its parent, where nothing is owned at or below what is cleared. It
/// fails only for want of memory.
pub fn queue_candidates(
    alloc: Global,
    path: &Place,
    held: &Held,
    cleared: &[Place],
    queue: &mut VecDeque<Work>,
) -> Result<(), Memory>
    ensures { OnOk result (queue.new.items ≡ queue.old.items ++ candidates_of path.now (filter (λ r. r.recursive && owns_parent r path.now (spared cleared.now (state_of held.now).owners)) (state_of held.now).roots)) }
{
    queue_asked(
        alloc,
        path,
        held.roots.as_slice(),
        held.owners.as_slice(),
        cleared,
        queue,
    )
}

/// Whether this is owned at the path, and at or below none of the paths that are cleared.
fn is_owner_at(path: &Place, owner: &Owner, cleared: &[Place]) -> bool
    ensures { result ≡ (not (is_under_any owner.now.path cleared.now) && same owner.now.path path.now) }
{
    !is_under_any(&owner.path, cleared) && owner.path.is_same(path)
}

/// The roots that own the path, where nothing is owned at or below what is cleared.
fn owners_at(
    alloc: Global,
    path: &Place,
    owners: &[Owner],
    cleared: &[Place],
) -> Result<Vec<Root>, Memory>
    ensures { IfOk result (λ found. found.items ≡ owners_at path.now (spared cleared.now owners.now)) }
{
    let mut found = Vec::new(alloc);
    let mut rest = owners;
    while let [first, after @ ..] = rest {
        if is_owner_at(path, first, cleared) {
            found.push(first.root.copy(alloc)?)?;
        }
        rest = after;
    }
    Ok(found)
}

/// Queues a look at the path, with the roots that own it, where nothing is owned at or below what is cleared. It fails only for
/// want of memory.
pub fn queue_probe(
    alloc: Global,
    path: &Place,
    held: &Held,
    cleared: &[Place],
    queue: &mut VecDeque<Work>,
) -> Result<(), Memory>
    ensures { OnOk result (queue.new.items ≡ queue.old.items ++ Probe path.now (owners_at path.now (spared cleared.now (state_of held.now).owners)) ∷ []) }
{
    let found = owners_at(alloc, path, held.owners.as_slice(), cleared)?;
    queue.push_back(Work::Probe(path.copy(alloc)?, List::from_vec(found)))?;
    Ok(())
}
