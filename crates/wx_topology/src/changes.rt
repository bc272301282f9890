// Changes of the tree.
ghost use Rattle.std.specs.Prelude.{◌≡◌, IfOk, OnErr, OnOk};
ghost use Rattle.wx_holding.specs.Holding.{state_of};
ghost use Rattle.wx_recursor.specs.Calls.{created, created_one, for_each, removed, removed_one, renamed, unsure, unsure_one};
ghost use Rattle.wx_topology.specs.Drafts.{drafted};

use crate::aliases::aliases;
use crate::drafts::{Draft, keep};
use crate::queuing::{queue_candidates, queue_guards_of_roots_below, queue_probe, queue_stirred};
use std::alloc::Global;
use wx_holding::Held;
use wx_text::Memory;
use wx_tree::Place;

/// Something was created at this very path.
fn create_one(alloc: Global, path: &Place, held: &Held, draft: &mut Draft) -> Result<(), Memory>
    ensures { OnOk result (drafted (state_of held.now) draft.new ≡ created_one path.now (drafted (state_of held.now) draft.old)) }
{
    queue_stirred(alloc, path, held, &mut draft.queued)?;
    queue_candidates(
        alloc,
        path,
        held,
        draft.cleared.as_slice(),
        &mut draft.queued,
    )?;
    draft.clear(alloc, path)?;
    draft.lift(alloc, path)
}

/// What was at this very path was removed.
fn remove_one(alloc: Global, path: &Place, held: &Held, draft: &mut Draft) -> Result<(), Memory>
    ensures { OnOk result (drafted (state_of held.now) draft.new ≡ removed_one path.now (drafted (state_of held.now) draft.old)) }
{
    queue_guards_of_roots_below(alloc, path, held.roots.as_slice(), &mut draft.queued)?;
    draft.bury(alloc, path)?;
    draft.clear(alloc, path)
}

/// What is at this very path changed in some way.
fn be_unsure_of_one(
    alloc: Global,
    path: &Place,
    held: &Held,
    draft: &mut Draft,
) -> Result<(), Memory>
    ensures { OnOk result (drafted (state_of held.now) draft.new ≡ unsure_one path.now (drafted (state_of held.now) draft.old)) }
{
    queue_stirred(alloc, path, held, &mut draft.queued)?;
    queue_probe(
        alloc,
        path,
        held,
        draft.cleared.as_slice(),
        &mut draft.queued,
    )?;
    draft.clear(alloc, path)?;
    draft.lift(alloc, path)
}

fn create_each(alloc: Global, paths: &[Place], held: &Held, draft: &mut Draft) -> Result<(), Memory>
    ensures { OnOk result (drafted (state_of held.now) draft.new ≡ for_each created_one paths.now (drafted (state_of held.now) draft.old)) }
{
    let mut rest = paths;
    while let [first, after @ ..] = rest {
        create_one(alloc, first, held, draft)?;
        rest = after;
    }
    Ok(())
}

fn remove_each(alloc: Global, paths: &[Place], held: &Held, draft: &mut Draft) -> Result<(), Memory>
    ensures { OnOk result (drafted (state_of held.now) draft.new ≡ for_each removed_one paths.now (drafted (state_of held.now) draft.old)) }
{
    let mut rest = paths;
    while let [first, after @ ..] = rest {
        remove_one(alloc, first, held, draft)?;
        rest = after;
    }
    Ok(())
}

fn be_unsure_of_each(
    alloc: Global,
    paths: &[Place],
    held: &Held,
    draft: &mut Draft,
) -> Result<(), Memory>
    ensures { OnOk result (drafted (state_of held.now) draft.new ≡ for_each unsure_one paths.now (drafted (state_of held.now) draft.old)) }
{
    let mut rest = paths;
    while let [first, after @ ..] = rest {
        be_unsure_of_one(alloc, first, held, draft)?;
        rest = after;
    }
    Ok(())
}

fn draft_create(alloc: Global, path: &Place, held: &Held) -> Result<Draft, Memory>
    ensures { IfOk result (λ draft. drafted (state_of held.now) draft ≡ created path.now (state_of held.now)) }
{
    let paths = aliases(alloc, path, held)?;
    let mut draft = Draft::new(alloc, held);
    create_each(alloc, paths.as_slice(), held, &mut draft)?;
    Ok(draft)
}

fn draft_remove(alloc: Global, path: &Place, held: &Held) -> Result<Draft, Memory>
    ensures { IfOk result (λ draft. drafted (state_of held.now) draft ≡ removed path.now (state_of held.now)) }
{
    let paths = aliases(alloc, path, held)?;
    let mut draft = Draft::new(alloc, held);
    remove_each(alloc, paths.as_slice(), held, &mut draft)?;
    Ok(draft)
}

fn draft_rename(alloc: Global, from: &Place, to: &Place, held: &Held) -> Result<Draft, Memory>
    ensures { IfOk result (λ draft. drafted (state_of held.now) draft ≡ renamed from.now to.now (state_of held.now)) }
{
    let left = aliases(alloc, from, held)?;
    let reached = aliases(alloc, to, held)?;
    let mut draft = Draft::new(alloc, held);
    remove_each(alloc, left.as_slice(), held, &mut draft)?;
    remove_each(alloc, reached.as_slice(), held, &mut draft)?;
    create_each(alloc, reached.as_slice(), held, &mut draft)?;
    Ok(draft)
}

fn draft_unsure(alloc: Global, path: &Place, held: &Held) -> Result<Draft, Memory>
    ensures { IfOk result (λ draft. drafted (state_of held.now) draft ≡ unsure path.now (state_of held.now)) }
{
    let paths = aliases(alloc, path, held)?;
    let mut draft = Draft::new(alloc, held);
    be_unsure_of_each(alloc, paths.as_slice(), held, &mut draft)?;
    Ok(draft)
}

/// Something was created at the path. At each path that stands for the same, what is owned at or below it goes, the guards and
/// roots there are queued, and it is a candidate of each recursive root that owns its parent. It fails only for want of memory,
/// and changes nothing then.
pub fn create(alloc: Global, path: &Place, held: &mut Held) -> Result<(), Memory>
    ensures state { OnOk result (state_of held.new ≡ created path.now (state_of held.old)) }
    ensures unchanged { OnErr result (state_of held.new ≡ state_of held.old) }
{
    let draft = draft_create(alloc, path, held)?;
    keep(draft, held)
}

/// What was at the path was removed. At each path that stands for the same, what is owned at or below it goes, the guards of the
/// roots there are queued, and it becomes a tombstone. It fails only for want of memory, and changes nothing then.
pub fn remove(alloc: Global, path: &Place, held: &mut Held) -> Result<(), Memory>
    ensures state { OnOk result (state_of held.new ≡ removed path.now (state_of held.old)) }
    ensures unchanged { OnErr result (state_of held.new ≡ state_of held.old) }
{
    let draft = draft_remove(alloc, path, held)?;
    keep(draft, held)
}

/// What was at the first path is at the second now: both were removed, and then the second was created. It fails only for want
/// of memory, and changes nothing then.
pub fn rename(alloc: Global, from: &Place, to: &Place, held: &mut Held) -> Result<(), Memory>
    ensures state { OnOk result (state_of held.new ≡ renamed from.now to.now (state_of held.old)) }
    ensures unchanged { OnErr result (state_of held.new ≡ state_of held.old) }
{
    let draft = draft_rename(alloc, from, to, held)?;
    keep(draft, held)
}

/// The path changed in some way. At each path that stands for the same, what is owned at or below it goes, the guards and roots
/// there are queued, and it is to be looked at. It fails only for want of memory, and changes nothing then.
pub fn be_unsure(alloc: Global, path: &Place, held: &mut Held) -> Result<(), Memory>
    ensures state { OnOk result (state_of held.new ≡ unsure path.now (state_of held.old)) }
    ensures unchanged { OnErr result (state_of held.new ≡ state_of held.old) }
{
    let draft = draft_unsure(alloc, path, held)?;
    keep(draft, held)
}
