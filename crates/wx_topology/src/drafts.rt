// What a call makes of what is held, before anything is changed.
ghost use Rattle.std.specs.Prelude.{◌≡◌, ◌≤◌, ◌+◌, ◌++◌, ◌||◌, OnErr, OnOk, filter, not, vec_capacity, vec_len};
ghost use Rattle.wx_holding.specs.Holding.{state_of};
ghost use Rattle.wx_recursor.specs.Calls.{cleared_below, tombstones_lifted};
ghost use Rattle.wx_recursor.specs.Rebuilds.{is_under_any};
ghost use Rattle.wx_recursor.specs.States.{RecursorState};
ghost use Rattle.wx_topology.specs.Drafts.{buried, drafted, is_lifted, spared, unlifted};
ghost use Rattle.wx_tree.specs.Paths.{holds};

use std::alloc::Global;
use std::collections::VecDeque;
use wx_holding::Held;
use wx_index::OwnerList;
use wx_recursor::Work;
use wx_text::{Copies, Memory};
use wx_tree::Place;

/// What a call makes of what is held.
pub struct Draft {
    /// Nothing is owned at or below these any more.
    pub cleared: Vec<Place>,
    /// What lies at, above or below these is no tombstone any more.
    pub lifted: Vec<Place>,
    /// These become tombstones.
    pub tombstones: Vec<Place>,
    /// This is put at the end of the queue.
    pub queued: VecDeque<Work>,
    pub sweep_due: bool,
}

// Its parts are dropped by one call: docs/DESIGN.md, "What proofs cost".
impl Drop for Draft {
    fn drop(self) {
        let Draft {
            cleared: _,
            lifted: _,
            tombstones: _,
            queued: _,
            sweep_due: _,
        } = self;
    }
}

/// Whether the path lies at or below one of these.
pub fn is_under_any(path: &Place, paths: &[Place]) -> bool
    ensures { result ≡ is_under_any path.now paths.now }
{
    let mut rest = paths;
    while let [first, after @ ..] = rest {
        if first.holds(path) {
            return true;
        }
        rest = after;
    }
    false
}

/// Whether one of the paths holds the other.
fn is_in_line(path: &Place, other: &Place) -> bool
    ensures { result ≡ (holds path.now other.now || holds other.now path.now) }
{
    path.holds(other) || other.holds(path)
}

/// Whether the path lies at, above or below one of these.
fn is_lifted(path: &Place, lifted: &[Place]) -> bool
    ensures { result ≡ is_lifted path.now lifted.now }
{
    let mut rest = lifted;
    while let [first, after @ ..] = rest {
        if is_in_line(first, path) {
            return true;
        }
        rest = after;
    }
    false
}

/// What is owned at or below none of these stays.
fn spare(cleared: &[Place], owners: &mut OwnerList)
    ensures { owners.new ≡ spared cleared.now owners.old }
{
    let mut rest = cleared;
    while let [first, after @ ..] = rest {
        owners.disown_all(first);
        rest = after;
    }
}

/// Tombstones at, above or below these go.
fn lift_each(lifted: &[Place], tombstones: &mut Vec<Place>)
    ensures items { tombstones.new.items ≡ unlifted lifted.now tombstones.old.items }
    ensures len { vec_len tombstones.new ≤ vec_len tombstones.old }
    ensures capacity { vec_capacity tombstones.new ≡ vec_capacity tombstones.old }
{
    tombstones.retain(|q| !is_lifted(q, lifted));
}

/// Tombstones at, above or below the path go.
fn lift_one(path: &Place, tombstones: &mut Vec<Place>)
    ensures { tombstones.new.items ≡ filter (λ q. not (holds path.now q || holds q path.now)) tombstones.old.items }
{
    tombstones.retain(|q| !is_in_line(path, q));
}

/// Puts more tombstones behind the others, where there is room.
fn put_reserved(more: &mut Vec<Place>, tombstones: &mut Vec<Place>)
    requires { vec_len tombstones.old + vec_len more.old ≤ vec_capacity tombstones.old }
    ensures { tombstones.new.items ≡ tombstones.old.items ++ more.old.items }
{
    match tombstones.append(more) {
        Ok(()) => {}
        Err(_) => {}
    }
}

impl Draft {
    /// A draft that changes nothing. It takes no memory.
    pub fn new(alloc: Global, held: &Held) -> Draft
        ensures { drafted (state_of held.now) result ≡ state_of held.now }
    {
        Draft {
            cleared: Vec::new(alloc),
            lifted: Vec::new(alloc),
            tombstones: Vec::new(alloc),
            queued: VecDeque::new(alloc),
            sweep_due: held.sweep_due,
        }
    }

    /// What is owned at or below the path goes, and a sweep is owed.
    pub fn clear(&mut self, alloc: Global, path: &Place) -> Result<(), Memory>
        ensures { (s : RecursorState) → OnOk result (drafted s self.new ≡ cleared_below path.now (drafted s self.old)) }
    {
        self.cleared.push(path.copy(alloc)?)?;
        self.sweep_due = true;
        Ok(())
    }

    /// What lies at, above or below the path is no tombstone any more.
    pub fn lift(&mut self, alloc: Global, path: &Place) -> Result<(), Memory>
        ensures { (s : RecursorState) → OnOk result (drafted s self.new ≡ tombstones_lifted path.now (drafted s self.old)) }
    {
        self.lifted.push(path.copy(alloc)?)?;
        lift_one(path, &mut self.tombstones);
        Ok(())
    }

    /// The path becomes a tombstone.
    pub fn bury(&mut self, alloc: Global, path: &Place) -> Result<(), Memory>
        ensures { (s : RecursorState) → OnOk result (drafted s self.new ≡ buried path.now (drafted s self.old)) }
    {
        self.tombstones.push(path.copy(alloc)?)?;
        Ok(())
    }
}

/// The draft is kept. It fails only for want of memory, and changes nothing then.
pub fn keep(draft: Draft, held: &mut Held) -> Result<(), Memory>
    ensures state { OnOk result (state_of held.new ≡ drafted (state_of held.old) draft) }
    ensures unchanged { OnErr result (state_of held.new ≡ state_of held.old) }
{
    let mut draft = draft;
    held.tombstones.reserve(draft.tombstones.len())?;
    held.queue.append(&mut draft.queued)?;
    spare(draft.cleared.as_slice(), &mut held.owners);
    lift_each(draft.lifted.as_slice(), &mut held.tombstones);
    put_reserved(&mut draft.tombstones, &mut held.tombstones);
    held.sweep_due = draft.sweep_due;
    Ok(())
}
