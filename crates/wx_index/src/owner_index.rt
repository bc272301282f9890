// Owners by path, and the paths above them.
ghost use Rattle.std.specs.Prelude.{◌≡◌, ◌≤◌, ◌∷◌, ◌++◌, [], Bool, true, false, List, drop, length, IfOk, OnOk};
ghost use Rattle.std.specs.BTreeSet.{BTreeSet};
ghost use Rattle.wx_tree.specs.Places.{spelled};
ghost use Rattle.wx_recursor.specs.Owners.{has_owner, is_owner};
ghost use Rattle.wx_recursor.specs.declared.owner.Owner.{Owner};
ghost use Rattle.wx_recursor_lists.specs.Met.{has_seen};
ghost use Rattle.wx_index.specs.Chained.{Key, first_at};
ghost use Rattle.wx_index.specs.Owned.{AreOwned, AreOwnersIndexed, HasAbove, has_key, is_any_below};

use crate::asked_owners::{IsOwned, IsOwner, IsSeen};
use crate::chains::Chains;
use crate::question::first_met;
use std::alloc::Global;
use std::collections::BTreeSet;
use wx_recursor::Owner;
use wx_text::{Copies, Memory, Text};
use wx_tree::{Place, Root};

/// Where owners stand in their list, by path, and their paths and all paths above them.
pub(crate) struct OwnerIndex {
    paths: Chains,
    above: BTreeSet<Text>,
}

// Its parts are dropped by one call: docs/DESIGN.md, "What proofs cost".
impl Drop for OwnerIndex {
    fn drop(self) {
        let OwnerIndex { paths: _, above: _ } = self;
    }
}

/// Adds the path so many levels up. It fails only for want of memory.
fn add_level(
    alloc: Global,
    path: &Place,
    level: usize,
    above: &mut BTreeSet<Text>,
) -> Result<(), Memory>
    requires { level ≤ length path.now }
    ensures added { OnOk result (has_key (spelled (drop level path.now)) above.new ≡ true) }
    ensures kept { OnOk result ((k : Key) → has_key k above.old ≡ true → has_key k above.new ≡ true) }
{
    let up = path.up(alloc, level)?;
    let bytes = up.path(alloc)?;
    above.insert(bytes.text().copy(alloc)?)?;
    Ok(())
}

/// Adds the path and each path above it. It fails only for want of memory.
fn add_above(alloc: Global, path: &Place, above: &mut BTreeSet<Text>) -> Result<(), Memory>
    ensures added { OnOk result (HasAbove path.now above.new) }
    ensures kept { OnOk result ((k : Key) → has_key k above.old ≡ true → has_key k above.new ≡ true) }
{
    let depth = path.depth();
    for level in 0..depth {
        add_level(alloc, path, level, above)?;
    }
    add_level(alloc, path, depth, above)
}

impl OwnerIndex {
    /// Of nothing. It takes no memory.
    pub(crate) fn new(alloc: Global) -> OwnerIndex
        ensures { AreOwned [] result }
    {
        OwnerIndex {
            paths: Chains::new(alloc),
            above: BTreeSet::new(alloc),
        }
    }

    /// One more at the end. It fails only for want of memory.
    fn with(self, alloc: Global, owner: &Owner) -> Result<OwnerIndex, Memory>
        ensures { IfOk result (λ index. (os : List Owner) → AreOwned os self → AreOwned (os ++ owner.now ∷ []) index) }
    {
        let OwnerIndex {
            mut paths,
            mut above,
        } = self;
        let path = owner.path.path(alloc)?;
        paths.push(path.text().copy(alloc)?)?;
        add_above(alloc, &owner.path, &mut above)?;
        Ok(OwnerIndex { paths, above })
    }

    /// The place of the first that is what the root owns at the path. It fails only for want of memory.
    pub(crate) fn place(
        &self,
        alloc: Global,
        root: &Root,
        path: &Place,
        owners: &[Owner],
    ) -> Result<usize, Memory>
        requires { AreOwned owners.now self.now }
        ensures { IfOk result (λ at. at ≡ first_at (is_owner root.now path.now) owners.now) }
    {
        let bytes = path.path(alloc)?;
        Ok(first_met(&self.paths, bytes.text(), owners, &IsOwner { root, path }))
    }

    /// Whether some root owns the path. It fails only for want of memory.
    pub(crate) fn has_owner(
        &self,
        alloc: Global,
        path: &Place,
        owners: &[Owner],
    ) -> Result<bool, Memory>
        requires { AreOwned owners.now self.now }
        ensures { IfOk result (λ is. is ≡ has_owner path.now owners.now) }
    {
        let bytes = path.path(alloc)?;
        let at = first_met(&self.paths, bytes.text(), owners, &IsOwned { path });
        Ok(at < owners.len())
    }

    /// Whether the root has seen this path in this epoch. It fails only for want of memory.
    pub(crate) fn has_seen(
        &self,
        alloc: Global,
        root: &Root,
        path: &Place,
        owners: &[Owner],
    ) -> Result<bool, Memory>
        requires { AreOwned owners.now self.now }
        ensures { IfOk result (λ is. is ≡ has_seen root.now path.now owners.now) }
    {
        let bytes = path.path(alloc)?;
        let at = first_met(&self.paths, bytes.text(), owners, &IsSeen { root, path });
        Ok(at < owners.len())
    }

    /// Whether the path is that of an owner or above one, or was it once. It fails only for want of memory.
    pub(crate) fn may_hold(&self, alloc: Global, path: &Place) -> Result<bool, Memory>
        ensures { IfOk result (λ may. may ≡ false → (os : List Owner) → AreOwned os self.now → is_any_below path.now os ≡ false) }
    {
        let bytes = path.path(alloc)?;
        Ok(self.above.contains(bytes.text()))
    }
}

/// One more at the end, as long as there is an index and memory for it.
pub(crate) fn grown(alloc: Global, index: Option<OwnerIndex>, owner: &Owner) -> Option<OwnerIndex>
    ensures { (os : List Owner) → AreOwnersIndexed os index → AreOwnersIndexed (os ++ owner.now ∷ []) result }
{
    match index {
        Some(index) => match index.with(alloc, owner) {
            Ok(index) => Some(index),
            Err(Memory) => None,
        },
        None => None,
    }
}

/// The index of these, where there is memory for it.
pub(crate) fn index_of(alloc: Global, owners: &[Owner]) -> Option<OwnerIndex>
    ensures { AreOwnersIndexed owners.now result }
{
    let mut index = Some(OwnerIndex::new(alloc));
    for one in owners {
        index = grown(alloc, index, one);
    }
    index
}
