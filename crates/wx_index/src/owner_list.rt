// Owners, as a list, whose entries are found by path.
ghost use Rattle.std.specs.Prelude.{◌≡◌, ◌&&◌, [], ◌∷◌, ◌++◌, false, length, OnOk, filter, map, not, ◌==◌};
ghost use Rattle.wx_tree.specs.Paths.{holds, holds_below};
ghost use Rattle.wx_tree.specs.Roots.{same_root};
ghost use Rattle.wx_recursor.specs.Owners.{disown, has_owner, has_path, is_owner, own, sweep, unseen};
ghost use Rattle.wx_recursor_lists.specs.Met.{has_seen};
ghost use Rattle.wx_index.specs.Chained.{first_at};
ghost use Rattle.wx_index.specs.Owned.{is_any_below};

use crate::known_list::KnownList;
use crate::owner_index::{OwnerIndex, grown, index_of};
use std::alloc::Global;
use std::marker::Model;
use wx_recursor::Owner;
use wx_recursor_lists::{disown, disown_below, has_owner, has_seen, set_unseen, sweep};
use wx_text::{Copies, Memory};
use wx_tree::{Place, Root};

/// Owners, in order. Contracts see the list. An index finds its entries, as long as there is memory for that.
#[derive(Drop)]
pub struct OwnerList {
    items: Vec<Owner>,
    index: Option<OwnerIndex>,
}

impl Model for OwnerList {
    ghost use Rattle.std.specs.Prelude.{List};
    ghost use Rattle.wx_recursor.specs.declared.owner.Owner.{Owner};
    ghost use Rattle.wx_index.specs.Owned.{AreOwnersIndexed};

    ghost Value = { List Owner };

    ghost view = { λ l. l.items.items };

    ghost invariant = { λ l. AreOwnersIndexed l.items.items l.index };
}

/// The place of the first that is what the root owns at the path, and how many there are where none is.
fn place(root: &Root, path: &Place, owners: &[Owner]) -> usize
    ensures { result ≡ first_at (is_owner root.now path.now) owners.now }
{
    let n = owners.len();
    for i in 0..n {
        if root.is_same(&owners[i].root) && path.is_same(&owners[i].path) {
            return i;
        }
    }
    n
}

/// What is owned at or below the path goes.
fn disown_all(path: &Place, owners: &mut Vec<Owner>)
    ensures { owners.new.items ≡ filter (λ o. not (holds path.now o.path)) owners.old.items }
{
    owners.retain(|o| !path.holds(&o.path));
}

impl OwnerList {
    /// The empty list. It takes no memory.
    pub fn new(alloc: Global) -> OwnerList
        ensures { result ≡ [] }
    {
        OwnerList {
            items: Vec::new(alloc),
            index: Some(OwnerIndex::new(alloc)),
        }
    }

    /// The owners, in order.
    pub fn as_slice(&self) -> &[Owner]
        ensures { result.now ≡ self.now }
    {
        self.items.as_slice()
    }

    /// How many there are.
    pub fn len(&self) -> usize
        ensures { result ≡ length self.now }
    {
        self.items.len()
    }

    /// Whether there is none.
    pub fn is_empty(&self) -> bool
        ensures { result ≡ (length self.now == 0) }
    {
        self.items.is_empty()
    }

    fn alloc(&self) -> Global {
        *self.items.allocator()
    }

    /// One more at the end. It fails only for want of memory.
    pub fn push(&mut self, owner: Owner) -> Result<(), Memory>
        ensures { OnOk result (self.new ≡ self.old ++ owner ∷ []) }
    {
        let alloc = self.alloc();
        let index = grown(alloc, self.index.take(), &owner);
        self.items.push(owner)?;
        self.index = index;
        Ok(())
    }

    /// Whether some root owns the path.
    pub fn has_owner(&self, path: &Place) -> bool
        ensures { result ≡ has_owner path.now self.now }
    {
        let owners = self.items.as_slice();
        if let Some(index) = &self.index {
            if let Ok(has) = index.has_owner(self.alloc(), path, owners) {
                return has;
            }
        }
        has_owner(path, owners)
    }

    /// Whether the root has seen this path in this epoch.
    pub fn has_seen(&self, root: &Root, path: &Place) -> bool
        ensures { result ≡ has_seen root.now path.now self.now }
    {
        let owners = self.items.as_slice();
        if let Some(index) = &self.index {
            if let Ok(has) = index.has_seen(self.alloc(), root, path, owners) {
                return has;
            }
        }
        has_seen(root, path, owners)
    }

    /// The place of the first that is what the root owns at the path, and how many there are where none is.
    fn place(&self, root: &Root, path: &Place) -> usize
        ensures { result ≡ first_at (is_owner root.now path.now) self.now }
    {
        let owners = self.items.as_slice();
        if let Some(index) = &self.index {
            if let Ok(at) = index.place(self.alloc(), root, path, owners) {
                return at;
            }
        }
        place(root, path, owners)
    }

    /// Whether something may be owned at the path or below it.
    fn may_hold(&self, path: &Place) -> bool
        ensures { result ≡ false → is_any_below path.now self.now ≡ false }
    {
        if let Some(index) = &self.index {
            if let Ok(may) = index.may_hold(self.alloc(), path) {
                return may;
            }
        }
        true
    }

    /// The root owns the path, and has seen it. It fails only for want of memory.
    pub fn own(&mut self, alloc: Global, root: &Root, path: &Place) -> Result<(), Memory>
        ensures { OnOk result (self.new ≡ own root.now path.now self.old) }
    {
        let at = self.place(root, path);
        if at < self.items.len() {
            let index = self.index.take();
            self.items[at].seen = true;
            self.index = index;
            return Ok(());
        }
        self.push(Owner {
            root: root.copy(alloc)?,
            path: path.copy(alloc)?,
            seen: true,
        })
    }

    /// The root owns nothing at the path and below it.
    pub fn disown(&mut self, root: &Root, path: &Place)
        ensures { self.new ≡ disown root.now path.now self.old }
    {
        if self.may_hold(path) {
            self.index = None;
            disown(root, path, &mut self.items);
            self.index = index_of(self.alloc(), self.items.as_slice());
        }
    }

    /// The root owns nothing below the path.
    pub fn disown_below(&mut self, root: &Root, path: &Place)
        ensures { self.new ≡ filter (λ o. not (same_root root.now o.root && holds_below path.now o.path)) self.old }
    {
        if self.may_hold(path) {
            self.index = None;
            disown_below(root, path, &mut self.items);
            self.index = index_of(self.alloc(), self.items.as_slice());
        }
    }

    /// No root owns anything at the path and below it.
    pub fn disown_all(&mut self, path: &Place)
        ensures { self.new ≡ filter (λ o. not (holds path.now o.path)) self.old }
    {
        if self.may_hold(path) {
            self.index = None;
            disown_all(path, &mut self.items);
            self.index = index_of(self.alloc(), self.items.as_slice());
        }
    }

    /// The owners that were seen in this epoch stay.
    pub fn sweep(&mut self)
        ensures { self.new ≡ sweep self.old }
    {
        self.index = None;
        sweep(&mut self.items);
        self.index = index_of(self.alloc(), self.items.as_slice());
    }

    /// A new epoch: no owner was seen in it.
    pub fn set_unseen(&mut self)
        ensures { self.new ≡ unseen self.old }
    {
        let index = self.index.take();
        set_unseen(&mut self.items);
        self.index = index;
    }

    /// The owners of paths that are known stay.
    pub fn keep_known(&mut self, known: &KnownList)
        ensures { self.new ≡ filter (λ o. has_path o.path (map (λ k. k.path) known.now)) self.old }
    {
        self.index = None;
        self.items.retain(|o| known.has_path(&o.path));
        self.index = index_of(self.alloc(), self.items.as_slice());
    }
}
