// What is known, as a list, whose entries are found by path and by identity.
ghost use Rattle.std.specs.Prelude.{◌≡◌, [], ◌∷◌, ◌++◌, filter, length, OnOk, map, ◌==◌};
ghost use Rattle.wx_recursor.specs.Holding.{has_met, still_known};
ghost use Rattle.wx_recursor.specs.Identities.{has_identity, has_known, identity_of, is_identity, is_other, know, without};
ghost use Rattle.wx_recursor.specs.Owners.{has_path};
ghost use Rattle.wx_recursor.specs.Steps.{serving_registrations};

use crate::asked_met::IsMet;
use crate::known_index::{KnownIndex, grown, index_of};
use crate::owner_list::OwnerList;
use crate::serving::{is_backed, serves};
use std::alloc::Global;
use std::marker::Model;
use wx_recursor::{GuardWatch, Identity, Known};
use wx_recursor_lists::{has_identity, has_known, has_met, is_identity_of, is_other, without};
use wx_text::{Copies, Memory};
use wx_tree::{Place, Root};

/// What is known, in order. Contracts see the list. An index finds its entries, as long as there is memory for that.
#[derive(Drop)]
pub struct KnownList {
    items: Vec<Known>,
    index: Option<KnownIndex>,
}

impl Model for KnownList {
    ghost use Rattle.std.specs.Prelude.{List};
    ghost use Rattle.wx_recursor.specs.declared.known.Known.{Known};
    ghost use Rattle.wx_index.specs.Keys.{AreIndexed};

    ghost Value = { List Known };

    ghost view = { λ l. l.items.items };

    ghost invariant = { λ l. AreIndexed l.items.items l.index };
}

/// Whether the path is one of these.
fn is_known(path: &Place, known: &[Known]) -> bool
    ensures { result ≡ has_path path.now (map (λ k. k.path) known.now) }
{
    let mut rest = known;
    while let [first, after @ ..] = rest {
        if first.path.is_same(path) {
            return true;
        }
        rest = after;
    }
    false
}

impl KnownList {
    /// The empty list. It takes no memory.
    pub fn new(alloc: Global) -> KnownList
        ensures { result ≡ [] }
    {
        KnownList {
            items: Vec::new(alloc),
            index: Some(KnownIndex::new(alloc)),
        }
    }

    /// These as a list.
    pub fn from_vec(alloc: Global, items: Vec<Known>) -> KnownList
        ensures { result ≡ items.items }
    {
        let index = index_of(alloc, items.as_slice());
        KnownList { items, index }
    }

    /// What is known, in order.
    pub fn as_slice(&self) -> &[Known]
        ensures { result.now ≡ self.now }
    {
        self.items.as_slice()
    }

    /// How many there are.
    pub fn len(&self) -> usize
        ensures { result ≡ length self.now }
    {
        self.items.len()
    }

    /// Whether there is none.
    pub fn is_empty(&self) -> bool
        ensures { result ≡ (length self.now == 0) }
    {
        self.items.is_empty()
    }

    fn alloc(&self) -> Global {
        *self.items.allocator()
    }

    /// One more at the end. It fails only for want of memory.
    pub fn push(&mut self, known: Known) -> Result<(), Memory>
        ensures { OnOk result (self.new ≡ self.old ++ known ∷ []) }
    {
        let alloc = self.alloc();
        let index = grown(alloc, self.index.take(), &known);
        self.items.push(known)?;
        self.index = index;
        Ok(())
    }

    /// Whether the path is known under another identity.
    pub fn is_other(&self, path: &Place, identity: &Identity) -> bool
        ensures { result ≡ is_other path.now identity.now self.now }
    {
        let known = self.items.as_slice();
        if let Some(index) = &self.index {
            if let Ok(is) = index.is_other(self.alloc(), path, identity, known) {
                return is;
            }
        }
        is_other(path, identity, known)
    }

    /// Whether the path is known under this identity.
    pub fn has_known(&self, path: &Place, identity: &Identity) -> bool
        ensures { result ≡ has_known path.now identity.now self.now }
    {
        let known = self.items.as_slice();
        if let Some(index) = &self.index {
            if let Ok(has) = index.has_known(self.alloc(), path, identity, known) {
                return has;
            }
        }
        has_known(path, identity, known)
    }

    /// Whether some path is known under this identity.
    pub fn has_identity(&self, identity: &Identity) -> bool
        ensures { result ≡ has_identity identity.now self.now }
    {
        let known = self.items.as_slice();
        if let Some(index) = &self.index {
            if let Ok(has) = index.has_identity(self.alloc(), identity, known) {
                return has;
            }
        }
        has_identity(identity, known)
    }

    /// Whether the path is known.
    pub fn has_path(&self, path: &Place) -> bool
        ensures { result ≡ has_path path.now (map (λ k. k.path) self.now) }
    {
        let known = self.items.as_slice();
        if let Some(index) = &self.index {
            if let Ok(has) = index.has_path(self.alloc(), path, known) {
                return has;
            }
        }
        is_known(path, known)
    }

    /// Whether the path is known, first of all, under this identity.
    pub fn is_identity_of(&self, path: &Place, identity: &Identity) -> bool
        ensures { result ≡ is_identity identity.now (identity_of path.now self.now) }
    {
        if self.is_other(path, identity) {
            return is_identity_of(path, identity, self.items.as_slice());
        }
        self.has_known(path, identity)
    }

    /// Whether the root has seen this identity in this epoch, under whatever path.
    pub fn has_met(&self, root: &Root, identity: &Identity, owners: &OwnerList) -> bool
        ensures { result ≡ has_met root.now identity.now self.now owners.now }
    {
        let known = self.items.as_slice();
        if let Some(index) = &self.index {
            let question = IsMet {
                root,
                identity,
                known: self,
                owners,
            };
            if let Ok(has) = index.has_met(self.alloc(), &question, known) {
                return has;
            }
        }
        has_met(root, identity, known, owners.as_slice())
    }

    /// The path is known under this identity from now on. It fails only for want of memory.
    pub fn know(&mut self, alloc: Global, path: &Place, identity: &Identity) -> Result<(), Memory>
        ensures { OnOk result (self.new ≡ know path.now identity.now self.old) }
    {
        if self.has_known(path, identity) {
            return Ok(());
        }
        self.push(Known {
            path: path.copy(alloc)?,
            identity: identity.copy(alloc)?,
        })
    }

    /// All but those of this identity stay.
    pub fn without(&mut self, identity: &Identity)
        ensures { self.new ≡ without identity.now self.old }
    {
        if self.has_identity(identity) {
            self.index = None;
            without(identity, &mut self.items);
            self.index = index_of(self.alloc(), self.items.as_slice());
        }
    }

    /// What is known of paths that have an owner stays.
    pub fn keep_owned(&mut self, owners: &OwnerList)
        ensures { self.new ≡ still_known owners.now self.old }
    {
        self.index = None;
        self.items.retain(|k| owners.has_owner(&k.path));
        self.index = index_of(self.alloc(), self.items.as_slice());
    }

    /// What serves an owned path or a guard stays.
    pub fn keep_serving(&mut self, known: &KnownList, guards: &[GuardWatch])
        ensures { self.new ≡ serving_registrations known.now guards.now self.old }
    {
        self.index = None;
        self.items.retain(|k| serves(known, guards, &k.identity));
        self.index = index_of(self.alloc(), self.items.as_slice());
    }

    /// What is registered or waits stays.
    pub fn keep_backed(&mut self, registrations: &KnownList, waiting: &KnownList)
        ensures { self.new ≡ filter (λ k. has_identity k.identity (registrations.now ++ waiting.now)) self.old }
    {
        self.index = None;
        self.items
            .retain(|k| is_backed(&k.identity, registrations, waiting));
        self.index = index_of(self.alloc(), self.items.as_slice());
    }

    /// What is known, in order, as it is.
    pub fn into_vec(self) -> Vec<Known>
        ensures { result.items ≡ self }
    {
        let KnownList { items, index: _ } = self;
        items
    }
}
