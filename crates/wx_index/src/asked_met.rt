// What is asked where a root may have met an identity.
ghost use Rattle.std.specs.Prelude.{◌&&◌};
ghost use Rattle.wx_recursor.specs.Identities.{identity_of, is_identity, same_identity};
ghost use Rattle.wx_recursor_lists.specs.Met.{has_seen};
ghost use Rattle.wx_index.specs.Keys.{identity_key};

use crate::known_list::KnownList;
use crate::owner_list::OwnerList;
use crate::question::Question;
use wx_recursor::{Identity, Known};
use wx_tree::Root;

/// Whether it has this identity, its root has seen it in this epoch, and its path stands for the identity among all that is known.
#[derive(Drop)]
pub(crate) struct IsMet<'a> {
    pub(crate) root: &'a Root,
    pub(crate) identity: &'a Identity,
    pub(crate) known: &'a KnownList,
    pub(crate) owners: &'a OwnerList,
}

impl<'a> Question<Known> for IsMet<'a> {
    ghost key = { identity_key };

    ghost asks = { λ q k. (same_identity k.identity q.identity.now && has_seen q.root.now k.path q.owners.now) && is_identity q.identity.now (identity_of k.path q.known.now) };

    fn is_met(&self, entry: &Known) -> bool {
        entry.identity.is_same(self.identity)
            && self.owners.has_seen(self.root, &entry.path)
            && self.known.is_identity_of(&entry.path, self.identity)
    }
}
