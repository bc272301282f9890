// What is asked of owners.
ghost use Rattle.std.specs.Prelude.{◌&&◌};
ghost use Rattle.wx_tree.specs.Paths.{same};
ghost use Rattle.wx_tree.specs.Roots.{same_root};
ghost use Rattle.wx_recursor.specs.Owners.{is_owner};
ghost use Rattle.wx_index.specs.Owned.{owner_key};

use crate::question::Question;
use wx_recursor::Owner;
use wx_tree::{Place, Root};

/// Whether it is what the root owns at the path.
#[derive(Drop)]
pub(crate) struct IsOwner<'a> {
    pub(crate) root: &'a Root,
    pub(crate) path: &'a Place,
}

impl<'a> Question<Owner> for IsOwner<'a> {
    ghost key = { owner_key };

    ghost asks = { λ q o. is_owner q.root.now q.path.now o };

    fn is_met(&self, entry: &Owner) -> bool {
        self.root.is_same(&entry.root) && self.path.is_same(&entry.path)
    }
}

/// Whether it is what the root owns at the path, and has seen in this epoch.
#[derive(Drop)]
pub(crate) struct IsSeen<'a> {
    pub(crate) root: &'a Root,
    pub(crate) path: &'a Place,
}

impl<'a> Question<Owner> for IsSeen<'a> {
    ghost key = { owner_key };

    ghost asks = { λ q o. (same_root q.root.now o.root && o.seen) && same o.path q.path.now };

    fn is_met(&self, entry: &Owner) -> bool {
        self.root.is_same(&entry.root) && entry.seen && entry.path.is_same(self.path)
    }
}

/// Whether it is at the path.
#[derive(Drop)]
pub(crate) struct IsOwned<'a> {
    pub(crate) path: &'a Place,
}

impl<'a> Question<Owner> for IsOwned<'a> {
    ghost key = { owner_key };

    ghost asks = { λ q o. same o.path q.path.now };

    fn is_met(&self, entry: &Owner) -> bool {
        entry.path.is_same(self.path)
    }
}
