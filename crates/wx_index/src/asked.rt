// What is asked of what is known.
ghost use Rattle.std.specs.Prelude.{◌&&◌, not};
ghost use Rattle.wx_tree.specs.Paths.{same};
ghost use Rattle.wx_recursor.specs.Identities.{same_identity};
ghost use Rattle.wx_index.specs.Keys.{identity_key, path_key};

use crate::question::Question;
use wx_recursor::{Identity, Known};
use wx_tree::Place;

/// Whether it is this path under another identity.
#[derive(Drop)]
pub(crate) struct IsOther<'a> {
    pub(crate) path: &'a Place,
    pub(crate) identity: &'a Identity,
}

impl<'a> Question<Known> for IsOther<'a> {
    ghost key = { path_key };

    ghost asks = { λ q k. same k.path q.path.now && not (same_identity k.identity q.identity.now) };

    fn is_met(&self, entry: &Known) -> bool {
        entry.path.is_same(self.path) && !entry.identity.is_same(self.identity)
    }
}

/// Whether it is this path under this identity.
#[derive(Drop)]
pub(crate) struct IsThis<'a> {
    pub(crate) path: &'a Place,
    pub(crate) identity: &'a Identity,
}

impl<'a> Question<Known> for IsThis<'a> {
    ghost key = { path_key };

    ghost asks = { λ q k. same k.path q.path.now && same_identity k.identity q.identity.now };

    fn is_met(&self, entry: &Known) -> bool {
        entry.path.is_same(self.path) && entry.identity.is_same(self.identity)
    }
}

/// Whether it is this path.
#[derive(Drop)]
pub(crate) struct IsAt<'a> {
    pub(crate) path: &'a Place,
}

impl<'a> Question<Known> for IsAt<'a> {
    ghost key = { path_key };

    ghost asks = { λ q k. same k.path q.path.now };

    fn is_met(&self, entry: &Known) -> bool {
        entry.path.is_same(self.path)
    }
}

/// Whether it has this identity.
#[derive(Drop)]
pub(crate) struct IsUnder<'a> {
    pub(crate) identity: &'a Identity,
}

impl<'a> Question<Known> for IsUnder<'a> {
    ghost key = { identity_key };

    ghost asks = { λ q k. same_identity k.identity q.identity.now };

    fn is_met(&self, entry: &Known) -> bool {
        entry.identity.is_same(self.identity)
    }
}
