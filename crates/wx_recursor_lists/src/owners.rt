// Who owns what.
ghost use Rattle.std.specs.Prelude.{◌≡◌, ◌&&◌, filter, not};
ghost use Rattle.wx_tree.specs.Paths.{holds_below};
ghost use Rattle.wx_tree.specs.Roots.{same_root};
ghost use Rattle.wx_recursor.specs.Holding.{has_met};
ghost use Rattle.wx_recursor.specs.Owners.{disown, has_owner, has_path, has_root, sweep, unseen};
ghost use Rattle.wx_recursor_lists.specs.Met.{has_met_one, has_seen};

use crate::identities::is_identity_of;
use wx_recursor::{Identity, Known, Owner};
use wx_tree::{Place, Root};

/// Whether some root owns the path.
pub fn has_owner(path: &Place, owners: &[Owner]) -> bool
    ensures { result ≡ has_owner path.now owners.now }
{
    let mut rest = owners;
    while let [first, after @ ..] = rest {
        if first.path.is_same(path) {
            return true;
        }
        rest = after;
    }
    false
}

/// Whether the path is one of these.
pub fn has_path(path: &Place, paths: &[Place]) -> bool
    ensures { result ≡ has_path path.now paths.now }
{
    let mut rest = paths;
    while let [first, after @ ..] = rest {
        if first.is_same(path) {
            return true;
        }
        rest = after;
    }
    false
}

/// Whether the root is one of these.
pub fn has_root(root: &Root, roots: &[Root]) -> bool
    ensures { result ≡ has_root root.now roots.now }
{
    let mut rest = roots;
    while let [first, after @ ..] = rest {
        if first.is_same(root) {
            return true;
        }
        rest = after;
    }
    false
}

/// The root owns nothing at the path and below it.
pub fn disown(root: &Root, path: &Place, owners: &mut Vec<Owner>)
    ensures { owners.new.items ≡ disown root.now path.now owners.old.items }
{
    owners.retain(|o| !(root.is_same(&o.root) && path.holds(&o.path)));
}

/// The root owns nothing below the path.
pub fn disown_below(root: &Root, path: &Place, owners: &mut Vec<Owner>)
    ensures { owners.new.items ≡ filter (λ o. not (same_root root.now o.root && holds_below path.now o.path)) owners.old.items }
{
    owners.retain(|o| !(root.is_same(&o.root) && path.holds_below(&o.path)));
}

/// The owners that were seen in this epoch stay.
pub fn sweep(owners: &mut Vec<Owner>)
    ensures { owners.new.items ≡ sweep owners.old.items }
{
    owners.retain(|o| o.seen);
}

/// A new epoch: no owner was seen in it.
pub fn set_unseen(owners: &mut Vec<Owner>)
    ensures { owners.new.items ≡ unseen owners.old.items }
{
    let n = owners.len();
    for i in 0..n {
        owners[i].seen = false;
    }
}

/// Whether the root has seen this path in this epoch.
pub fn has_seen(root: &Root, path: &Place, owners: &[Owner]) -> bool
    ensures { result ≡ has_seen root.now path.now owners.now }
{
    let mut rest = owners;
    while let [first, after @ ..] = rest {
        if root.is_same(&first.root) && first.seen && first.path.is_same(path) {
            return true;
        }
        rest = after;
    }
    false
}

/// The same as `has_met`. Few paths have the same identity, so it goes along what is known once.
fn has_met_one(root: &Root, identity: &Identity, known: &[Known], owners: &[Owner]) -> bool
    ensures { result ≡ has_met_one root.now identity.now known.now owners.now known.now }
{
    let mut rest = known;
    while let [first, after @ ..] = rest {
        if first.identity.is_same(identity)
            && has_seen(root, &first.path, owners)
            && is_identity_of(&first.path, identity, known)
        {
            return true;
        }
        rest = after;
    }
    false
}

/// Whether the root has seen this identity in this epoch, under whatever path.
pub fn has_met(root: &Root, identity: &Identity, known: &[Known], owners: &[Owner]) -> bool
    ensures { result ≡ has_met root.now identity.now known.now owners.now }
{
    has_met_one(root, identity, known, owners)
}
