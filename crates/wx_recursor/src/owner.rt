// Who owns what, and what guards a root.
use crate::known::Identity;
use wx_tree::{Place, Root};

/// A path that a root owns, and whether the root has seen it since the last reconcile.
#[derive(Drop)]
pub struct Owner {
    pub root: Root,
    pub path: Place,
    pub seen: bool,
}

/// A directory that is watched until the root is there.
pub struct GuardWatch {
    pub root: Root,
    pub path: Place,
    pub identity: Identity,
}

// Its parts are dropped by one call: docs/DESIGN.md, "What proofs cost".
impl Drop for GuardWatch {
    fn drop(self) {
        let GuardWatch {
            root: _,
            path: _,
            identity: _,
        } = self;
    }
}
