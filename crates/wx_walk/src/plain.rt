// What the plain machine keeps and sees.
use wx_text::List;
use wx_tree::{Place, Root};

/// A directory that is watched until the root is there.
#[derive(Drop)]
pub struct Guarded {
    pub root: Root,
    pub path: Place,
}

/// What is seen of an item.
pub enum Saw {
    /// A candidate that is absent, refused, or no directory.
    Lost,
    /// A root that is absent or unsafe, with the directory that guards it.
    Unsafe(Option<Place>),
    /// A guard that is set again, and whether the root is now safe.
    Reset(Option<Place>, bool),
    /// To be owned, and not scanned.
    Leaf,
    /// To be owned, and scanned where it is new.
    Held,
    Listed(List<Place>),
}

// Its parts are dropped by one call: docs/DESIGN.md, "What proofs cost".
impl Drop for Saw {
    fn drop(self) {
        match self {
            Saw::Lost => {}
            Saw::Unsafe(_) => {}
            Saw::Reset(_, _) => {}
            Saw::Leaf => {}
            Saw::Held => {}
            Saw::Listed(_) => {}
        }
    }
}
