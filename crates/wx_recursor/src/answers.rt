// What the calls of a step answer, and what comes of them.
use crate::known::Identity;
use wx_error::RuntimeError;
use wx_text::List;
use wx_tree::Place;
use wx_watch::NotifyFault;

/// What one look at a path finds.
#[derive(Drop)]
pub enum Look {
    Absent,
    /// A link, where links aren't followed.
    Linked,
    /// A directory, with its canonical path.
    Directory(Place),
    Other,
    /// The look failed, with this code.
    Broken(u32),
}

/// What the look at an item finds.
#[derive(Drop)]
pub enum Found {
    /// Nothing is there.
    Missing,
    /// A link, or what lies below something that is no directory.
    Barred,
    /// No directory, or refused by the filter.
    Rejected,
    /// The look at this path failed, with this code.
    Fault(Place, u32),
    /// The filter failed.
    Refused(RuntimeError),
    Here(Identity),
    Entries(List<Place>),
}

/// Where a guard is to be.
#[derive(Drop)]
pub enum GuardFound {
    /// No directory stands above the root.
    Nowhere,
    At(Place, Identity),
    /// The look at this path failed, with this code.
    Faulty(Place, u32),
}

/// What a call of watch answers, and after its Ok the second look.
pub enum Watched {
    Kept(Look),
    Failed(NotifyFault),
}

// Its parts are dropped by one call: docs/DESIGN.md, "What proofs cost".
impl Drop for Watched {
    fn drop(self) {
        match self {
            Watched::Kept(_) => {}
            Watched::Failed(_) => {}
        }
    }
}

/// How it ends that a path is to be registered.
#[derive(Clone, Copy, PartialEq, Eq)]
pub enum AddResult {
    /// Its registration stands.
    Stands,
    /// The path is gone.
    Vanished,
    /// It is to be tried again after a rebuild.
    TryAgain,
    /// It is left out, for this epoch or until a rebuild.
    LeftOut,
}

/// Where the backend is.
#[derive(Clone, Copy, PartialEq, Eq)]
pub enum BackendPlace {
    Installed,
    Lent,
    Dropped,
}
