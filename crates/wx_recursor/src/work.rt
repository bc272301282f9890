// What is queued, and what is kept for the next reconcile.
use wx_text::List;
use wx_tree::{Place, Root};

/// What a root has queued.
#[derive(Drop)]
pub enum Item {
    /// The guard of the root is set again.
    Guard(Root),
    /// The root is looked at.
    Visit(Root),
    /// The entries of a directory become candidates.
    Scan(Root, Place),
    /// The path is owned, if it is a directory that the filter accepts.
    Candidate(Root, Place),
}

/// What is queued.
#[derive(Drop)]
pub enum Work {
    Plain(Item),
    /// A path that changed in some way, and the roots that owned it.
    Probe(Place, List<Root>),
}

/// A path that the next reconcile queues for this root.
#[derive(Drop)]
pub struct Retry {
    pub root: Root,
    pub path: Place,
}
