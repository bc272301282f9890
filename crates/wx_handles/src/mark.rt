// Where turns came from.
use wx_control::Id;

/// A turn that is no item of the queue: the end of a child, one of the round, or the last.
#[derive(Clone, Copy, PartialEq, Eq)]
pub enum Plain {
    Ended(u64),
    Work,
    Job(Id),
    Listen,
    File,
    Last,
}

/// The moment of a turn, and what it is, where it is no item of the queue.
#[derive(Clone, Copy, PartialEq, Eq)]
pub struct Mark {
    pub at: u64,
    pub plain: Option<Plain>,
}
