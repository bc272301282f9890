// The grace of a child that was sent a signal.

/// The grace that a child was given once it was sent a signal.
#[derive(Clone, Copy, Debug, PartialEq, Eq)]
pub struct Grace {
    /// The moment at which it is over, in nanoseconds.
    pub ends: u128,
    /// The ticket of the control that began it.
    pub ticket: u64,
    /// Whether a fresh child is spawned then.
    pub restarts: bool,
}
