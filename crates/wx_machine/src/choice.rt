// What a step does.
use crate::function::Function;
use crate::grace::Grace;
use wx_control::Control;

/// What a step of a job picks.
#[derive(Clone, Copy, PartialEq, Eq)]
pub enum Choice {
    /// The poll of the function that was begun.
    Poll(Function),
    /// The end of the grace that the running child was given.
    Over(u64, Grace),
    /// The end of the running child, which was kept.
    End(u64),
    /// This control, with its ticket.
    Next { ticket: u64, control: Control },
    /// The end of a job of which there are no more handles.
    Leave,
    Nothing,
}

/// What a step did.
#[derive(Clone, Copy, PartialEq, Eq)]
pub enum Stepped {
    /// It did a case.
    Did,
    /// There was nothing to do.
    Idle,
    /// The begun function isn't ready.
    Later,
    /// The job is gone.
    Gone,
}
