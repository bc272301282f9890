// The grace of a child that was sent a signal.
use wx_control::Flag;
use wx_machine::Grace;

/// A grace that stands, and the flag of its ticket.
#[derive(Drop)]
pub(crate) struct Standing {
    pub grace: Grace,
    pub done: Flag,
}
