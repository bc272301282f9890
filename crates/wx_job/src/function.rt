// A function that was begun for a job.
use wx_control::Flag;
use wx_machine::Function;

/// A begun function, and the flag of its ticket.
pub(crate) struct Begun {
    pub function: Function,
    pub done: Flag,
}

// Its parts are dropped by one call: docs/DESIGN.md, "What proofs cost".
impl Drop for Begun {
    fn drop(self) {
        let Begun {
            function: _,
            done: _,
        } = self;
    }
}
