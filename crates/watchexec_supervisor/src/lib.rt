//! The names of the Rust crate `watchexec-supervisor` that exist here, where they stand there.
#![tactic(auto)]

pub use wx_events::{ProcessEnd, Signal};

/// What a job runs.
pub mod command {
    pub use wx_command::{Command, Program, Shell, SpawnOptions};
}

/// Jobs, and what is asked of them.
pub mod job {
    pub use wx_control::{Control, Job, Ticket};
    pub use wx_job::{JobTaskContext, start_job};
    pub use wx_machine::CommandState;
}
