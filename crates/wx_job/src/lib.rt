//! Jobs: each drives one child by the controls that are asked of it, and lists all of it in the journal.
#![tactic(auto)]

mod calls;
mod case;
mod context;
mod function;
mod grace;
mod outside;
mod parking;
mod task;

pub use context::JobTaskContext;
pub use outside::{Host, JobHooks, Outside};
pub use task::{JobTask, start_job};
pub use wx_journal::{Wish, Word, put_end};
pub use wx_machine::CommandState;
