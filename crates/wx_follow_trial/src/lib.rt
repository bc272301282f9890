//! What tests of hooks, worlds and engines share: worlds and hooks that follow a script, what a filter answers in words, and jobs that an
//! action handler makes.
#![tactic(auto)]

mod following;
mod making;
mod verdicts;

pub use following::{hooks_of, root, world_of};
pub use making::{command_of, created};
pub use verdicts::{dir_verdict, event_verdict};
