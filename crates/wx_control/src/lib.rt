//! What is asked of jobs: controls, asks with their levels, handles on jobs, and the sinks that take asks.
#![tactic(auto)]

mod ask;
mod control;
mod flag;
mod id;
mod job;
mod laws;
mod level;
mod mirror;
mod senders;
mod sink;
mod three_lists;
mod ticket;

pub use ask::{Ask, Sends};
pub use control::Control;
pub use flag::Flag;
pub use id::Id;
pub use job::Job;
pub use laws::{
    are_equal_ids, are_equal_levels, compare_ids, compare_levels, levels_are_a_total_order,
};
pub use level::Level;
pub use mirror::Mirror;
pub use sink::{Controls, Refused};
pub use three_lists::{Picked, ThreeLists};
pub use ticket::Ticket;
