//! Live outsides in memory, for tests.
#![tactic(auto)]

mod call;
mod drew;
mod ending_live;
mod mem_live;

pub use ending_live::EndingLive;
pub use mem_live::MemLive;
