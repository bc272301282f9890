//! The worker of an engine: what it keeps, what it says and shows in any turn, and what a Work turn collects.
#![tactic(auto)]

mod calls;
mod collecting;
mod worker_state;

pub use calls::{close_where, is_exit};
pub use collecting::{Collected, Worked, throttle_collect};
pub use worker_state::Worker;
pub use wx_hooks::{Hooks, World};
