//! What an engine does in a turn, written into a journal.
#![tactic(auto)]

mod acts_done;
mod job_turns;
mod key_turns;
mod work_turn;

pub use job_turns::{ask_turn, change_turn, end_jobs, ended_turn, job_turn, keep_end};
pub use key_turns::{keys_turn, signal_turn};
pub use work_turn::worker;
pub use wx_hooks::{Hooks, World};
pub use wx_worker::{Collected, Worked, Worker, throttle_collect};
