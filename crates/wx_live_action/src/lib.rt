//! The acts of the program that runs a command again at each change.
#![tactic(auto)]

mod keys;
mod live_action;

pub use live_action::LiveAction;
