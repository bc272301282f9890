//! What a backend that watches files brings, as words.
#![tactic(auto)]

mod notify;

pub use notify::{Notify, NotifyPath};
