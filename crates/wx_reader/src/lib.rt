//! What reads the keyboard in a thread of its own, and sends what it read by a handle.
#![tactic(auto)]

mod reading;

pub use reading::read_keys;
