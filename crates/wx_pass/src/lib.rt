//! Handles for threads: what they send, and the passes that send it.
#![tactic(auto)]

mod goes;
mod item;
mod parcels;
mod pass;

pub use item::Item;
pub use pass::{Given, HandlePass, Items};
pub use wx_queue::{Sent, SplitRefused};
