//! A queue with passes: each pass sends from a thread of its own, and one end takes. Nothing is lost, doubled or made up.
#![tactic(auto)]

mod finish;
mod parcel;
mod pass;
mod queue;
mod rule;
mod steps;

pub use crate::finish::{Given, Missing};
pub use crate::parcel::{Parcel, Sent};
pub use crate::pass::{HoldsPass, QueuePass, Refused};
pub use crate::queue::{PASSES, PassQueue, SplitRefused, Taken};
pub use crate::rule::Known;
