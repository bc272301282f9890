//! A world whose turns come from handles in other threads, from a live outside, and from a round of its own.
#![tactic(auto)]

mod backends;
mod mark;
mod marks;
mod turning;
mod world;

pub use mark::{Mark, Plain};
pub use marks::Marks;
pub use world::{Missing, Parts, ThreadWorld};
pub use wx_live::{Lent, Live};
pub use wx_pass::{Given, HandlePass, Item, Items, Sent, SplitRefused};
