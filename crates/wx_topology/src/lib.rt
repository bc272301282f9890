//! What a recursor does about changes of the tree, at each path that stands for the one that changed. A call that finds no memory
//! changes nothing: what it makes is drafted first.
#![tactic(auto)]

mod aliases;
mod changes;
mod drafts;
mod queuing;

pub use changes::{be_unsure, create, remove, rename};
