//! A recursor settles on a tree that stays still: what it then owns, guards and watches is the walk. It is proved by the plain
//! machine: where nothing fails, each step of a recursor is one of that machine. A library of definitions and laws.
#![tactic(auto)]

mod laws;

pub use laws::{epochs, settles, watched};
