//! A plain machine that does what a recursor does where nothing fails, over the queue, the owners, the guards and the registered
//! paths alone, and the theorem that it settles on the walk. A library of definitions and laws.
#![tactic(auto)]

mod laws;
mod plain;

pub use laws::{settles, watched};
pub use plain::{Guarded, Saw};
