//! A journal as text.
#![tactic(auto)]

mod printing;
mod window;

pub use printing::{lost, one_spelling, print_journal};
