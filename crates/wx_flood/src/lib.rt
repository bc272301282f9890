//! A flood: a script of drawn steps, and the summary of a run.
#![tactic(auto)]

mod counting;
mod drawing;
mod script;

pub use counting::summary_of;
pub use script::{MOST, flood_script};
