//! One step of a recursor: the first of what is queued, or the sweep, and then what serves nothing is let go.
#![tactic(auto)]

mod judging;
mod laws;
mod probing;
mod resting;
mod stepping;

pub use judging::asks_below;
pub use laws::{asks_for_causes, roots_are_current};
pub use stepping::{Shown, step};
