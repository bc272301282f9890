//! Why bytes are no script, in one line for whoever wrote them.
#![tactic(auto)]

mod keeping;
mod reasons;
mod refusing;
mod unformed;

pub use keeping::KeepingSource;
pub use reasons::{Front, Reason, Refusal};
pub use refusing::refusal;
