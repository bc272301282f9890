//! A filter by patterns of paths that are to be ignored.
#![tactic(auto)]

mod fronts;
mod ignoring;
mod laws;
mod parts;
mod pattern;
mod patterns;
mod rows;

pub use laws::{all_passes_without_patterns, nothing_passes_below};
pub use pattern::{Pattern, is_pattern};
pub use patterns::{AddError, Patterns};
