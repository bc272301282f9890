//! Live outsides: what runs children, looks at files, gives moments, and tells the ends of children by itself.
#![tactic(auto)]

mod lent;
mod live;

pub use lent::{Lent, is_back};
pub use live::Live;
