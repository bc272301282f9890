//! Places, trees of files, and what of a tree is to be watched. A library of definitions and laws.
#![tactic(auto)]

mod laws;
mod node;
mod place;
mod root;

pub use laws::places_are_read_back;
pub use node::Node;
pub use place::Place;
pub use root::Root;
