//! A tree of files in memory, which is looked at by its own scanner.
#![tactic(auto)]

mod answers;
mod children;
mod entry;
mod index;
mod links;
mod mem_tree;

pub use entry::MemEntry;
pub use mem_tree::{FailingLook, MemTree};
pub use wx_tree::Node;
