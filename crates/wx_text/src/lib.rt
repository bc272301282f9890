//! Texts, lists and boxes, and want of memory.
#![tactic(auto)]

mod boxed;
mod list;
mod text;

pub use boxed::Boxed;
pub use list::{Copies, List, Memory, copy_twice};
pub use text::Text;
