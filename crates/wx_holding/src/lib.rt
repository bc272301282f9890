//! What a recursor holds, and what it does about roots, listings and candidates: how a path comes to be watched and owned,
//! guarded, and is let go.
#![tactic(auto)]

mod calls;
mod guarding;
mod held;
mod looking;
mod owning;
mod releasing;
mod visiting;

pub use held::Held;
pub use looking::{find_guard, is_safe, list, look, look_at_root, look_here};
pub use owning::is_memory;
