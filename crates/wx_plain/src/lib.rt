//! Hooks that most programs share: all but the choice of acts is the default.
#![tactic(auto)]

mod chooses;
mod plain_hooks;

pub use chooses::{ActRefused, Chooses};
pub use plain_hooks::PlainHooks;
