//! Hooks that hold boxes of their caller.
#![tactic(auto)]

mod boxed_hooks;
mod interfaces;
mod told;

pub use boxed_hooks::BoxedHooks;
pub use interfaces::{OnAction, OnError, OnFault, OnJob, OnSpawn};
