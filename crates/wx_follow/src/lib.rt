//! A world and hooks that follow a script.
#![tactic(auto)]

mod editing;
mod filtering;
mod replies;
mod script_backend;
mod script_hooks;
mod script_world;
mod supply;

pub use script_backend::ScriptBackend;
pub use script_hooks::ScriptHooks;
pub use script_world::ScriptWorld;
