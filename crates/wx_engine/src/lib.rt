//! The engine. What follows a script, and hooks over boxes of a caller, are offered again here.
#![tactic(auto)]

mod running;
mod watchexec;
mod watchexec_main;

pub use watchexec::{SendRefused, Watchexec};
pub use wx_boxed::{BoxedHooks, OnAction, OnError, OnFault, OnJob, OnSpawn};
pub use wx_follow::{ScriptHooks, ScriptWorld};
