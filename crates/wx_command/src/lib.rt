//! Commands: what they spawn, and the words in which they are written.
#![tactic(auto)]

mod argv;
mod command;
mod display;
mod execable;
mod options;
mod program;
mod shared;
mod shell;
mod shell_words;
mod spawnable;

pub use command::{Command, SpawnOptions};
pub use execable::is_execable;
pub use program::Program;
pub use shared::SharedCommand;
pub use shell::Shell;
pub use spawnable::Spawnable;
