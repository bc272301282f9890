//! The program that runs a command again at each change of its folder: two sides beside each other, of which one reads the keyboard and the
//! other runs the engine.
#![tactic(auto)]

mod live_run;
mod sides;
mod starting;

pub use live_run::live;
