//! What an engine does in a turn about what is watched, written into a journal; and how few steps that takes on a tree that stays
//! still, where nothing fails.
#![tactic(auto)]

mod applying;
mod files;
mod hearing;
mod intake;
mod judging;
mod laws;
mod listening;
mod making;
mod rebuilding;
mod resting;
mod showing;
mod stepping;
mod turning;

pub use files::{Files, Watching};
pub use intake::Intake;
pub use laws::few_steps;
pub use listening::listen_turn;
pub use turning::file_turn;
