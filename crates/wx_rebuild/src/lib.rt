//! A rebuild of the backend: it is dropped, another is installed, and what was registered is watched again. A law says why a
//! replay asks for another one.
#![tactic(auto)]

mod laws;
mod preparing;
mod replaying;
mod standing;
mod upholding;

pub use laws::replays_ask_for_causes;
pub use preparing::{defer, install, prepare, replay_count};
pub use replaying::replay;
