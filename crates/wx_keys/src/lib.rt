//! Signals and keys as events, and what the tags of events hold.
#![tactic(auto)]

mod keys;
mod signal;
mod tagged;

pub use keys::{byte_to_keyboard, ends_input, fits_read, key_events};
pub use signal::{hears_signal, signal_event};
pub use tagged::{Completions, Paths, Signals, Tagged};
