//! The errors of an engine, each as the words that it is shown by.
#![tactic(auto)]

mod error;
mod runtime;

pub use error::CriticalError;
pub use runtime::{RuntimeError, TrySendFault};
