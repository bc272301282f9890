//! A backend that polls at its own pace.
#![tactic(auto)]

mod paced;

pub use paced::PacedPoller;
