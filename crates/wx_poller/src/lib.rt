//! A backend that polls: it looks at what is watched, and tells what changed since it last looked.
#![tactic(auto)]

mod changes;
mod covering;
mod listed;
mod listing;
mod looking;
mod past;
mod pending;
mod poller;
mod seen;

pub use past::Past;
pub use poller::Poller;
pub use seen::Seen;
