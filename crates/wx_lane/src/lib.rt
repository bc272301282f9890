//! What is made of a notification of a backend: the event that it becomes, what it says of the tree, whether it is of what is to
//! be watched, and the lane in which notifications and faults wait for their turns.
#![tactic(auto)]

mod event;
mod lane;
mod laws;
mod meeting;
mod public;
mod topology;

pub use event::file_event;
pub use lane::{Lane, LaneItem};
pub use laws::messages_tell_change;
pub use public::event_is_public;
pub use topology::{Topology, topology_messages};
pub use wx_notify::Notify;
pub use wx_watch::NotifyFault;
