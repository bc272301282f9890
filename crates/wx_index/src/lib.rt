//! The lists of a recursor, with what finds their entries without going along them.
#![tactic(auto)]

mod asked;
mod asked_met;
mod asked_owners;
mod chains;
mod known_index;
mod known_list;
mod owner_index;
mod owner_list;
mod question;
mod serving;

pub use known_list::KnownList;
pub use owner_list::OwnerList;
pub use serving::{idle_registrations, is_backed, lost_paths, serves};
