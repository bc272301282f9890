//! What an engine asks of its world and of the hooks that its user hands in, and what it lends to these.
#![tactic(auto)]

mod batch;
mod copied;
mod error_hook;
mod handler;
mod held;
mod ids;
mod job_list;
mod outside;

pub use batch::Batch;
pub use copied::with_copy;
pub use error_hook::ErrorHook;
pub use handler::{ActionHandler, ChangeRefused, CreateRefused, GetRefused, Todo};
pub use held::Held;
pub use ids::IdCount;
pub use job_list::{JobList, Jobs};
pub use outside::{Hooks, TurnFault, Turned, World};
pub use wx_machine::QuitManner;
