//! The written machine: what a journal may list next, for each job and for a whole run, and what holds of each journal
//! that it allows. A library of definitions and laws: `wx_job` and `wx_action` do what they say.
#![tactic(auto)]

mod choice;
mod function;
mod grace;
mod laws;
mod quit;
mod state;
mod unseen;

pub use choice::{Choice, Stepped};
pub use function::Function;
pub use grace::Grace;
pub use laws::children_are_reaped;
pub use quit::QuitManner;
pub use state::{CommandState, child_of};
pub use unseen::is_unseen;
