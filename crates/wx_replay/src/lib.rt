//! Scripts are run, and replayed: one is read and run, and the journal of its run is written.
#![tactic(auto)]

mod replaying;
mod running;
mod status;
mod writing;

pub use replaying::{replay, shown};
pub use running::{Ran, run_script};
pub use status::Status;
pub use writing::write_out;
