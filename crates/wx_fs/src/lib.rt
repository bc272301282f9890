//! What keeps watches on trees of directories: a recursor over a backend. It offers again what a recursor is given.
#![tactic(auto)]

mod handing;
mod lending;
mod recursor;
mod rooting;
mod topology;

pub use recursor::{Recursor, StepResult};
pub use rooting::kept_roots;
pub use wx_scan::{Backend, DirCheck, Notify, NotifyPath};
