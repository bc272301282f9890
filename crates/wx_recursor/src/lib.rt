//! What keeps watches on a tree of directories, as definitions: what a recursor keeps, what each of its steps and calls makes
//! of it, and what every one of them keeps. A library of definitions and laws.
#![tactic(auto)]

mod answers;
mod errors;
mod known;
mod laws;
mod owner;
mod work;

pub use answers::{AddResult, BackendPlace, Found, GuardFound, Look, Watched};
pub use errors::{ScanFault, ShownError};
pub use known::{Identity, Known};
pub use laws::{covers, keeps, roots_are_given};
pub use owner::{GuardWatch, Owner};
pub use work::{Item, Retry, Work};
