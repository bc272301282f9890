//! The outside of what watches files: what looks at them, what watches for changes, and what judges directories. It offers
//! `Notify` and `EntryKind` again.
#![tactic(auto)]

mod backend;
mod dir_check;
mod scanner;

pub use backend::Backend;
pub use dir_check::DirCheck;
pub use scanner::{Looks, ScanError, Scanner};
pub use wx_notify::{Notify, NotifyPath};
pub use wx_watch::EntryKind;
