//! What is watched, and what fails in the sources of events, each as words.
#![tactic(auto)]

mod notify_fault;
mod scan_fault;
mod source_errors;
mod watched;

pub use notify_fault::{NotifyFault, NotifyFaultKind};
pub use scan_fault::{EntryKind, Identity, ScanFault};
pub use source_errors::{FsWatcherError, KeyboardWatcherError};
pub use watched::{WatchedPath, Watcher};
