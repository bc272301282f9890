//! The settings of an engine, their changes, and its filters. What is watched and the names of jobs are offered
//! again here.
#![tactic(auto)]

mod change;
mod config;
mod config_watched;
mod filter;

pub use change::{Change, RevisionSpent};
pub use config::{Changeable, ChangeableFilterer, ChangeableFn, Config};
pub use config_watched::ConfigWatched;
pub use filter::Filterer;
pub use wx_control::Id;
pub use wx_watch::{WatchedPath, Watcher};
