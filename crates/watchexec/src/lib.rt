//! The names of the Rust crate `watchexec` that exist here, where they stand there, and in `live` those of a world over the system.
#![tactic(auto)]

pub use watchexec_supervisor::{command, job};
pub use wx_config::Config;
pub use wx_control::Id;
pub use wx_engine::Watchexec;
pub use wx_hooks::ErrorHook;
pub use wx_watch::WatchedPath;

/// What is done about a batch of events.
pub mod action {
    pub use wx_action::worker;
    pub use wx_hooks::ActionHandler;
    pub use wx_machine::QuitManner;
}

/// Values that may be replaced.
pub mod changeable {
    pub use wx_config::{Changeable, ChangeableFn};
}

/// The settings.
pub mod config {
    pub use wx_config::Config;
}

/// What fails.
pub mod error {
    pub use wx_error::{CriticalError, RuntimeError};
    pub use wx_watch::{FsWatcherError, KeyboardWatcherError};
}

/// What judges events and directories.
pub mod filter {
    pub use wx_config::{ChangeableFilterer, Filterer};
    pub use wx_patterns::{AddError, Pattern, Patterns};
}

/// A world over the system whose keys and jobs are used from threads: its outside, the folder that the program runs in, the world, and
/// its handles.
pub mod live {
    pub use wx_handles::ThreadWorld;
    pub use wx_live_parts::{LiveParts, current_folder};
    pub use wx_pass::HandlePass;
}

/// What paths have in common, and what events come to for a command.
pub mod paths {
    pub use wx_paths::common_prefix;
    pub use wx_summary::{PATH_SEPARATOR, summarise_events_to_env};
}

/// Where events come from.
pub mod sources {
    /// Files.
    pub mod fs {
        pub use wx_watch::{WatchedPath, Watcher};
    }
}
