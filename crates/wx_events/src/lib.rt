//! Events and their priorities, signals and ends of processes.
#![tactic(auto)]

mod event;
mod file_type;
mod keyboard;
mod kind;
mod or_none;
mod priority;
mod process;
mod showing;
mod source;

pub use event::{Event, Tag};
pub use file_type::FileType;
pub use keyboard::{KeyCode, Keyboard, Modifiers};
pub use kind::{
    AccessKind, AccessMode, CreateKind, DataChange, FileEventKind, MetadataKind, ModifyKind,
    RemoveKind, RenameMode,
};
pub use priority::Priority;
pub use process::{ProcessEnd, Signal};
pub use source::Source;
