//! The names of the Rust crate `watchexec-events` that exist here, where they stand there.
#![tactic(auto)]

pub use wx_events::{
    Event, FileType, KeyCode, Keyboard, Modifiers, Priority, ProcessEnd, Source, Tag,
};

/// What may happen to a file.
pub mod filekind {
    pub use wx_events::{
        AccessKind, AccessMode, CreateKind, DataChange, FileEventKind, MetadataKind, ModifyKind,
        RemoveKind, RenameMode,
    };
}
