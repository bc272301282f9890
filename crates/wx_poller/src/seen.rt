// What was seen at a path.
use wx_events::FileType;

/// What was seen at a path: its kind, and the stamp of a file. All else has the stamp 0.
#[derive(Clone, Copy)]
pub struct Seen {
    pub file_type: FileType,
    pub stamp: u64,
}
