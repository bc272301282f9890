// What fails in the sources of events.
ghost use Rattle.std.specs.Prelude.{◌≡◌};
ghost use Rattle.wx_watch.specs.SourceErrors.{keyboard_error_word};

use crate::notify_fault::NotifyFault;
use crate::scan_fault::ScanFault;
use std::alloc::Global;
use thiserror::Error;
use wx_text::{Copies, Memory, Text};
use wx_words::{Escaped, Spelled, TextPath, Words, put_row, put_word, read_rows};

/// An error of the watching of files. It is shown by its words.
#[derive(Drop, Debug, Error)]
pub enum FsWatcherError {
    /// A backend couldn't be made.
    #[error("create {0}")]
    Create(NotifyFault),
    /// No more can be watched.
    #[error("toomanywatches {0}")]
    TooManyWatches(NotifyFault),
    /// No more files can be open.
    #[error("toomanyhandles {0}")]
    TooManyHandles(NotifyFault),
    /// An event couldn't be read.
    #[error("event {0}")]
    Event(NotifyFault),
    /// A path couldn't be watched.
    #[error("pathadd {path} {err}", path = Escaped(.path.text()))]
    PathAdd { path: TextPath, err: NotifyFault },
    /// A path couldn't be looked at.
    #[error("pathscan {path} {err}", path = Escaped(.path.text()))]
    PathScan { path: TextPath, err: ScanFault },
    /// The watch on a path couldn't be given up.
    #[error("pathremove {path} {err}", path = Escaped(.path.text()))]
    PathRemove { path: TextPath, err: NotifyFault },
}

/// An error of the reading of keys. It is shown by its words.
#[derive(Clone, Copy, Debug, Error)]
pub enum KeyboardWatcherError {
    /// The reading of standard input couldn't be ended.
    #[error("stdinshutdown")]
    StdinShutdown,
}

impl KeyboardWatcherError {
    /// The word of this error.
    fn word(self) -> &'static str
        ensures { result.now ≡ keyboard_error_word self }
    {
        match self {
            KeyboardWatcherError::StdinShutdown => "stdinshutdown",
        }
    }
}

impl Copies for FsWatcherError {
    fn copy(&self, alloc: Global) -> Result<FsWatcherError, Memory> {
        Ok(match self {
            FsWatcherError::Create(fault) => FsWatcherError::Create(fault.copy(alloc)?),
            FsWatcherError::TooManyWatches(fault) => {
                FsWatcherError::TooManyWatches(fault.copy(alloc)?)
            }
            FsWatcherError::TooManyHandles(fault) => {
                FsWatcherError::TooManyHandles(fault.copy(alloc)?)
            }
            FsWatcherError::Event(fault) => FsWatcherError::Event(fault.copy(alloc)?),
            FsWatcherError::PathAdd { path, err } => {
                let path = path.copy(alloc)?;
                let err = err.copy(alloc)?;
                FsWatcherError::PathAdd { path, err }
            }
            FsWatcherError::PathScan { path, err } => {
                let path = path.copy(alloc)?;
                let err = err.copy(alloc)?;
                FsWatcherError::PathScan { path, err }
            }
            FsWatcherError::PathRemove { path, err } => {
                let path = path.copy(alloc)?;
                let err = err.copy(alloc)?;
                FsWatcherError::PathRemove { path, err }
            }
        })
    }
}

#[tactic(auto, using(wx_words::specs::LineLaws::behinds), unfolding(crate::specs::SourceErrors::fs_error, wx_words::specs::Parts::both))]
impl Spelled for FsWatcherError {
    ghost use Rattle.wx_watch.specs.SourceErrors.{fs_error};

    ghost spelling = { fs_error };

    fn put_after(&self, out: &mut Text) -> Result<(), Memory> {
        match self {
            FsWatcherError::Create(fault) => put_row(b"create", &fault, out),
            FsWatcherError::TooManyWatches(fault) => put_row(b"toomanywatches", &fault, out),
            FsWatcherError::TooManyHandles(fault) => put_row(b"toomanyhandles", &fault, out),
            FsWatcherError::Event(fault) => put_row(b"event", &fault, out),
            FsWatcherError::PathAdd { path, err } => put_row(b"pathadd", &(path, err), out),
            FsWatcherError::PathScan { path, err } => put_row(b"pathscan", &(path, err), out),
            FsWatcherError::PathRemove { path, err } => put_row(b"pathremove", &(path, err), out),
        }
    }

    fn read(alloc: Global, line: &mut Words) -> Result<Option<FsWatcherError>, Memory> {
        read_rows!(alloc, line;
            b"create" (fault) => FsWatcherError::Create(fault),
            b"toomanywatches" (fault) => FsWatcherError::TooManyWatches(fault),
            b"toomanyhandles" (fault) => FsWatcherError::TooManyHandles(fault),
            b"event" (fault) => FsWatcherError::Event(fault),
            b"pathadd" (path, err) => FsWatcherError::PathAdd { path, err },
            b"pathscan" (path, err) => FsWatcherError::PathScan { path, err },
            b"pathremove" (path, err) => FsWatcherError::PathRemove { path, err },
        )
    }
}

#[tactic(auto, unfolding(crate::specs::SourceErrors::keyboard_error))]
impl Spelled for KeyboardWatcherError {
    ghost use Rattle.wx_watch.specs.SourceErrors.{keyboard_error};

    ghost spelling = { keyboard_error };

    fn put_after(&self, out: &mut Text) -> Result<(), Memory> {
        put_word(self.word().as_bytes(), out)
    }

    fn read(alloc: Global, line: &mut Words) -> Result<Option<KeyboardWatcherError>, Memory> {
        read_rows!(alloc, line;
            b"stdinshutdown" => KeyboardWatcherError::StdinShutdown,
        )
    }
}
