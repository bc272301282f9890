// What fails in a backend that watches files.
ghost use Rattle.std.specs.Prelude.{◌≡◌};

use std::alloc::Global;
use std::fmt;
use thiserror::Error;
use wx_text::{Copies, List, Memory, Text};
use wx_words::{Escaped, Spelled, TextPath, Words, put_row, put_word, read_rows};

/// A fault of a backend that watches files, with the paths that it is about. It is shown by its words.
#[derive(Debug, Error)]
#[error("{kind} {paths}", paths = Paths(.paths))]
pub struct NotifyFault {
    pub kind: NotifyFaultKind,
    pub paths: List<TextPath>,
}

// Its parts are dropped by one call: docs/DESIGN.md, "What proofs cost".
impl Drop for NotifyFault {
    fn drop(self) {
        let NotifyFault { kind: _, paths: _ } = self;
    }
}

/// What failed.
#[derive(Drop, Debug, Error)]
pub enum NotifyFaultKind {
    /// What no other kind says.
    #[error("generic {text}", text = Escaped(.0))]
    Generic(Text),
    /// A call on the system failed, with this code.
    #[error("io {0}")]
    Io(u32),
    /// Nothing is there.
    #[error("nopath")]
    PathNotFound,
    /// What is to be given up isn't watched.
    #[error("nowatch")]
    WatchNotFound,
    /// The backend can't be set up so.
    #[error("badconfig")]
    InvalidConfig,
    /// No more can be watched.
    #[error("maxwatches")]
    MaxFilesWatch,
    /// There was no memory.
    #[error("memory")]
    Memory,
}

/// Paths that are shown by their words: how many there are, and then each.
#[derive(Clone, Copy)]
struct Paths<'a>(&'a List<TextPath>);

impl<'a> fmt::Display for Paths<'a> {
    fn fmt<W: fmt::Write>(&self, f: &mut fmt::Formatter<W>) -> fmt::Result {
        write!(f, "{}", self.0.len())?;
        for path in self.0.as_slice() {
            write!(f, " {}", Escaped(path.text()))?;
        }
        Ok(())
    }
}

impl Copies for NotifyFaultKind {
    fn copy(&self, alloc: Global) -> Result<NotifyFaultKind, Memory> {
        Ok(match self {
            NotifyFaultKind::Generic(text) => NotifyFaultKind::Generic(text.copy(alloc)?),
            NotifyFaultKind::Io(code) => NotifyFaultKind::Io(*code),
            NotifyFaultKind::PathNotFound => NotifyFaultKind::PathNotFound,
            NotifyFaultKind::WatchNotFound => NotifyFaultKind::WatchNotFound,
            NotifyFaultKind::InvalidConfig => NotifyFaultKind::InvalidConfig,
            NotifyFaultKind::MaxFilesWatch => NotifyFaultKind::MaxFilesWatch,
            NotifyFaultKind::Memory => NotifyFaultKind::Memory,
        })
    }
}

impl Copies for NotifyFault {
    fn copy(&self, alloc: Global) -> Result<NotifyFault, Memory> {
        let kind = self.kind.copy(alloc)?;
        let paths = self.paths.copy(alloc)?;
        Ok(NotifyFault { kind, paths })
    }
}

#[tactic(auto, using(wx_words::specs::LineLaws::behinds), unfolding(crate::specs::NotifyFaults::fault_kind))]
impl Spelled for NotifyFaultKind {
    ghost use Rattle.wx_watch.specs.NotifyFaults.{fault_kind};

    ghost spelling = { fault_kind };

    fn put_after(&self, out: &mut Text) -> Result<(), Memory> {
        match self {
            NotifyFaultKind::Generic(text) => put_row(b"generic", &text, out),
            NotifyFaultKind::Io(code) => put_row(b"io", &code, out),
            NotifyFaultKind::PathNotFound => put_word(b"nopath", out),
            NotifyFaultKind::WatchNotFound => put_word(b"nowatch", out),
            NotifyFaultKind::InvalidConfig => put_word(b"badconfig", out),
            NotifyFaultKind::MaxFilesWatch => put_word(b"maxwatches", out),
            NotifyFaultKind::Memory => put_word(b"memory", out),
        }
    }

    fn read(alloc: Global, line: &mut Words) -> Result<Option<NotifyFaultKind>, Memory> {
        read_rows!(alloc, line;
            b"generic" (text) => NotifyFaultKind::Generic(text),
            b"io" (code) => NotifyFaultKind::Io(code),
            b"nopath" => NotifyFaultKind::PathNotFound,
            b"nowatch" => NotifyFaultKind::WatchNotFound,
            b"badconfig" => NotifyFaultKind::InvalidConfig,
            b"maxwatches" => NotifyFaultKind::MaxFilesWatch,
            b"memory" => NotifyFaultKind::Memory,
        )
    }
}

#[tactic(auto, using(wx_words::specs::LineLaws::behinds), unfolding(crate::specs::NotifyFaults::notify_fault, wx_words::specs::Parts::both))]
impl Spelled for NotifyFault {
    ghost use Rattle.wx_watch.specs.NotifyFaults.{notify_fault};

    ghost spelling = { notify_fault };

    fn put_after(&self, out: &mut Text) -> Result<(), Memory> {
        self.kind.put_after(out)?;
        self.paths.put_after(out)?;
        Ok(())
    }

    fn read(alloc: Global, line: &mut Words) -> Result<Option<NotifyFault>, Memory> {
        let Some((kind, paths)) = Spelled::read(alloc, line)? else {
            return Ok(None);
        };
        Ok(Some(NotifyFault { kind, paths }))
    }
}
