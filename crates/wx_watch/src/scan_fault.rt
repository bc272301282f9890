// What fails where a path is looked at.
use std::alloc::Global;
use std::fmt;
use thiserror::Error;
use wx_text::{Copies, Memory, Text};
use wx_words::{Escaped, Spelled, TextPath, Words, put_row, put_word, read_rows};

/// As what a path is known.
#[derive(Debug)]
pub enum Identity {
    /// A directory, by its canonical path.
    Directory(TextPath),
    /// Anything else, by the path itself.
    Lexical(TextPath),
}

// Its parts are dropped by one call: docs/DESIGN.md, "What proofs cost".
impl Drop for Identity {
    fn drop(self) {
        match self {
            Identity::Directory(_) => {}
            Identity::Lexical(_) => {}
        }
    }
}

/// What is found at a path.
#[derive(Drop, Debug)]
pub enum EntryKind {
    /// A directory, with its canonical path.
    Directory(TextPath),
    /// A link, where links aren't followed.
    NonFollowedSymlink,
    Other,
}

/// A fault where a path is looked at. It is shown by its words.
#[derive(Debug, Error)]
pub enum ScanFault {
    /// Nothing is there.
    #[error("notfound")]
    NotFound,
    /// A call on the system failed, with this code.
    #[error("io {0}")]
    Io(u32),
    /// Something else was found there before.
    #[error("changed {identity} {now}")]
    Changed { identity: Identity, now: EntryKind },
}

// Its parts are dropped by one call: docs/DESIGN.md, "What proofs cost".
impl Drop for ScanFault {
    fn drop(self) {
        match self {
            ScanFault::NotFound => {}
            ScanFault::Io(_) => {}
            ScanFault::Changed {
                identity: _,
                now: _,
            } => {}
        }
    }
}

impl fmt::Display for Identity {
    fn fmt<W: fmt::Write>(&self, f: &mut fmt::Formatter<W>) -> fmt::Result {
        match self {
            Identity::Directory(path) => write!(f, "dir {}", Escaped(path.text())),
            Identity::Lexical(path) => write!(f, "lexical {}", Escaped(path.text())),
        }
    }
}

impl fmt::Display for EntryKind {
    fn fmt<W: fmt::Write>(&self, f: &mut fmt::Formatter<W>) -> fmt::Result {
        match self {
            EntryKind::Directory(path) => write!(f, "dir {}", Escaped(path.text())),
            EntryKind::NonFollowedSymlink => f.write_str("link"),
            EntryKind::Other => f.write_str("other"),
        }
    }
}

impl Copies for Identity {
    fn copy(&self, alloc: Global) -> Result<Identity, Memory> {
        Ok(match self {
            Identity::Directory(path) => Identity::Directory(path.copy(alloc)?),
            Identity::Lexical(path) => Identity::Lexical(path.copy(alloc)?),
        })
    }
}

impl Copies for EntryKind {
    fn copy(&self, alloc: Global) -> Result<EntryKind, Memory> {
        Ok(match self {
            EntryKind::Directory(path) => EntryKind::Directory(path.copy(alloc)?),
            EntryKind::NonFollowedSymlink => EntryKind::NonFollowedSymlink,
            EntryKind::Other => EntryKind::Other,
        })
    }
}

impl Copies for ScanFault {
    fn copy(&self, alloc: Global) -> Result<ScanFault, Memory> {
        Ok(match self {
            ScanFault::NotFound => ScanFault::NotFound,
            ScanFault::Io(code) => ScanFault::Io(*code),
            ScanFault::Changed { identity, now } => {
                let identity = identity.copy(alloc)?;
                let now = now.copy(alloc)?;
                ScanFault::Changed { identity, now }
            }
        })
    }
}

#[tactic(auto, using(wx_words::specs::LineLaws::behinds), unfolding(crate::specs::ScanFaults::identity))]
impl Spelled for Identity {
    ghost use Rattle.wx_watch.specs.ScanFaults.{identity};

    ghost spelling = { identity };

    fn put_after(&self, out: &mut Text) -> Result<(), Memory> {
        match self {
            Identity::Directory(path) => put_row(b"dir", &path, out),
            Identity::Lexical(path) => put_row(b"lexical", &path, out),
        }
    }

    fn read(alloc: Global, line: &mut Words) -> Result<Option<Identity>, Memory> {
        read_rows!(alloc, line;
            b"dir" (path) => Identity::Directory(path),
            b"lexical" (path) => Identity::Lexical(path),
        )
    }
}

#[tactic(auto, using(wx_words::specs::LineLaws::behinds), unfolding(crate::specs::ScanFaults::entry_kind))]
impl Spelled for EntryKind {
    ghost use Rattle.wx_watch.specs.ScanFaults.{entry_kind};

    ghost spelling = { entry_kind };

    fn put_after(&self, out: &mut Text) -> Result<(), Memory> {
        match self {
            EntryKind::Directory(path) => put_row(b"dir", &path, out),
            EntryKind::NonFollowedSymlink => put_word(b"link", out),
            EntryKind::Other => put_word(b"other", out),
        }
    }

    fn read(alloc: Global, line: &mut Words) -> Result<Option<EntryKind>, Memory> {
        read_rows!(alloc, line;
            b"dir" (path) => EntryKind::Directory(path),
            b"link" => EntryKind::NonFollowedSymlink,
            b"other" => EntryKind::Other,
        )
    }
}

#[tactic(auto, using(wx_words::specs::LineLaws::behinds), unfolding(crate::specs::ScanFaults::scan_fault, wx_words::specs::Parts::both))]
impl Spelled for ScanFault {
    ghost use Rattle.wx_watch.specs.ScanFaults.{scan_fault};

    ghost spelling = { scan_fault };

    fn put_after(&self, out: &mut Text) -> Result<(), Memory> {
        match self {
            ScanFault::NotFound => put_word(b"notfound", out),
            ScanFault::Io(code) => put_row(b"io", &code, out),
            ScanFault::Changed { identity, now } => put_row(b"changed", &(identity, now), out),
        }
    }

    fn read(alloc: Global, line: &mut Words) -> Result<Option<ScanFault>, Memory> {
        read_rows!(alloc, line;
            b"notfound" => ScanFault::NotFound,
            b"io" (code) => ScanFault::Io(code),
            b"changed" (identity, now) => ScanFault::Changed { identity, now },
        )
    }
}
