// What looks at the files of the system.
ghost use Rattle.std.specs.Prelude.{◌≡◌};
ghost use Rattle.wx_scan.specs.Looked.{LooksOnce};
ghost use Rattle.wx_scan.specs.Told.{is_fault};
ghost use Rattle.wx_live_parts.specs.Real.{looked_of};

use crate::looking::{canonical_at, entries_at, kind_at, stamp_at};
use std::alloc::AllocGlobal;
use std::rt::Files;
use wx_scan::{EntryKind, Looks, ScanError, Scanner};
use wx_text::List;
use wx_words::TextPath;

/// Looks at the files of the system. A directory is listed without the entries whose name isn't UTF-8; a path with such a name is a fault.
/// It tells no tree.
pub struct FileScanner<R: Files + AllocGlobal + Clone + Drop> {
    rt: R,
    looks: u64,
    faults: u64,
}

// Its parts are dropped by one call: docs/DESIGN.md, "What proofs cost".
impl<R: Files + AllocGlobal + Clone + Drop> Drop for FileScanner<R> {
    fn drop(self) {
        let FileScanner {
            rt: _,
            looks: _,
            faults: _,
        } = self;
    }
}

/// Whether a look failed.
fn is_fault<T>(answer: &Result<T, ScanError>) -> bool
    ensures { result ≡ is_fault answer.now }
{
    match answer {
        Ok(_) => false,
        Err(ScanError::NotFound) => false,
        Err(ScanError::Io(_)) => true,
        Err(ScanError::Memory) => false,
    }
}

impl<R: Files + AllocGlobal + Clone + Drop> FileScanner<R> {
    /// A scanner that hasn't looked yet.
    pub fn new(rt: R) -> FileScanner<R>
        ensures { (result.looks ≡ 0) × (result.faults ≡ 0) }
    {
        FileScanner {
            rt,
            looks: 0,
            faults: 0,
        }
    }

    /// How often it looked. It ends at the greatest number.
    pub fn looks(&self) -> u64
        ensures { result ≡ self.now.looks }
    {
        self.looks
    }

    /// How often a look failed. It ends at the greatest number.
    pub fn faults(&self) -> u64
        ensures { result ≡ self.now.faults }
    {
        self.faults
    }

    /// Counts a look, and whether it failed.
    fn count(&mut self, failed: bool)
        ensures { LooksOnce failed (looked_of self.old.looks self.old.faults) (looked_of self.new.looks self.new.faults) }
    {
        self.looks = self.looks.saturating_add(1);
        if failed {
            self.faults = self.faults.saturating_add(1);
        }
    }

    /// Counts a look with this answer.
    fn counted<T>(&mut self, answer: Result<T, ScanError>) -> Result<T, ScanError>
        ensures looked { LooksOnce (is_fault result) (looked_of self.old.looks self.old.faults) (looked_of self.new.looks self.new.faults) }
        ensures answer { result ≡ answer }
    {
        self.count(is_fault(&answer));
        answer
    }
}

impl<R: Files + AllocGlobal + Clone + Drop> Looks for FileScanner<R> {
    ghost looked = { λ s. looked_of s.looks s.faults };

    ghost Rest = { Unit {0} };

    ghost rest = { λ _. tt };
}

impl<R: Files + AllocGlobal + Clone + Drop> Scanner for FileScanner<R> {
    fn classify(&mut self, path: &TextPath, follow: bool) -> Result<EntryKind, ScanError> {
        let answer = kind_at(&self.rt, path, follow);
        self.counted(answer)
    }

    fn canonicalize(&mut self, path: &TextPath) -> Result<TextPath, ScanError> {
        let answer = canonical_at(&self.rt, path);
        self.counted(answer)
    }

    fn scan(&mut self, path: &TextPath) -> Result<List<TextPath>, ScanError> {
        let answer = entries_at(&self.rt, path);
        self.counted(answer)
    }

    fn stamp(&mut self, path: &TextPath) -> Result<u64, ScanError> {
        let answer = stamp_at(&self.rt, path);
        self.counted(answer)
    }
}
