// What looks at a tree of files.
ghost use Rattle.std.specs.Prelude.{◌≡◌, ℕ, List, [], false};
ghost use Rattle.wx_scan.specs.declared.scanner.ScanError.TheVariants.{Memory as OutOfMemory};
ghost use Rattle.wx_scan.specs.Looked.{Looked, LooksOnce};
ghost use Rattle.wx_scan.specs.Told.{IsCanonical, IsKind, IsListed, IsStamp, Tells, Unlinked, is_fault};

use wx_text::{List, Memory};
use wx_watch::EntryKind;
use wx_words::TextPath;

/// Why a look at a path has no other answer.
#[derive(Clone, Copy, Debug, PartialEq, Eq)]
pub enum ScanError {
    /// Nothing is there.
    NotFound,
    /// A call on the system failed, with this code.
    Io(u32),
    /// There was no memory.
    Memory,
}

impl From<Memory> for ScanError {
    ghost from_gives = { λ _ made. made ≡ OutOfMemory };

    fn from(_error: Memory) -> ScanError {
        ScanError::Memory
    }
}

/// What looks at a tree of files mean to contracts. It has no call: each call of `Scanner` says what it keeps of these.
pub trait Looks {
    /// What was seen of the tree.
    ghost looked: { Self → Looked };

    /// The type of what no look changes.
    ghost Rest: { Type 0 };

    /// What no look changes.
    ghost rest: { Self → Rest };

    /// The names of the borrows that it holds, by which what was lent is known again.
    ghost place: { Self → List ℕ } = { λ _. [] };
}

/// Looks at a tree of files. Where it tells its tree each answer is the tree's. A fault comes only where the count of
/// faults rose.
pub trait Scanner: Looks {
    /// What stands at a path: a directory with its canonical path, a link where links aren't followed, or anything else.
    fn classify(&mut self, path: &TextPath, follow: bool) -> Result<EntryKind, ScanError>
        ensures looked { LooksOnce (is_fault result) (Self.looked self.old) (Self.looked self.new) }
        ensures rest { Self.rest self.new ≡ Self.rest self.old }
        ensures place { Self.place self.new ≡ Self.place self.old }
        ensures told { follow ≡ false → Tells (Self.looked self.old) (Self.looked self.new) path.now (IsKind result) };

    /// The same path without links. Where it is one itself, the tree says nothing of the answer.
    fn canonicalize(&mut self, path: &TextPath) -> Result<TextPath, ScanError>
        ensures looked { LooksOnce (is_fault result) (Self.looked self.old) (Self.looked self.new) }
        ensures rest { Self.rest self.new ≡ Self.rest self.old }
        ensures place { Self.place self.new ≡ Self.place self.old }
        ensures told { Tells (Self.looked self.old) (Self.looked self.new) path.now (Unlinked (IsCanonical result)) };

    /// The entries of a directory.
    fn scan(&mut self, path: &TextPath) -> Result<List<TextPath>, ScanError>
        ensures looked { LooksOnce (is_fault result) (Self.looked self.old) (Self.looked self.new) }
        ensures rest { Self.rest self.new ≡ Self.rest self.old }
        ensures place { Self.place self.new ≡ Self.place self.old }
        ensures told { Tells (Self.looked self.old) (Self.looked self.new) path.now (Unlinked (IsListed result)) };

    /// A number that changes where the file does.
    fn stamp(&mut self, path: &TextPath) -> Result<u64, ScanError>
        ensures looked { LooksOnce (is_fault result) (Self.looked self.old) (Self.looked self.new) }
        ensures rest { Self.rest self.new ≡ Self.rest self.old }
        ensures place { Self.place self.new ≡ Self.place self.old }
        ensures told { Tells (Self.looked self.old) (Self.looked self.new) path.now (Unlinked (IsStamp (Self.looked self.old).stamps result)) };
}
