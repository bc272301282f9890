// A tree that changes between two looks.
ghost use Rattle.std.specs.Prelude.{◌≡◌, ℕ};
ghost use Rattle.wx_scan.specs.Looked.{LooksOnce};
ghost use Rattle.wx_scan.specs.Told.{is_fault};
ghost use Rattle.wx_fs_trial.specs.Changing.{untold};

use wx_mem_tree::MemTree;
use wx_scan::{EntryKind, Looks, ScanError, Scanner};
use wx_text::List;
use wx_words::TextPath;

/// A tree of files in memory, in whose place another one stands from a look on. It doesn't tell its tree.
pub struct Changing {
    pub tree: MemTree,
    /// What stands there later.
    pub later: MemTree,
    /// The first look that sees it, counted from 0.
    pub from: u64,
    pub looks: u64,
    pub faults: u64,
}

// Its parts are dropped by one call: docs/DESIGN.md, "What proofs cost".
impl Drop for Changing {
    fn drop(self) {
        let Changing {
            tree: _,
            later: _,
            from: _,
            looks: _,
            faults: _,
        } = self;
    }
}

fn is_fault<T>(answer: &Result<T, ScanError>) -> bool
    ensures { result ≡ is_fault answer.now }
{
    match answer {
        Ok(_) => false,
        Err(ScanError::NotFound) => false,
        Err(ScanError::Io(_)) => true,
        Err(ScanError::Memory) => false,
    }
}

impl Changing {
    /// The first tree, and the one that stands there from this look on.
    pub fn new(tree: MemTree, later: MemTree, from: u64) -> Changing {
        Changing {
            tree,
            later,
            from,
            looks: 0,
            faults: 0,
        }
    }

    /// Counts a look, and whether it failed.
    fn count(&mut self, failed: bool)
        ensures { LooksOnce failed (untold self.old.looks self.old.faults) (untold self.new.looks self.new.faults) }
    {
        self.looks = self.looks.saturating_add(1);
        if failed {
            self.faults = self.faults.saturating_add(1);
        }
    }
}

impl Looks for Changing {
    ghost looked = { λ s. untold s.looks s.faults };

    ghost Rest = { ℕ };

    ghost rest = { λ _. 0 };
}

impl Scanner for Changing {
    fn classify(&mut self, path: &TextPath, follow: bool) -> Result<EntryKind, ScanError> {
        let answer = if self.looks < self.from {
            self.tree.classify(path, follow)
        } else {
            self.later.classify(path, follow)
        };
        self.count(is_fault(&answer));
        answer
    }

    fn canonicalize(&mut self, path: &TextPath) -> Result<TextPath, ScanError> {
        let answer = if self.looks < self.from {
            self.tree.canonicalize(path)
        } else {
            self.later.canonicalize(path)
        };
        self.count(is_fault(&answer));
        answer
    }

    fn scan(&mut self, path: &TextPath) -> Result<List<TextPath>, ScanError> {
        let answer = if self.looks < self.from {
            self.tree.scan(path)
        } else {
            self.later.scan(path)
        };
        self.count(is_fault(&answer));
        answer
    }

    fn stamp(&mut self, path: &TextPath) -> Result<u64, ScanError> {
        let answer = if self.looks < self.from {
            self.tree.stamp(path)
        } else {
            self.later.stamp(path)
        };
        self.count(is_fault(&answer));
        answer
    }
}
