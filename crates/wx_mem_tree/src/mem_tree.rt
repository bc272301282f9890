// A tree of files in memory.
ghost use Rattle.std.specs.Prelude.{◌≡◌, ◌∷◌, ◌++◌, [], true, false, is_some, if◌then◌else◌, IfOk, OnOk, OnErr};
ghost use Rattle.wx_scan.specs.Looked.{Looked, LooksOnce, Rose};
ghost use Rattle.wx_scan.specs.Told.{is_fault};
ghost use Rattle.wx_tree.specs.Places.{place};
ghost use Rattle.wx_mem_tree.specs.Indexed.{AreIndexed};
ghost use Rattle.wx_mem_tree.specs.Entries.{Unlooked, are_once, code_of, looked_of, none_fails, put_node, unlooked, without_path};

use crate::answers::{canonical_at, kind_at, listed_at, stamp_at};
use crate::entry::{MemEntry, put_node, take_path};
use crate::index::{EntryIndex, Indexed, index_of_all};
use std::alloc::Global;
use std::mem;
use wx_scan::{EntryKind, Looks, ScanError, Scanner};
use wx_text::{List, Memory};
use wx_tree::{Node, Place};
use wx_words::TextPath;

/// A call on the scanner that is to fail: which one, counted from 0, and with which code.
#[derive(Clone, Copy, PartialEq, Eq)]
pub struct FailingLook {
    pub call: u64,
    pub code: u32,
}

/// A tree of files in memory, and its scanner. It tells its tree. Where links are followed, or stand in the way, they lead
/// where their target says, taken from their directory, `..` in it being the directory before it. What is listed behind a link is
/// named below the path that was asked for. A path that leads through more than 40 links leads nowhere, and what is no
/// directory has no entries: so a look fails only where it was ordered to.
pub struct MemTree {
    alloc: Global,
    entries: Vec<MemEntry>,
    index: Option<EntryIndex>,
    failing: List<FailingLook>,
    looks: u64,
    faults: u64,
    pub ghost once: { are_once entries.items ≡ true },
    pub ghost indexed: { AreIndexed entries.items index },
    pub ghost calm: { (if none_fails failing then faults else 0) ≡ 0 },
}

// Its parts are dropped by one call: docs/DESIGN.md, "What proofs cost".
impl Drop for MemTree {
    fn drop(self) {
        let MemTree {
            alloc: _,
            entries: _,
            index: _,
            failing: _,
            looks: _,
            faults: _,
        } = self;
    }
}

impl MemTree {
    /// The tree in which nothing stands. It fails only for want of memory.
    pub fn new(alloc: Global) -> Result<MemTree, Memory>
        ensures { IfOk result (λ t. (t.entries.items ≡ []) × (t.failing ≡ []) × (t.looks ≡ 0) × (t.faults ≡ 0)) }
    {
        Ok(MemTree {
            alloc,
            entries: Vec::new(alloc),
            index: Some(EntryIndex::new(alloc)),
            failing: List::new(alloc),
            looks: 0,
            faults: 0,
        })
    }

    /// Puts a node at a path, in the place of what stands there. What is below stays. Of the path only its parts count, which
    /// stand between slashes and aren't empty. It fails only for want of memory, and changes nothing then.
    pub fn node(&mut self, path: TextPath, node: Node) -> Result<(), Memory>
        ensures entries { OnOk result (self.new.entries.items ≡ put_node (place path) node self.old.entries.items) }
        ensures err { OnErr result (self.new.entries.items ≡ self.old.entries.items) }
        ensures failing { self.new.failing ≡ self.old.failing }
        ensures counts { (self.new.looks ≡ self.old.looks) × (self.new.faults ≡ self.old.faults) }
    {
        let at = Place::new(self.alloc, &path)?;
        put_node(self.alloc, &mut self.entries, &mut self.index, at, node)
    }

    /// Takes a path away, and all below it. It fails only for want of memory, and changes nothing then.
    pub fn gone(&mut self, path: &TextPath) -> Result<(), Memory>
        ensures entries { OnOk result (self.new.entries.items ≡ without_path (place path.now) self.old.entries.items) }
        ensures err { OnErr result (self.new.entries.items ≡ self.old.entries.items) }
        ensures failing { self.new.failing ≡ self.old.failing }
        ensures counts { (self.new.looks ≡ self.old.looks) × (self.new.faults ≡ self.old.faults) }
    {
        let at = Place::new(self.alloc, path)?;
        self.index = None;
        take_path(&mut self.entries, &at);
        Ok(())
    }

    /// Exchanges what stands in the two trees. The rest stays: how often each was looked at, and which looks are to fail.
    pub fn swap(&mut self, other: &mut MemTree)
        ensures entries { (self.new.entries.items ≡ other.old.entries.items) × (other.new.entries.items ≡ self.old.entries.items) }
        ensures failing { (self.new.failing ≡ self.old.failing) × (other.new.failing ≡ other.old.failing) }
        ensures counts { (self.new.looks ≡ self.old.looks) × (self.new.faults ≡ self.old.faults) }
    {
        mem::swap(&mut self.entries, &mut other.entries);
        mem::swap(&mut self.index, &mut other.index);
    }

    /// The call of this number, counted from 0, is to fail with this code. Of two for one call the first stands. It fails
    /// only for want of memory, and changes nothing then.
    pub fn fail(&mut self, call: u64, code: u32) -> Result<(), Memory>
        ensures look { OnOk result (self.new.failing ≡ self.old.failing ++ record { call = call; code = code } ∷ []) }
        ensures failing { OnOk result (none_fails self.new.failing ≡ false) }
        ensures err { OnErr result (self.new ≡ self.old) }
        ensures entries { self.new.entries.items ≡ self.old.entries.items }
        ensures counts { (self.new.looks ≡ self.old.looks) × (self.new.faults ≡ self.old.faults) }
    {
        self.failing.push(FailingLook { call, code })?;
        Ok(())
    }

    /// How often it was looked at. It ends at the greatest number.
    pub fn looks(&self) -> u64
        ensures { result ≡ self.now.looks }
    {
        self.looks
    }

    /// Makes an index where there is none, as long as there is memory for it.
    fn keep_index(&mut self)
        ensures rest { unlooked self.new.entries.items self.new.failing ≡ unlooked self.old.entries.items self.old.failing }
        ensures counts { (self.new.looks ≡ self.old.looks) × (self.new.faults ≡ self.old.faults) }
    {
        if self.index.is_none() {
            self.index = index_of_all(self.alloc, self.entries.as_slice());
        }
    }

    /// The entries, with what finds them.
    fn indexed(&self) -> Indexed<'_>
        ensures { result ≡ self.now.entries.items }
    {
        Indexed {
            entries: self.entries.as_slice(),
            index: &self.index,
        }
    }

    /// Counts a look, and answers this, or that the look is to fail.
    fn noted<T: Drop>(&mut self, answer: Result<T, ScanError>) -> Result<T, ScanError>
        requires { is_fault answer ≡ false }
        ensures looked { LooksOnce (is_fault result) (looked_of self.old.entries.items self.old.looks self.old.faults) (looked_of self.new.entries.items self.new.looks self.new.faults) }
        ensures rest { unlooked self.new.entries.items self.new.failing ≡ unlooked self.old.entries.items self.old.failing }
        ensures answer { (Rose self.old.faults self.new.faults → ⊥) → (result ≡ answer) }
    {
        let code = code_of(self.failing.as_slice(), self.looks);
        self.count(code.is_some());
        match code {
            Some(code) => Err(ScanError::Io(code)),
            None => answer,
        }
    }

    /// Counts a look, and whether it failed.
    fn count(&mut self, failed: bool)
        requires { failed ≡ true → none_fails self.old.failing ≡ false }
        ensures looked { LooksOnce failed (looked_of self.old.entries.items self.old.looks self.old.faults) (looked_of self.new.entries.items self.new.looks self.new.faults) }
        ensures rest { (self.new.entries.items ≡ self.old.entries.items) × (self.new.failing ≡ self.old.failing) }
    {
        self.looks = self.looks.saturating_add(1);
        if failed {
            self.faults = self.faults.saturating_add(1);
        }
    }
}

/// The code with which this look is to fail.
fn code_of(failing: &[FailingLook], look: u64) -> Option<u32>
    ensures { result ≡ code_of failing.now look }
{
    let mut rest = failing;
    while let [first, after @ ..] = rest {
        if first.call == look {
            return Some(first.code);
        }
        rest = after;
    }
    None
}

impl Looks for MemTree {
    ghost looked = { λ s. looked_of s.entries.items s.looks s.faults };

    ghost Rest = { Unlooked };

    ghost rest = { λ s. unlooked s.entries.items s.failing };
}

impl Scanner for MemTree {
    fn classify(&mut self, path: &TextPath, follow: bool) -> Result<EntryKind, ScanError> {
        self.keep_index();
        let answer = kind_at(self.alloc, path, follow, &self.indexed());
        self.noted(answer)
    }

    fn canonicalize(&mut self, path: &TextPath) -> Result<TextPath, ScanError> {
        self.keep_index();
        let answer = canonical_at(self.alloc, path, &self.indexed());
        self.noted(answer)
    }

    fn scan(&mut self, path: &TextPath) -> Result<List<TextPath>, ScanError> {
        self.keep_index();
        let answer = listed_at(self.alloc, path, &self.indexed());
        self.noted(answer)
    }

    fn stamp(&mut self, path: &TextPath) -> Result<u64, ScanError> {
        self.keep_index();
        let answer = stamp_at(self.alloc, path, &self.indexed());
        self.noted(answer)
    }
}
