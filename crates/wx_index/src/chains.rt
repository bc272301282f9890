// Where the entries of a list are, by their keys.
ghost use Rattle.std.specs.Prelude.{◌≡◌, List, [], ◌∷◌, ◌++◌, OnOk};
ghost use Rattle.wx_index.specs.Chained.{AreFound, Key, end_before, end_of};

use std::alloc::Global;
use std::collections::BTreeMap;
use wx_text::{Memory, Text};

/// Where the entries of a list are, by their keys: of each key where the last one ends, and of each entry where the one of its
/// key before it ends. An end is 0 where there is none.
pub(crate) struct Chains {
    heads: BTreeMap<Text, usize>,
    before: Vec<usize>,
}

// Its parts are dropped by one call: docs/DESIGN.md, "What proofs cost".
impl Drop for Chains {
    fn drop(self) {
        let Chains {
            heads: _,
            before: _,
        } = self;
    }
}

impl Chains {
    /// Of no entries. It takes no memory.
    pub(crate) fn new(alloc: Global) -> Chains
        ensures { AreFound [] result }
    {
        Chains {
            heads: BTreeMap::new(alloc),
            before: Vec::new(alloc),
        }
    }

    /// An entry of this key is added at the end. It fails only for want of memory.
    pub(crate) fn push(&mut self, key: Text) -> Result<(), Memory>
        ensures { OnOk result ((keys : List Key) → AreFound keys self.old → AreFound (keys ++ key ∷ []) self.new) }
    {
        let end = self.end(&key);
        self.before.push(end)?;
        let len = self.before.len();
        self.heads.insert(key, len)?;
        Ok(())
    }

    /// Where those of the key end.
    pub(crate) fn end(&self, key: &Text) -> usize
        ensures { result ≡ end_of self.now key.now }
    {
        self.heads.get(key).copied().unwrap_or(0)
    }

    /// Where those end that have the key of the one that is here, and come before it.
    pub(crate) fn end_before(&self, at: usize) -> usize
        ensures { result ≡ end_before self.now at }
    {
        self.before.as_slice().get(at).copied().unwrap_or(0)
    }
}
