// Where the direct entries of a directory stand in a list of entries.
ghost use Rattle.std.specs.Prelude.{◌≡◌, [], ◌∷◌, ◌++◌, List, ℕ, length, IfOk};
ghost use Rattle.wx_mem_tree.specs.Children.{AreListed, IsBelow, children_in};
ghost use Rattle.wx_mem_tree.specs.declared.entry.MemEntry.{MemEntry as AnEntry};

use std::alloc::Global;
use std::collections::BTreeMap;
use wx_text::{Copies, Memory, Text};
use wx_tree::Place;

/// Where the direct entries of each path stand in a list, rising, by the bytes of the path.
pub(crate) struct Children {
    lists: BTreeMap<Text, Vec<usize>>,
}

// Its parts are dropped by one call: docs/DESIGN.md, "What proofs cost".
impl Drop for Children {
    fn drop(self) {
        let Children { lists: _ } = self;
    }
}

impl Children {
    /// Of no entries. It takes no memory.
    pub(crate) fn new(alloc: Global) -> Children
        ensures { AreListed [] result }
    {
        Children {
            lists: BTreeMap::new(alloc),
        }
    }

    /// Where the direct entries of the path with these bytes stand.
    pub(crate) fn of(&self, bytes: &Text) -> &[usize]
        ensures { result.now ≡ children_in self.now bytes.now }
    {
        match self.lists.get(bytes) {
            Some(list) => list.as_slice(),
            None => &[],
        }
    }

    /// Takes out where the direct entries of the path with these bytes stand.
    fn take(&mut self, alloc: Global, bytes: &Text) -> Vec<usize>
        ensures list { result.items ≡ children_in self.old bytes.now }
        ensures rest { (b : List ℕ) → (b ≡ bytes.now → ⊥) → children_in self.new b ≡ children_in self.old b }
    {
        match self.lists.remove(bytes) {
            Some(list) => list,
            None => Vec::new(alloc),
        }
    }

    /// One more stands below the path with these bytes. It fails only for want of memory.
    fn below(self, alloc: Global, parent: &Text, at: usize) -> Result<Children, Memory>
        ensures { IfOk result (λ children. IsBelow parent.now at self children) }
    {
        let mut children = self;
        let mut list = children.take(alloc, parent);
        list.push(at)?;
        children.lists.insert(parent.copy(alloc)?, list)?;
        Ok(children)
    }

    /// An entry of this path is added there, at the end. It fails only for want of memory.
    pub(crate) fn with(self, alloc: Global, path: &Place, at: usize) -> Result<Children, Memory>
        ensures { IfOk result (λ children. (es : List AnEntry) (e : AnEntry) → AreListed es self → e.path ≡ path.now → at ≡ length es → AreListed (es ++ e ∷ []) children) }
    {
        if path.depth() == 0 {
            return Ok(self);
        }
        let parent = path.up(alloc, 1)?.path(alloc)?;
        self.below(alloc, parent.text(), at)
    }
}
