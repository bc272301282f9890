// Where entries stand in their list.
ghost use Rattle.std.specs.Prelude.{◌≡◌, [], ◌∷◌, ◌++◌, true, List, None, Some, length, IfOk};
ghost use Rattle.wx_tree.specs.Places.{place, spelled};
ghost use Rattle.wx_mem_tree.specs.Entries.{are_once};
ghost use Rattle.wx_mem_tree.specs.Children.{children_in};
ghost use Rattle.wx_mem_tree.specs.Indexed.{AreFound, AreIndexed, place_in, place_of};
ghost use Rattle.wx_mem_tree.specs.declared.entry.MemEntry.{MemEntry as AnEntry};

use crate::children::Children;
use crate::entry::MemEntry;
use std::alloc::Global;
use std::collections::BTreeMap;
use std::marker::Model;
use wx_text::{Copies, Memory, Text};
use wx_tree::Place;

/// Where each entry stands in its list, by the bytes of its path, and where those stand that are directly below a path.
pub(crate) struct EntryIndex {
    places: BTreeMap<Text, usize>,
    children: Children,
}

// Its parts are dropped by one call: docs/DESIGN.md, "What proofs cost".
impl Drop for EntryIndex {
    fn drop(self) {
        let EntryIndex {
            places: _,
            children: _,
        } = self;
    }
}

impl EntryIndex {
    /// Of no entries. It takes no memory.
    pub(crate) fn new(alloc: Global) -> EntryIndex
        ensures { AreFound [] result }
    {
        EntryIndex {
            places: BTreeMap::new(alloc),
            children: Children::new(alloc),
        }
    }

    /// Where the entry of the path with these bytes stands, where there is one.
    fn place(&self, bytes: &Text) -> Option<usize>
        ensures { result ≡ place_in self.now bytes.now }
    {
        self.places.get(bytes).copied()
    }

    /// Where the direct entries of the path with these bytes stand.
    pub(crate) fn children(&self, bytes: &Text) -> &[usize]
        ensures { result.now ≡ children_in self.now.children bytes.now }
    {
        self.children.of(bytes)
    }

    /// The entry of a path that has none is added there, at the end. It fails only for want of memory.
    fn with(self, alloc: Global, path: &Place, at: usize) -> Result<EntryIndex, Memory>
        ensures { IfOk result (λ index. (es : List AnEntry) (e : AnEntry) → AreFound es self → e.path ≡ path.now → place_of path.now es ≡ None → at ≡ length es → AreFound (es ++ e ∷ []) index) }
    {
        let EntryIndex {
            mut places,
            children,
        } = self;
        let children = children.with(alloc, path, at)?;
        let bytes = path.path(alloc)?;
        places.insert(bytes.text().copy(alloc)?, at)?;
        Ok(EntryIndex { places, children })
    }
}

/// The entry of a path that has none is added there, at the end, as long as there is an index and memory for it.
pub(crate) fn grown(
    alloc: Global,
    index: Option<EntryIndex>,
    path: &Place,
    at: usize,
) -> Option<EntryIndex>
    ensures { (es : List AnEntry) (e : AnEntry) → AreIndexed es index → e.path ≡ path.now → place_of path.now es ≡ None → at ≡ length es → AreIndexed (es ++ e ∷ []) result }
{
    match index {
        Some(index) => match index.with(alloc, path, at) {
            Ok(index) => Some(index),
            Err(Memory) => None,
        },
        None => None,
    }
}

/// The index of these, where there is memory for it.
pub(crate) fn index_of_all(alloc: Global, entries: &[MemEntry]) -> Option<EntryIndex>
    requires { are_once entries.now ≡ true }
    ensures { AreIndexed entries.now result }
{
    let mut index = Some(EntryIndex::new(alloc));
    for at in 0..entries.len() {
        index = grown(alloc, index, &entries[at].path, at);
    }
    index
}

/// Entries, and where there is an index, by which they are found. Contracts see the entries.
#[derive(Drop)]
pub(crate) struct Indexed<'a> {
    pub(crate) entries: &'a [MemEntry],
    pub(crate) index: &'a Option<EntryIndex>,
}

impl<'a> Model for Indexed<'a> {
    ghost use Rattle.std.specs.Prelude.{List};
    ghost use Rattle.wx_mem_tree.specs.declared.entry.MemEntry.{MemEntry};
    ghost use Rattle.wx_mem_tree.specs.Indexed.{AreIndexed};

    ghost Value = { List MemEntry };

    ghost view = { λ i. i.entries.now };

    ghost invariant = { λ i. AreIndexed i.entries.now i.index.now };
}

impl<'a> Indexed<'a> {
    /// Where the entry of this path stands, where there is one. It fails only for want of memory.
    pub(crate) fn place(&self, alloc: Global, path: &Place) -> Result<Option<usize>, Memory>
        ensures { IfOk result (λ place. place ≡ place_of path.now self.now) }
    {
        match self.index {
            Some(index) => {
                let bytes = path.path(alloc)?;
                Ok(index.place(bytes.text()))
            }
            None => Ok(place_of(path, self.entries)),
        }
    }
}

/// Where the entry of this path stands, where there is one.
fn place_of(path: &Place, entries: &[MemEntry]) -> Option<usize>
    ensures { result ≡ place_of path.now entries.now }
{
    for at in 0..entries.len() {
        if entries[at].path.is_same(path) {
            return Some(at);
        }
    }
    None
}
