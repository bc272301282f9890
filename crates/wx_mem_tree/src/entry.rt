// What stands where.
ghost use Rattle.std.specs.Prelude.{◌≡◌, None, Some, [], ◌∷◌, ◌++◌, List as ListOf, map, slice_get, IfNone, IfOk, IfSome, OnErr, OnOk};
ghost use Rattle.wx_tree.specs.Places.{spelled};
ghost use Rattle.wx_mem_tree.specs.Entries.{entries_of, found_at, put_node, without_path};
ghost use Rattle.wx_mem_tree.specs.Children.{paths_at, with_path};
ghost use Rattle.wx_tree.specs.Paths.{Path};
ghost use Rattle.wx_mem_tree.specs.Indexed.{AreIndexed, place_of};

use crate::index::{EntryIndex, Indexed, grown};
use std::alloc::Global;
use wx_text::{List, Memory};
use wx_tree::{Node, Place};
use wx_words::TextPath;

/// What stands at a path.
pub struct MemEntry {
    pub path: Place,
    pub node: Node,
}

// Its parts are dropped by one call: docs/DESIGN.md, "What proofs cost".
impl Drop for MemEntry {
    fn drop(self) {
        let MemEntry { path: _, node: _ } = self;
    }
}

/// What stands at this path. It fails only for want of memory.
pub fn found_at<'a>(
    alloc: Global,
    path: &Place,
    entries: &Indexed<'a>,
) -> Result<Option<&'a MemEntry>, Memory>
    ensures none { IfOk result (λ found. IfNone found (found_at path.now entries.now ≡ None)) }
    ensures some { IfOk result (λ found. IfSome found (λ e. found_at path.now entries.now ≡ Some e.now)) }
{
    match entries.place(alloc, path)? {
        Some(at) => Ok(entries.entries.get(at)),
        None => Ok(None),
    }
}

/// Where the entry of this path stands, where there is one. It fails only for want of memory.
fn place_at(
    alloc: Global,
    path: &Place,
    entries: &[MemEntry],
    index: &Option<EntryIndex>,
) -> Result<Option<usize>, Memory>
    requires { AreIndexed entries.now index.now }
    ensures { IfOk result (λ place. place ≡ place_of path.now entries.now) }
{
    Indexed { entries, index }.place(alloc, path)
}

/// Adds an entry behind all others. Its path has none yet. It fails only for want of memory, and adds none then.
fn add(
    alloc: Global,
    entries: &mut Vec<MemEntry>,
    index: &mut Option<EntryIndex>,
    entry: MemEntry,
) -> Result<(), Memory>
    requires indexed { AreIndexed entries.old.items index.old }
    requires new { place_of entry.path entries.old.items ≡ None }
    ensures ok { OnOk result (entries.new.items ≡ entries.old.items ++ entry ∷ []) }
    ensures err { OnErr result (entries.new.items ≡ entries.old.items) }
    ensures indexed { AreIndexed entries.new.items index.new }
{
    let more = grown(alloc, index.take(), &entry.path, entries.len());
    entries.push(entry)?;
    *index = more;
    Ok(())
}

/// Puts a node at this path, in the place of what stands there, or behind all others. It fails only for want of memory, and
/// changes nothing then.
pub fn put_node(
    alloc: Global,
    entries: &mut Vec<MemEntry>,
    index: &mut Option<EntryIndex>,
    path: Place,
    node: Node,
) -> Result<(), Memory>
    requires { AreIndexed entries.old.items index.old }
    ensures ok { OnOk result (entries.new.items ≡ put_node path node entries.old.items) }
    ensures err { OnErr result (entries.new.items ≡ entries.old.items) }
    ensures indexed { AreIndexed entries.new.items index.new }
{
    match place_at(alloc, &path, entries.as_slice(), index) {
        Ok(Some(at)) => {
            entries[at].node = node;
            Ok(())
        }
        Ok(None) => add(alloc, entries, index, MemEntry { path, node }),
        Err(Memory) => Err(Memory),
    }
}

/// Takes this path away, and all below it.
pub fn take_path(entries: &mut Vec<MemEntry>, path: &Place)
    ensures { entries.new.items ≡ without_path path.now entries.old.items }
{
    entries.retain(|e| !path.holds(&e.path));
}

/// The direct entries of this path, looked for in all.
fn all_entries_of(
    alloc: Global,
    path: &Place,
    entries: &[MemEntry],
) -> Result<List<TextPath>, Memory>
    ensures { IfOk result (λ paths. paths ≡ map spelled (entries_of path.now entries.now)) }
{
    let mut paths = List::new(alloc);
    let mut rest = entries;
    while let [first, after @ ..] = rest {
        if path.has_entry(&first.path) {
            paths.push(first.path.path(alloc)?)?;
        }
        rest = after;
    }
    Ok(paths)
}

/// Adds the path of the entry that stands there, where there is one. It fails only for want of memory.
fn push_path(
    alloc: Global,
    at: usize,
    entries: &[MemEntry],
    out: &mut List<TextPath>,
) -> Result<(), Memory>
    ensures { OnOk result ((ps : ListOf Path) → out.new ++ map spelled ps ≡ out.old ++ map spelled (with_path (slice_get entries.now at) ps)) }
{
    match entries.get(at) {
        Some(entry) => out.push(entry.path.path(alloc)?),
        None => Ok(()),
    }
}

/// The paths of the entries that stand there.
fn paths_at(alloc: Global, places: &[usize], entries: &[MemEntry]) -> Result<List<TextPath>, Memory>
    ensures { IfOk result (λ paths. paths ≡ map spelled (paths_at places.now entries.now)) }
{
    let mut paths = List::new(alloc);
    let mut rest = places;
    while let [first, after @ ..] = rest {
        push_path(alloc, *first, entries, &mut paths)?;
        rest = after;
    }
    Ok(paths)
}

/// The direct entries of this path.
pub fn entries_of(
    alloc: Global,
    path: &Place,
    entries: &Indexed<'_>,
) -> Result<List<TextPath>, Memory>
    ensures { IfOk result (λ paths. paths ≡ map spelled (entries_of path.now entries.now)) }
{
    match entries.index {
        Some(index) => {
            let bytes = path.path(alloc)?;
            paths_at(alloc, index.children(bytes.text()), entries.entries)
        }
        None => all_entries_of(alloc, path, entries.entries),
    }
}
