// What the tree answers to each look.
ghost use Rattle.std.specs.Prelude.{◌≡◌, false, true, map, IfOk};
ghost use Rattle.wx_scan.specs.Told.{IsCanonical, IsKind, IsListed, IsStamp, SpellsPath, Unlinked, is_fault};
ghost use Rattle.wx_tree.specs.Paths.{Path, same};
ghost use Rattle.wx_tree.specs.Places.{spelled};
ghost use Rattle.wx_mem_tree.specs.Entries.{are_once, entries_of, stamp_at, tree_of};

use crate::entry::entries_of;
use crate::index::Indexed;
use crate::links::found;
use std::alloc::Global;
use wx_scan::{EntryKind, ScanError};
use wx_text::{List, Memory, Text};
use wx_tree::{Node, Place};
use wx_words::TextPath;

/// What stands at a path.
pub fn kind_at(
    alloc: Global,
    path: &TextPath,
    follow: bool,
    entries: &Indexed<'_>,
) -> Result<EntryKind, ScanError>
    ensures told { follow ≡ false → (p : Path) → SpellsPath (tree_of entries.now) p path.now → is_fault result ≡ false → IsKind result (tree_of entries.now) p }
    ensures calm { is_fault result ≡ false }
{
    let entry = found(alloc, path, follow, entries)?;
    match entry.node {
        Node::Dir => Ok(EntryKind::Directory(entry.path.path(alloc)?)),
        Node::File(_) => Ok(EntryKind::Other),
        Node::Link(_) => Ok(EntryKind::NonFollowedSymlink),
    }
}

/// The same path without links.
pub fn canonical_at(
    alloc: Global,
    path: &TextPath,
    entries: &Indexed<'_>,
) -> Result<TextPath, ScanError>
    ensures told { (p : Path) → SpellsPath (tree_of entries.now) p path.now → is_fault result ≡ false → Unlinked (IsCanonical result) (tree_of entries.now) p }
    ensures calm { is_fault result ≡ false }
{
    let entry = found(alloc, path, true, entries)?;
    Ok(entry.path.path(alloc)?)
}

/// The last part of a path, below this one.
fn moved(alloc: Global, to: &Place, path: &Place) -> Result<TextPath, Memory> {
    let mut text = Text::new(alloc);
    to.put_last(to.depth(), &mut text)?;
    if path.depth() > 0 {
        path.put_last(1, &mut text)?;
    }
    Ok(TextPath::new(text))
}

/// The entries of a directory, each below the path by which it was asked for.
fn listed_behind(
    alloc: Global,
    asked: &Place,
    directory: &Place,
    entries: &Indexed<'_>,
) -> Result<List<TextPath>, Memory> {
    let mut paths = List::new(alloc);
    let inside = entries_of(alloc, directory, entries)?;
    for path in inside.as_slice() {
        paths.push(moved(alloc, asked, &Place::new(alloc, path)?)?)?;
    }
    Ok(paths)
}

/// The entries of a directory, which the path may lead to by links.
fn listed(
    alloc: Global,
    asked: &Place,
    directory: &Place,
    entries: &Indexed<'_>,
) -> Result<List<TextPath>, Memory>
    ensures { same asked.now directory.now ≡ true → IfOk result (λ paths. paths ≡ map spelled (entries_of directory.now entries.now)) }
{
    if asked.is_same(directory) {
        entries_of(alloc, directory, entries)
    } else {
        listed_behind(alloc, asked, directory, entries)
    }
}

/// The entries of a directory, and none of what is no directory. Behind a link they are named below the path that was asked for.
pub fn listed_at(
    alloc: Global,
    path: &TextPath,
    entries: &Indexed<'_>,
) -> Result<List<TextPath>, ScanError>
    requires { are_once entries.now ≡ true }
    ensures told { (p : Path) → SpellsPath (tree_of entries.now) p path.now → is_fault result ≡ false → Unlinked (IsListed result) (tree_of entries.now) p }
    ensures calm { is_fault result ≡ false }
{
    let asked = Place::new(alloc, path)?;
    let entry = found(alloc, path, true, entries)?;
    match entry.node {
        Node::Dir => Ok(listed(alloc, &asked, &entry.path, entries)?),
        Node::File(_) => Ok(List::new(alloc)),
        Node::Link(_) => Ok(List::new(alloc)),
    }
}

/// The stamp of a file.
pub fn stamp_at(alloc: Global, path: &TextPath, entries: &Indexed<'_>) -> Result<u64, ScanError>
    ensures told { (p : Path) → SpellsPath (tree_of entries.now) p path.now → is_fault result ≡ false → Unlinked (IsStamp (stamp_at entries.now) result) (tree_of entries.now) p }
    ensures calm { is_fault result ≡ false }
{
    let entry = found(alloc, path, true, entries)?;
    match entry.node {
        Node::File(stamp) => Ok(stamp),
        Node::Dir => Ok(0),
        Node::Link(_) => Ok(0),
    }
}
