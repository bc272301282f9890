// Where links lead.
ghost use Rattle.std.specs.Prelude.{◌≡◌, ◌≤◌, false, None, Some, IfOk, IfErr, length};
ghost use Rattle.wx_scan.specs.Told.{IsAbsent, SpellsPath, is_fault, is_link_node};
ghost use Rattle.wx_scan.specs.declared.scanner.ScanError.TheVariants.{Memory as OutOfMemory};
ghost use Rattle.wx_tree.specs.Paths.{Path};
ghost use Rattle.wx_tree.specs.Trees.{node_at};
ghost use Rattle.wx_mem_tree.specs.Entries.{IsWithin, found_at, has_link_on, node_found, tree_of};

use crate::entry::{MemEntry, found_at};
use crate::index::Indexed;
use std::alloc::Global;
use wx_paths::normalize;
use wx_scan::ScanError;
use wx_text::{Memory, Text};
use wx_tree::{Node, Place};
use wx_words::TextPath;

/// How many links are followed, until a path counts as one that leads nowhere.
const LINKS: u32 = 40;

/// Whether a link stands at this path.
fn is_link(alloc: Global, path: &Place, entries: &Indexed<'_>) -> Result<bool, Memory>
    ensures { IfOk result (λ is. is ≡ is_link_node (node_found (found_at path.now entries.now))) }
{
    match found_at(alloc, path, entries)? {
        None => Ok(false),
        Some(entry) => match entry.node {
            Node::Link(_) => Ok(true),
            Node::Dir | Node::File(_) => Ok(false),
        },
    }
}

/// How many levels above the path its topmost link stands, the path itself taken too or not.
fn link_level(
    alloc: Global,
    path: &Place,
    with_last: bool,
    entries: &Indexed<'_>,
) -> Result<Option<usize>, Memory>
    ensures within { IfOk result (λ found. IsWithin found path.now) }
    ensures none { has_link_on with_last (tree_of entries.now) path.now ≡ false → IfOk result (λ found. found ≡ None) }
{
    let mut level = path.depth();
    while level > 0 {
        if is_link(alloc, &path.up(alloc, level)?, entries)? {
            return Ok(Some(level));
        }
        level -= 1;
    }
    if with_last && is_link(alloc, path, entries)? {
        return Ok(Some(0));
    }
    Ok(None)
}

/// The path with the link so many levels above it replaced by where it leads.
fn followed(
    alloc: Global,
    path: &Place,
    level: usize,
    entries: &Indexed<'_>,
) -> Result<Place, Memory>
    requires { level ≤ length path.now }
{
    let link = path.up(alloc, level)?;
    let mut text = Text::new(alloc);
    if let Some(entry) = found_at(alloc, &link, entries)? {
        if let Node::Link(target) = &entry.node {
            put_target(alloc, &link, target, &mut text)?;
        }
    }
    path.put_last(level, &mut text)?;
    Place::new(alloc, &normalize(alloc, &TextPath::new(text))?)
}

/// Appends the path to which a link at this place leads: from the directory of the link, where it isn't absolute.
fn put_target(
    alloc: Global,
    link: &Place,
    target: &TextPath,
    out: &mut Text,
) -> Result<(), Memory> {
    let bytes = target.text().as_slice();
    if !matches!(bytes, [b'/', ..]) {
        if link.depth() > 0 {
            out.append(link.up(alloc, 1)?.path(alloc)?.text().as_slice())?;
        }
        out.push(b'/')?;
    }
    out.append(bytes)
}

/// The same path without links, where a link stands so many levels above it.
fn all_followed(
    alloc: Global,
    path: Place,
    level: usize,
    with_last: bool,
    entries: &Indexed<'_>,
) -> Result<Place, ScanError>
    requires { level ≤ length path }
    ensures { is_fault result ≡ false }
{
    let mut place = followed(alloc, &path, level, entries)?;
    for _ in 1..LINKS {
        match link_level(alloc, &place, with_last, entries)? {
            None => return Ok(place),
            Some(level) => place = followed(alloc, &place, level, entries)?,
        }
    }
    Err(ScanError::NotFound)
}

/// The same path without links, but perhaps for the last.
fn resolved(
    alloc: Global,
    path: Place,
    with_last: bool,
    entries: &Indexed<'_>,
) -> Result<Place, ScanError>
    ensures ok { has_link_on with_last (tree_of entries.now) path ≡ false → IfOk result (λ found. found ≡ path) }
    ensures err { has_link_on with_last (tree_of entries.now) path ≡ false → IfErr result (λ error. error ≡ OutOfMemory) }
    ensures calm { is_fault result ≡ false }
{
    match link_level(alloc, &path, with_last, entries)? {
        None => Ok(path),
        Some(level) => all_followed(alloc, path, level, with_last, entries),
    }
}

/// What stands at this path.
fn there<'a>(alloc: Global, place: &Place, entries: &Indexed<'a>) -> Result<&'a MemEntry, ScanError>
    ensures ok { IfOk result (λ entry. found_at place.now entries.now ≡ Some entry.now) }
    ensures err { IfErr result (λ error. IsAbsent error (node_found (found_at place.now entries.now))) }
    ensures calm { is_fault result ≡ false }
{
    match found_at(alloc, place, entries)? {
        None => Err(ScanError::NotFound),
        Some(entry) => Ok(entry),
    }
}

/// What stands at a path, behind links.
pub fn found<'a>(
    alloc: Global,
    path: &TextPath,
    with_last: bool,
    entries: &Indexed<'a>,
) -> Result<&'a MemEntry, ScanError>
    ensures ok { (p : Path) → SpellsPath (tree_of entries.now) p path.now → has_link_on with_last (tree_of entries.now) p ≡ false → IfOk result (λ entry. found_at p entries.now ≡ Some entry.now) }
    ensures err { (p : Path) → SpellsPath (tree_of entries.now) p path.now → has_link_on with_last (tree_of entries.now) p ≡ false → IfErr result (λ error. IsAbsent error (node_at (tree_of entries.now) p)) }
    ensures calm { is_fault result ≡ false }
{
    match resolved(alloc, Place::new(alloc, path)?, with_last, entries) {
        Err(error) => Err(error),
        Ok(place) => there(alloc, &place, entries),
    }
}
