// One look at a path.
ghost use Rattle.wx_holding.specs.Calm.{FindsEntries, IsReadable, IsStill, break_found, here_found};
ghost use Rattle.wx_recursor.specs.Seen.{guard_found_at, look_at_node, root_found};
ghost use Rattle.wx_scan.specs.Told.{AreNames, IsNamed};
ghost use Rattle.wx_tree.specs.Trees.{Tree, guard_of, is_directory, is_safe, node_at};
ghost use Rattle.std.specs.Prelude.{◌≡◌, ◌≤◌, false, true, IfOk, OnOk, OnSome, length, map};
ghost use Rattle.wx_tree.specs.Places.{place};
ghost use Rattle.wx_recursor.specs.declared.answers.GuardFound.TheVariants.{Nowhere};
ghost use Rattle.wx_scan.specs.Looked.{OnlyLooks, Rose};

use std::alloc::Global;
use wx_recursor::{Found, GuardFound, Identity, Look};
use wx_scan::{EntryKind, ScanError, Scanner};
use wx_text::{Copies, List, Memory};
use wx_tree::Place;
use wx_words::TextPath;

/// What one look at a path finds. It fails only for want of memory.
pub fn look<S: Scanner>(
    alloc: Global,
    path: &Place,
    follow: bool,
    scan: &mut S,
) -> Result<Look, Memory>
    ensures looked { OnlyLooks (S.looked scan.old) (S.looked scan.new) }
    ensures raised { OnOk result (Rose (S.looked scan.old).looks (S.looked scan.new).looks) }
    ensures rest { S.rest scan.new ≡ S.rest scan.old }
    ensures place { S.place scan.new ≡ S.place scan.old }
    ensures told { (t : Tree) → follow ≡ false → IsStill t (S.looked scan.old) (S.looked scan.new) → IsReadable t path.now → IfOk result (λ look. look ≡ look_at_node path.now (node_at t path.now)) }
{
    let spelled = path.path(alloc)?;
    match scan.classify(&spelled, follow) {
        Ok(EntryKind::Directory(canonical)) => {
            Ok(Look::Directory(Place::new(alloc, &canonical)?))
        }
        Ok(EntryKind::NonFollowedSymlink) => Ok(Look::Linked),
        Ok(EntryKind::Other) => Ok(Look::Other),
        Err(ScanError::NotFound) => Ok(Look::Absent),
        Err(ScanError::Io(code)) => Ok(Look::Broken(code)),
        Err(ScanError::Memory) => Err(Memory),
    }
}

/// Searches the guard of a path, links not followed: the last directory on the way down from /. It fails only for want of
/// memory.
fn find_last<S: Scanner>(alloc: Global, path: &Place, scan: &mut S) -> Result<GuardFound, Memory>
    ensures looked { OnlyLooks (S.looked scan.old) (S.looked scan.new) }
    ensures raised { OnOk result (1 ≤ length path.now → Rose (S.looked scan.old).looks (S.looked scan.new).looks) }
    ensures top { IfOk result (λ found. length path.now ≡ 0 → found ≡ Nowhere) }
    ensures rest { S.rest scan.new ≡ S.rest scan.old }
    ensures place { S.place scan.new ≡ S.place scan.old }
    ensures told { (t : Tree) → IsStill t (S.looked scan.old) (S.looked scan.new) → AreNames path.now → IfOk result (λ found. found ≡ guard_found_at (guard_of t path.now)) }
{
    let mut found = GuardFound::Nowhere;
    let mut level = path.depth();
    while level > 0 {
        let above = path.up(alloc, level)?;
        match look(alloc, &above, false, scan)? {
            Look::Directory(canonical) => {
                found = GuardFound::At(above, Identity::Canonical(canonical));
            }
            Look::Absent | Look::Linked | Look::Other | Look::Broken(_) => return Ok(found),
        }
        level -= 1;
    }
    Ok(found)
}

/// Searches the guard of a path, links followed: the nearest directory above. It fails only for want of memory.
fn find_nearest<S: Scanner>(alloc: Global, path: &Place, scan: &mut S) -> Result<GuardFound, Memory>
    ensures looked { OnlyLooks (S.looked scan.old) (S.looked scan.new) }
    ensures raised { OnOk result (1 ≤ length path.now → Rose (S.looked scan.old).looks (S.looked scan.new).looks) }
    ensures top { IfOk result (λ found. length path.now ≡ 0 → found ≡ Nowhere) }
    ensures rest { S.rest scan.new ≡ S.rest scan.old }
    ensures place { S.place scan.new ≡ S.place scan.old }
{
    let depth = path.depth();
    let mut level = 0;
    while level < depth {
        level += 1;
        let above = path.up(alloc, level)?;
        match look(alloc, &above, true, scan)? {
            Look::Directory(canonical) => {
                return Ok(GuardFound::At(above, Identity::Canonical(canonical)));
            }
            Look::Broken(code) => return Ok(GuardFound::Faulty(above, code)),
            Look::Absent | Look::Linked | Look::Other => {}
        }
    }
    Ok(GuardFound::Nowhere)
}

/// Searches the directory that is to guard a path. It fails only for want of memory.
pub fn find_guard<S: Scanner>(
    alloc: Global,
    path: &Place,
    follow: bool,
    scan: &mut S,
) -> Result<GuardFound, Memory>
    ensures looked { OnlyLooks (S.looked scan.old) (S.looked scan.new) }
    ensures raised { OnOk result (1 ≤ length path.now → Rose (S.looked scan.old).looks (S.looked scan.new).looks) }
    ensures top { IfOk result (λ found. length path.now ≡ 0 → found ≡ Nowhere) }
    ensures rest { S.rest scan.new ≡ S.rest scan.old }
    ensures place { S.place scan.new ≡ S.place scan.old }
    ensures told { (t : Tree) → follow ≡ false → IsStill t (S.looked scan.old) (S.looked scan.new) → AreNames path.now → IfOk result (λ found. found ≡ guard_found_at (guard_of t path.now)) }
{
    if follow {
        find_nearest(alloc, path, scan)
    } else {
        find_last(alloc, path, scan)
    }
}

/// Looks at the way down to a path: what breaks it, if anything does. It fails only for want of memory.
fn find_break<S: Scanner>(
    alloc: Global,
    path: &Place,
    scan: &mut S,
) -> Result<Option<Found>, Memory>
    ensures looked { OnlyLooks (S.looked scan.old) (S.looked scan.new) }
    ensures raised { IfOk result (λ found. OnSome found (Rose (S.looked scan.old).looks (S.looked scan.new).looks)) }
    ensures rest { S.rest scan.new ≡ S.rest scan.old }
    ensures place { S.place scan.new ≡ S.place scan.old }
    ensures told { (t : Tree) → IsStill t (S.looked scan.old) (S.looked scan.new) → AreNames path.now → IfOk result (λ found. found ≡ break_found t path.now) }
{
    let mut level = path.depth();
    while level > 0 {
        let above = path.up(alloc, level)?;
        match look(alloc, &above, false, scan)? {
            Look::Directory(_) => {}
            Look::Absent => return Ok(Some(Found::Missing)),
            Look::Linked | Look::Other => return Ok(Some(Found::Barred)),
            Look::Broken(code) => return Ok(Some(Found::Fault(above, code))),
        }
        level -= 1;
    }
    Ok(None)
}

/// Whether each path above is a directory, and the path is a directory or a file. It fails only for want of memory.
pub fn is_safe<S: Scanner>(
    alloc: Global,
    path: &Place,
    follow: bool,
    scan: &mut S,
) -> Result<bool, Memory>
    ensures looked { OnlyLooks (S.looked scan.old) (S.looked scan.new) }
    ensures raised { OnOk result (Rose (S.looked scan.old).looks (S.looked scan.new).looks) }
    ensures rest { S.rest scan.new ≡ S.rest scan.old }
    ensures place { S.place scan.new ≡ S.place scan.old }
    ensures told { (t : Tree) → follow ≡ false → IsStill t (S.looked scan.old) (S.looked scan.new) → AreNames path.now → IfOk result (λ safe. safe ≡ is_safe t path.now) }
{
    match look_at_root(alloc, path, follow, scan)? {
        Found::Here(_) => Ok(true),
        Found::Missing
        | Found::Barred
        | Found::Rejected
        | Found::Fault(_, _)
        | Found::Refused(_)
        | Found::Entries(_) => Ok(false),
    }
}

/// Looks at a path itself. It fails only for want of memory.
pub fn look_here<S: Scanner>(
    alloc: Global,
    path: &Place,
    follow: bool,
    scan: &mut S,
) -> Result<Found, Memory>
    ensures looked { OnlyLooks (S.looked scan.old) (S.looked scan.new) }
    ensures raised { OnOk result (Rose (S.looked scan.old).looks (S.looked scan.new).looks) }
    ensures rest { S.rest scan.new ≡ S.rest scan.old }
    ensures place { S.place scan.new ≡ S.place scan.old }
    ensures told { (t : Tree) → follow ≡ false → IsStill t (S.looked scan.old) (S.looked scan.new) → IsReadable t path.now → IfOk result (λ found. found ≡ here_found path.now (node_at t path.now)) }
{
    match look(alloc, path, follow, scan)? {
        Look::Directory(canonical) => Ok(Found::Here(Identity::Canonical(canonical))),
        Look::Other => Ok(Found::Here(Identity::Lexical(path.copy(alloc)?))),
        Look::Linked => Ok(Found::Barred),
        Look::Absent => Ok(Found::Missing),
        Look::Broken(code) => Ok(Found::Fault(path.copy(alloc)?, code)),
    }
}

/// Looks at a root: at the way down to it, where links aren't followed, and then at itself. It fails only for want of
/// memory.
pub fn look_at_root<S: Scanner>(
    alloc: Global,
    path: &Place,
    follow: bool,
    scan: &mut S,
) -> Result<Found, Memory>
    ensures looked { OnlyLooks (S.looked scan.old) (S.looked scan.new) }
    ensures raised { OnOk result (Rose (S.looked scan.old).looks (S.looked scan.new).looks) }
    ensures rest { S.rest scan.new ≡ S.rest scan.old }
    ensures place { S.place scan.new ≡ S.place scan.old }
    ensures told { (t : Tree) → follow ≡ false → IsStill t (S.looked scan.old) (S.looked scan.new) → AreNames path.now → IfOk result (λ found. found ≡ root_found t path.now) }
{
    if !follow {
        if let Some(found) = find_break(alloc, path, scan)? {
            return Ok(found);
        }
    }
    look_here(alloc, path, follow, scan)
}

/// The places of these paths. It fails only for want of memory.
fn places(alloc: Global, paths: &[TextPath]) -> Result<List<Place>, Memory>
    ensures { IfOk result (λ places. places ≡ map place paths.now) }
{
    let mut places = List::new(alloc);
    for path in paths {
        places.push(Place::new(alloc, path)?)?;
    }
    Ok(places)
}

/// Lists a directory. It fails only for want of memory.
pub fn list<S: Scanner>(alloc: Global, path: &Place, scan: &mut S) -> Result<Found, Memory>
    ensures looked { OnlyLooks (S.looked scan.old) (S.looked scan.new) }
    ensures raised { OnOk result (Rose (S.looked scan.old).looks (S.looked scan.new).looks) }
    ensures rest { S.rest scan.new ≡ S.rest scan.old }
    ensures place { S.place scan.new ≡ S.place scan.old }
    ensures told { (t : Tree) → IsStill t (S.looked scan.old) (S.looked scan.new) → IsNamed t → IsReadable t path.now → is_directory t path.now ≡ true → IfOk result (λ found. FindsEntries t path.now found) }
{
    let spelled = path.path(alloc)?;
    match scan.scan(&spelled) {
        Ok(paths) => Ok(Found::Entries(places(alloc, paths.as_slice())?)),
        Err(ScanError::NotFound) => Ok(Found::Missing),
        Err(ScanError::Io(code)) => Ok(Found::Fault(path.copy(alloc)?, code)),
        Err(ScanError::Memory) => Err(Memory),
    }
}
