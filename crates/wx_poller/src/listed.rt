// What the registered paths show.
ghost use Rattle.std.specs.Prelude.{◌≡◌, ℕ, List, [], ◌∷◌, if◌then◌else◌, Some, None, true, false};
ghost use Rattle.std.specs.Option.{option_or};
ghost use Rattle.wx_scan.specs.Backings.{AllSpellPaths, is_registered};
ghost use Rattle.wx_scan.specs.Looked.{OnlyLooks, Rose};
ghost use Rattle.wx_scan.specs.Told.{IsNamed, SpellsPath, is_fault};
ghost use Rattle.wx_tree.specs.Paths.{Path, same_part};
ghost use Rattle.wx_tree.specs.Places.{place};
ghost use Rattle.wx_tree.specs.Trees.{Tree, is_there, node_at};
ghost use Rattle.wx_poller.specs.Fitting.{Agrees, Answers, IsKnown, IsTold, shown, type_of};
ghost use Rattle.wx_poller.specs.Listings.{type_at};
ghost use Rattle.wx_events.specs.declared.file_type.FileType.TheVariants.{Dir as AFolder};
ghost use Rattle.wx_tree.specs.declared.node.Node.TheVariants.{Dir as ADirectory};

use crate::listing::{Listing, put};
use crate::looking::look;
use crate::seen::Seen;
use std::alloc::Global;
use std::collections::BTreeMap;
use wx_events::FileType;
use wx_scan::{ScanError, Scanner};
use wx_text::Memory;
use wx_words::TextPath;

/// Looks at each of these, and puts what is seen. What is absent is passed over.
fn put_entries<S: Scanner>(
    alloc: Global,
    follow: bool,
    paths: &[TextPath],
    listing: &mut Listing,
    scan: &mut S,
) -> Result<(), ScanError>
    ensures looked { OnlyLooks (S.looked scan.old) (S.looked scan.new) }
    ensures rest { S.rest scan.new ≡ S.rest scan.old }
    ensures place { S.place scan.new ≡ S.place scan.old }
    ensures known { IsKnown result }
    ensures failed { is_fault result ≡ true → Rose (S.looked scan.old).faults (S.looked scan.new).faults }
    ensures told { (t : Tree) → IsTold t follow (S.looked scan.old) (S.looked scan.new) → AllSpellPaths t paths.now → Answers (λ _. (p : List ℕ) → type_at listing.new.entries p ≡ option_or (if is_registered p paths.now then type_of (node_at t (place p)) else None) (type_at listing.old.entries p)) result }
{
    let mut rest = paths;
    while let [first, after @ ..] = rest {
        match put_entry(alloc, follow, first, listing, scan) {
            Ok(()) => rest = after,
            Err(error) => return Err(error),
        }
    }
    Ok(())
}

/// Looks at a path, and puts what is seen.
#[tactic(auto, using(crate::proofs::Shown::entry_put, crate::proofs::Shown::entry_absent))]
fn put_entry<S: Scanner>(
    alloc: Global,
    follow: bool,
    path: &TextPath,
    listing: &mut Listing,
    scan: &mut S,
) -> Result<(), ScanError>
    ensures looked { OnlyLooks (S.looked scan.old) (S.looked scan.new) }
    ensures rest { S.rest scan.new ≡ S.rest scan.old }
    ensures place { S.place scan.new ≡ S.place scan.old }
    ensures known { IsKnown result }
    ensures failed { is_fault result ≡ true → Rose (S.looked scan.old).faults (S.looked scan.new).faults }
    ensures told { (t : Tree) (q : Path) → IsTold t follow (S.looked scan.old) (S.looked scan.new) → SpellsPath t q path.now → Answers (λ _. (p : List ℕ) → type_at listing.new.entries p ≡ option_or (if same_part path.now p then type_of (node_at t (place p)) else None) (type_at listing.old.entries p)) result }
{
    match look(path, follow, scan) {
        Ok(None) => Ok(()),
        Ok(Some(seen)) => put_seen(alloc, path, seen, listing),
        Err(error) => Err(error),
    }
}

/// Puts what was seen at a path. It fails only for want of memory.
fn put_seen(
    alloc: Global,
    path: &TextPath,
    seen: Seen,
    listing: &mut Listing,
) -> Result<(), ScanError>
    ensures { Answers (λ _. (p : List ℕ) → type_at listing.new.entries p ≡ if same_part path.now p then Some seen.file_type else type_at listing.old.entries p) result }
{
    match put(alloc, path, seen, listing) {
        Ok(()) => Ok(()),
        Err(Memory) => Err(ScanError::Memory),
    }
}

/// Puts what was seen at a path, and answers that something is there. It fails only for want of memory.
fn put_there(
    alloc: Global,
    path: &TextPath,
    seen: Seen,
    listing: &mut Listing,
) -> Result<bool, ScanError>
    ensures put { Answers (λ _. (p : List ℕ) → type_at listing.new.entries p ≡ if same_part path.now p then Some seen.file_type else type_at listing.old.entries p) result }
    ensures there { Answers (λ found. found ≡ true) result }
    ensures failed { is_fault result ≡ false }
{
    match put(alloc, path, seen, listing) {
        Ok(()) => Ok(true),
        Err(Memory) => Err(ScanError::Memory),
    }
}

/// Puts what a path shows: itself, and the direct entries of a directory. It answers whether something is there.
pub fn list_at<S: Scanner>(
    alloc: Global,
    follow: bool,
    path: &TextPath,
    listing: &mut Listing,
    scan: &mut S,
) -> Result<bool, ScanError>
    ensures looked { OnlyLooks (S.looked scan.old) (S.looked scan.new) }
    ensures rest { S.rest scan.new ≡ S.rest scan.old }
    ensures place { S.place scan.new ≡ S.place scan.old }
    ensures failed { is_fault result ≡ true → Rose (S.looked scan.old).faults (S.looked scan.new).faults }
    ensures told { (t : Tree) (q : Path) → IsTold t follow (S.looked scan.old) (S.looked scan.new) → IsNamed t → SpellsPath t q path.now → Answers (λ _. (p : List ℕ) → type_at listing.new.entries p ≡ option_or (shown t (path.now ∷ []) p) (type_at listing.old.entries p)) result }
    ensures there { (t : Tree) (q : Path) → IsTold t follow (S.looked scan.old) (S.looked scan.new) → SpellsPath t q path.now → Answers (λ found. found ≡ is_there t q) result }
{
    match look(path, follow, scan) {
        Ok(None) => Ok(false),
        Ok(Some(seen)) => match seen.file_type {
            FileType::Dir => list_directory(alloc, follow, path, seen, listing, scan),
            FileType::File => put_there(alloc, path, seen, listing),
            FileType::Symlink => put_there(alloc, path, seen, listing),
            FileType::Other => put_there(alloc, path, seen, listing),
        },
        Err(error) => Err(error),
    }
}

/// Puts a directory and its direct entries. It may be gone meanwhile.
fn list_directory<S: Scanner>(
    alloc: Global,
    follow: bool,
    path: &TextPath,
    seen: Seen,
    listing: &mut Listing,
    scan: &mut S,
) -> Result<bool, ScanError>
    ensures looked { OnlyLooks (S.looked scan.old) (S.looked scan.new) }
    ensures rest { S.rest scan.new ≡ S.rest scan.old }
    ensures place { S.place scan.new ≡ S.place scan.old }
    ensures failed { is_fault result ≡ true → Rose (S.looked scan.old).faults (S.looked scan.new).faults }
    ensures told { (t : Tree) (q : Path) → IsTold t follow (S.looked scan.old) (S.looked scan.new) → IsNamed t → SpellsPath t q path.now → node_at t q ≡ Some ADirectory → seen.file_type ≡ AFolder → Answers (λ _. (p : List ℕ) → type_at listing.new.entries p ≡ option_or (shown t (path.now ∷ []) p) (type_at listing.old.entries p)) result }
    ensures there { (t : Tree) (q : Path) → IsTold t follow (S.looked scan.old) (S.looked scan.new) → SpellsPath t q path.now → node_at t q ≡ Some ADirectory → Answers (λ found. found ≡ true) result }
{
    match scan.scan(path) {
        Ok(entries) => match put_entries(alloc, follow, entries.as_slice(), listing, scan) {
            Ok(()) => put_there(alloc, path, seen, listing),
            Err(error) => Err(error),
        },
        Err(ScanError::NotFound) => Ok(false),
        Err(ScanError::Io(code)) => Err(ScanError::Io(code)),
        Err(ScanError::Memory) => Err(ScanError::Memory),
    }
}

/// What all these paths show.
pub fn list_all<S: Scanner>(
    alloc: Global,
    follow: bool,
    paths: &[TextPath],
    scan: &mut S,
) -> Result<Listing, ScanError>
    ensures looked { OnlyLooks (S.looked scan.old) (S.looked scan.new) }
    ensures rest { S.rest scan.new ≡ S.rest scan.old }
    ensures place { S.place scan.new ≡ S.place scan.old }
    ensures failed { is_fault result ≡ true → Rose (S.looked scan.old).faults (S.looked scan.new).faults }
    ensures told { (t : Tree) → IsTold t follow (S.looked scan.old) (S.looked scan.new) → IsNamed t → AllSpellPaths t paths.now → Answers (λ listing. Agrees t paths.now listing.entries) result }
{
    let mut listing = BTreeMap::new(alloc);
    let mut rest = paths;
    while let [first, after @ ..] = rest {
        match list_at(alloc, follow, first, &mut listing, scan) {
            Ok(_) => rest = after,
            Err(error) => return Err(error),
        }
    }
    Ok(listing)
}
