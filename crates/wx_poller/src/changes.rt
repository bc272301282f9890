// What changed between two listings.
ghost use Rattle.std.specs.Prelude.{◌≡◌, ◌∷◌, ◌++◌, [], not, map, filter, OnOk, IfOk, Option, Some, None, false};
ghost use Rattle.wx_events.specs.declared.file_type.FileType.TheVariants as type;
ghost use Rattle.wx_poller.specs.Changes.{changes, creation, has_stamp, has_type, is_kept, is_modified, modification, removal, told};
ghost use Rattle.wx_poller.specs.Listings.{IsMap, is_dir, is_file, is_other, is_symlink, same_type};

use crate::listing::{Listing, seen_at};
use crate::seen::Seen;
use std::alloc::Global;
use wx_events::{CreateKind, DataChange, FileEventKind, FileType, ModifyKind, RemoveKind};
use wx_notify::{Notify, NotifyPath};
use wx_text::{Copies, List, Memory};
use wx_words::TextPath;

/// Whether both are the same kind.
fn is_same_type(one: FileType, other: FileType) -> bool
    ensures { result ≡ same_type one other }
{
    match one {
        FileType::File => matches!(other, FileType::File),
        FileType::Dir => matches!(other, FileType::Dir),
        FileType::Symlink => matches!(other, FileType::Symlink),
        FileType::Other => matches!(other, FileType::Other),
    }
}

/// Whether something of this kind was seen.
pub fn has_type(file_type: FileType, found: Option<Seen>) -> bool
    ensures { result ≡ has_type file_type found }
{
    match found {
        Some(seen) => is_same_type(seen.file_type, file_type),
        None => false,
    }
}

/// Whether something with this stamp was seen.
fn has_stamp(stamp: u64, found: Option<Seen>) -> bool
    ensures { result ≡ has_stamp stamp found }
{
    match found {
        Some(seen) => seen.stamp == stamp,
        None => false,
    }
}

/// Whether the other listing has this path too, with the same kind.
fn is_kept(other: &Listing, path: &TextPath, seen: Seen) -> bool
    ensures { result ≡ is_kept other.now.entries (path.now, seen) }
{
    has_type(seen.file_type, seen_at(path, other))
}

/// Whether the other listing has this path too, with the same kind and another stamp.
fn is_modified(other: &Listing, path: &TextPath, seen: Seen) -> bool
    ensures { result ≡ is_modified other.now.entries (path.now, seen) }
{
    is_kept(other, path, seen) && !has_stamp(seen.stamp, seen_at(path, other))
}

/// What tells that a path of this kind is gone.
fn removal(file_type: FileType) -> FileEventKind
    ensures { result ≡ removal file_type }
{
    match file_type {
        FileType::File => FileEventKind::Remove(RemoveKind::File),
        FileType::Dir => FileEventKind::Remove(RemoveKind::Folder),
        FileType::Symlink => FileEventKind::Remove(RemoveKind::Any),
        FileType::Other => FileEventKind::Remove(RemoveKind::Any),
    }
}

/// What tells that a path of this kind is new.
fn creation(file_type: FileType) -> FileEventKind
    ensures { result ≡ creation file_type }
{
    match file_type {
        FileType::File => FileEventKind::Create(CreateKind::File),
        FileType::Dir => FileEventKind::Create(CreateKind::Folder),
        FileType::Symlink => FileEventKind::Create(CreateKind::Any),
        FileType::Other => FileEventKind::Create(CreateKind::Any),
    }
}

/// Adds an event about one path.
fn put_event(
    alloc: Global,
    kind: FileEventKind,
    path: &TextPath,
    seen: Seen,
    events: &mut List<Notify>,
) -> Result<(), Memory>
    ensures { OnOk result (events.new ≡ events.old ++ told (λ _. kind) (path.now, seen) ∷ []) }
{
    let mut paths = List::new(alloc);
    paths.push(NotifyPath {
        path: path.copy(alloc)?,
        file_type: Some(seen.file_type),
    })?;
    events.push(Notify {
        kind,
        paths,
        rescan: false,
        process: None,
    })
}

/// Adds what tells of the paths that the other listing hasn't, or has with another kind, that they are gone.
#[tactic(auto, using(crate::proofs::Tellings::told_more, crate::proofs::Tellings::told_same, crate::proofs::Tellings::is_map))]
fn put_removals(
    alloc: Global,
    old: &Listing,
    new: &Listing,
    events: &mut List<Notify>,
) -> Result<(), Memory>
    ensures told { OnOk result (events.new ≡ events.old ++ map (told removal) (filter (λ s. not (is_kept new.now.entries s)) old.now.entries)) }
    ensures map { IsMap old.now.entries }
{
    for (path, seen) in old.iter() {
        if !is_kept(new, path, *seen) {
            put_event(alloc, removal(seen.file_type), path, *seen, events)?;
        }
    }
    Ok(())
}

/// Adds what tells of the paths that the other listing hasn't, or has with another kind, that they are new.
#[tactic(auto, using(crate::proofs::Tellings::told_more, crate::proofs::Tellings::told_same, crate::proofs::Tellings::is_map))]
fn put_creations(
    alloc: Global,
    old: &Listing,
    new: &Listing,
    events: &mut List<Notify>,
) -> Result<(), Memory>
    ensures told { OnOk result (events.new ≡ events.old ++ map (told creation) (filter (λ s. not (is_kept old.now.entries s)) new.now.entries)) }
    ensures map { IsMap new.now.entries }
{
    for (path, seen) in new.iter() {
        if !is_kept(old, path, *seen) {
            put_event(alloc, creation(seen.file_type), path, *seen, events)?;
        }
    }
    Ok(())
}

/// Adds what tells of the paths with another stamp that they are modified.
#[tactic(auto, using(crate::proofs::Tellings::told_more, crate::proofs::Tellings::told_same))]
fn put_modifications(
    alloc: Global,
    old: &Listing,
    new: &Listing,
    events: &mut List<Notify>,
) -> Result<(), Memory>
    ensures { OnOk result (events.new ≡ events.old ++ map (told modification) (filter (is_modified old.now.entries) new.now.entries)) }
{
    let kind = FileEventKind::Modify(ModifyKind::Data(DataChange::Any));
    for (path, seen) in new.iter() {
        if is_modified(old, path, *seen) {
            put_event(alloc, kind, path, *seen, events)?;
        }
    }
    Ok(())
}

/// What changed. It fails only for want of memory.
pub fn changes(alloc: Global, old: &Listing, new: &Listing) -> Result<List<Notify>, Memory>
    ensures changes { IfOk result (λ events. events ≡ changes old.now.entries new.now.entries) }
    ensures maps { OnOk result (IsMap old.now.entries × IsMap new.now.entries) }
{
    let mut events = List::new(alloc);
    put_removals(alloc, old, new, &mut events)?;
    put_creations(alloc, old, new, &mut events)?;
    put_modifications(alloc, old, new, &mut events)?;
    Ok(events)
}
