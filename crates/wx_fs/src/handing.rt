// Errors as they are handed out.
ghost use Rattle.std.specs.Prelude.{◌≡◌, IfOk, map};
ghost use Rattle.wx_error.specs.declared.runtime.RuntimeError.TheVariants.{FsWatcher};
ghost use Rattle.wx_recursor.specs.Written.{handed_error, handed_fault, handed_identity, handed_look};

use std::alloc::Global;
use wx_error::RuntimeError;
use wx_recursor::{Identity, Look, ScanFault, ShownError};
use wx_text::{Boxed, List, Memory};
use wx_watch::{
    EntryKind, FsWatcherError, Identity as HandedIdentity, ScanFault as HandedFault, Watcher,
};

fn handed_identity(alloc: Global, identity: &Identity) -> Result<HandedIdentity, Memory>
    ensures { IfOk result (λ handed. handed ≡ handed_identity identity.now) }
{
    match identity {
        Identity::Canonical(path) => Ok(HandedIdentity::Directory(path.path(alloc)?)),
        Identity::Lexical(path) => Ok(HandedIdentity::Lexical(path.path(alloc)?)),
    }
}

fn handed_look(alloc: Global, look: &Look) -> Result<EntryKind, Memory>
    ensures { IfOk result (λ handed. handed ≡ handed_look look.now) }
{
    match look {
        Look::Directory(path) => Ok(EntryKind::Directory(path.path(alloc)?)),
        Look::Linked => Ok(EntryKind::NonFollowedSymlink),
        Look::Absent => Ok(EntryKind::Other),
        Look::Other => Ok(EntryKind::Other),
        Look::Broken(_) => Ok(EntryKind::Other),
    }
}

fn handed_fault(alloc: Global, fault: &ScanFault) -> Result<HandedFault, Memory>
    ensures { IfOk result (λ handed. handed ≡ handed_fault fault.now) }
{
    match fault {
        ScanFault::NotFound => Ok(HandedFault::NotFound),
        ScanFault::Io(code) => Ok(HandedFault::Io(*code)),
        ScanFault::Changed(identity, look) => {
            let identity = handed_identity(alloc, identity)?;
            let now = handed_look(alloc, look)?;
            Ok(HandedFault::Changed { identity, now })
        }
    }
}

fn of_watching(alloc: Global, kind: Watcher, err: FsWatcherError) -> Result<RuntimeError, Memory>
    ensures { IfOk result (λ error. error ≡ FsWatcher kind err) }
{
    let err = Boxed::new(alloc, err)?;
    Ok(RuntimeError::FsWatcher { kind, err })
}

/// The error, as it is handed out for this watcher. It fails only for want of memory.
fn handed_error(alloc: Global, kind: Watcher, error: ShownError) -> Result<RuntimeError, Memory>
    ensures { IfOk result (λ handed. handed ≡ handed_error kind error) }
{
    match error {
        ShownError::PathAdd(at, err) => {
            let path = at.path(alloc)?;
            of_watching(alloc, kind, FsWatcherError::PathAdd { path, err })
        }
        ShownError::PathScan(at, fault) => {
            let path = at.path(alloc)?;
            let err = handed_fault(alloc, &fault)?;
            of_watching(alloc, kind, FsWatcherError::PathScan { path, err })
        }
        ShownError::PathRemove(at, err) => {
            let path = at.path(alloc)?;
            of_watching(alloc, kind, FsWatcherError::PathRemove { path, err })
        }
        ShownError::TooManyWatches(fault) => {
            of_watching(alloc, kind, FsWatcherError::TooManyWatches(fault))
        }
        ShownError::TooManyHandles(fault) => {
            of_watching(alloc, kind, FsWatcherError::TooManyHandles(fault))
        }
        ShownError::Filter(error) => Ok(error),
    }
}

/// The errors, in order, as they are handed out for this watcher. It fails only for want of memory.
pub fn handed_errors(
    alloc: Global,
    kind: Watcher,
    errors: Vec<ShownError>,
) -> Result<List<RuntimeError>, Memory>
    ensures { IfOk result (λ handed. handed ≡ map (handed_error kind) errors.items) }
{
    let mut handed = List::new(alloc);
    for error in errors {
        handed.push(handed_error(alloc, kind, error)?)?;
    }
    Ok(handed)
}
