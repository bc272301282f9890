// Paths under their identities.
ghost use Rattle.std.specs.Prelude.{◌≡◌, IfOk, map};
ghost use Rattle.wx_recursor.specs.Identities.{guard_known, has_identity, has_known, identity_of, is_identity, is_of_handles, is_of_watches, is_other, is_path_gone, without};
ghost use Rattle.wx_recursor.specs.Owning.{changed, is_still};

use std::alloc::Global;
use wx_recursor::{GuardWatch, Identity, Known, Look, ScanFault};
use wx_text::{Copies, Memory};
use wx_tree::Place;
use wx_watch::{NotifyFault, NotifyFaultKind};

/// Whether some path is known under this identity.
pub fn has_identity(identity: &Identity, known: &[Known]) -> bool
    ensures { result ≡ has_identity identity.now known.now }
{
    let mut rest = known;
    while let [first, after @ ..] = rest {
        if first.identity.is_same(identity) {
            return true;
        }
        rest = after;
    }
    false
}

/// Whether some guard has this identity.
pub fn has_guard_identity(identity: &Identity, guards: &[GuardWatch]) -> bool
    ensures { result ≡ has_identity identity.now (map guard_known guards.now) }
{
    let mut rest = guards;
    while let [first, after @ ..] = rest {
        if first.identity.is_same(identity) {
            return true;
        }
        rest = after;
    }
    false
}

/// Whether the path is known under this identity.
pub fn has_known(path: &Place, identity: &Identity, known: &[Known]) -> bool
    ensures { result ≡ has_known path.now identity.now known.now }
{
    let mut rest = known;
    while let [first, after @ ..] = rest {
        if first.path.is_same(path) && first.identity.is_same(identity) {
            return true;
        }
        rest = after;
    }
    false
}

/// Whether the path is that of a guard under this identity.
pub fn has_known_guard(path: &Place, identity: &Identity, guards: &[GuardWatch]) -> bool
    ensures { result ≡ has_known path.now identity.now (map guard_known guards.now) }
{
    let mut rest = guards;
    while let [first, after @ ..] = rest {
        if first.path.is_same(path) && first.identity.is_same(identity) {
            return true;
        }
        rest = after;
    }
    false
}

/// Whether the path is known under another identity.
pub fn is_other(path: &Place, identity: &Identity, known: &[Known]) -> bool
    ensures { result ≡ is_other path.now identity.now known.now }
{
    let mut rest = known;
    while let [first, after @ ..] = rest {
        if first.path.is_same(path) && !first.identity.is_same(identity) {
            return true;
        }
        rest = after;
    }
    false
}

/// Whether the path is that of a guard under another identity.
pub fn is_other_guard(path: &Place, identity: &Identity, guards: &[GuardWatch]) -> bool
    ensures { result ≡ is_other path.now identity.now (map guard_known guards.now) }
{
    let mut rest = guards;
    while let [first, after @ ..] = rest {
        if first.path.is_same(path) && !first.identity.is_same(identity) {
            return true;
        }
        rest = after;
    }
    false
}

/// Whether the path is known, first of all, under this identity.
pub fn is_identity_of(path: &Place, identity: &Identity, known: &[Known]) -> bool
    ensures { result ≡ is_identity identity.now (identity_of path.now known.now) }
{
    let mut rest = known;
    while let [first, after @ ..] = rest {
        if first.path.is_same(path) {
            return first.identity.is_same(identity);
        }
        rest = after;
    }
    false
}

/// All but those of this identity stay.
pub fn without(identity: &Identity, known: &mut Vec<Known>)
    ensures { known.new.items ≡ without identity.now known.old.items }
{
    known.retain(|k| !k.identity.is_same(identity));
}

/// Whether the fault says that nothing is there.
pub fn is_path_gone(fault: &NotifyFault) -> bool
    ensures { result ≡ is_path_gone fault.now }
{
    match fault.kind {
        NotifyFaultKind::PathNotFound => true,
        NotifyFaultKind::Generic(_)
        | NotifyFaultKind::Io(_)
        | NotifyFaultKind::WatchNotFound
        | NotifyFaultKind::InvalidConfig
        | NotifyFaultKind::MaxFilesWatch
        | NotifyFaultKind::Memory => false,
    }
}

/// Whether the fault says that no more can be watched.
pub fn is_of_watches(fault: &NotifyFault) -> bool
    ensures { result ≡ is_of_watches fault.now }
{
    match fault.kind {
        NotifyFaultKind::MaxFilesWatch => true,
        NotifyFaultKind::Io(code) => code == 28,
        NotifyFaultKind::Generic(_)
        | NotifyFaultKind::PathNotFound
        | NotifyFaultKind::WatchNotFound
        | NotifyFaultKind::InvalidConfig
        | NotifyFaultKind::Memory => false,
    }
}

/// Whether the fault says that no more files can be open.
pub fn is_of_handles(fault: &NotifyFault) -> bool
    ensures { result ≡ is_of_handles fault.now }
{
    match fault.kind {
        NotifyFaultKind::Io(code) => code == 23 || code == 24,
        NotifyFaultKind::Generic(_)
        | NotifyFaultKind::PathNotFound
        | NotifyFaultKind::WatchNotFound
        | NotifyFaultKind::InvalidConfig
        | NotifyFaultKind::MaxFilesWatch
        | NotifyFaultKind::Memory => false,
    }
}

/// Whether a second look finds the path under the same identity.
pub fn is_still(path: &Place, identity: &Identity, look: &Look) -> bool
    ensures { result ≡ is_still path.now identity.now look.now }
{
    match look {
        Look::Other => match identity {
            Identity::Lexical(known) => path.is_same(known),
            Identity::Canonical(_) => false,
        },
        Look::Directory(canonical) => match identity {
            Identity::Canonical(known) => canonical.is_same(known),
            Identity::Lexical(_) => false,
        },
        Look::Absent | Look::Linked | Look::Broken(_) => false,
    }
}

/// How a path is shown at which a second look finds something else. It fails only for want of memory.
pub fn changed(alloc: Global, identity: &Identity, look: Look) -> Result<ScanFault, Memory>
    ensures { IfOk result (λ fault. fault ≡ changed identity.now look) }
{
    match look {
        Look::Absent => Ok(ScanFault::NotFound),
        Look::Broken(code) => Ok(ScanFault::Io(code)),
        Look::Linked => Ok(ScanFault::Changed(identity.copy(alloc)?, Look::Linked)),
        Look::Other => Ok(ScanFault::Changed(identity.copy(alloc)?, Look::Other)),
        Look::Directory(path) => Ok(ScanFault::Changed(
            identity.copy(alloc)?,
            Look::Directory(path),
        )),
    }
}
