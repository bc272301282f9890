// What registrations serve.
ghost use Rattle.std.specs.Prelude.{◌≡◌, ◌++◌, IfOk};
ghost use Rattle.wx_recursor.specs.Holding.{is_lost, serves};
ghost use Rattle.wx_recursor.specs.Identities.{has_identity};
ghost use Rattle.wx_recursor.specs.Steps.{idle_registrations, lost_paths};

use crate::known_list::KnownList;
use std::alloc::Global;
use wx_recursor::{GuardWatch, Identity, Known};
use wx_recursor_lists::{has_guard_identity, has_known_guard, put_deep};
use wx_text::{Copies, Memory};
use wx_tree::Place;

/// Whether an owned path or a guard stands for the identity.
pub fn serves(known: &KnownList, guards: &[GuardWatch], identity: &Identity) -> bool
    ensures { result ≡ serves known.now guards.now identity.now }
{
    known.has_identity(identity) || has_guard_identity(identity, guards)
}

/// Whether the identity is registered, or waits for replay.
pub fn is_backed(identity: &Identity, registrations: &KnownList, waiting: &KnownList) -> bool
    ensures { result ≡ has_identity identity.now (registrations.now ++ waiting.now) }
{
    if registrations.has_identity(identity) {
        return true;
    }
    waiting.has_identity(identity)
}

/// Whether the representative of a registration is lost, that others share.
fn is_lost(known: &KnownList, guards: &[GuardWatch], registration: &Known) -> bool
    ensures { result ≡ is_lost known.now guards.now registration.now }
{
    serves(known, guards, &registration.identity)
        && !(known.has_known(&registration.path, &registration.identity)
            || has_known_guard(&registration.path, &registration.identity, guards))
}

/// The paths of registrations whose representative is lost. It fails only for want of memory.
pub fn lost_paths(
    alloc: Global,
    known: &KnownList,
    guards: &[GuardWatch],
    registrations: &[Known],
) -> Result<Vec<Place>, Memory>
    ensures { IfOk result (λ paths. paths.items ≡ lost_paths known.now guards.now registrations.now) }
{
    let mut lost = Vec::new(alloc);
    let mut rest = registrations;
    while let [first, after @ ..] = rest {
        if is_lost(known, guards, first) {
            lost.push(first.path.copy(alloc)?)?;
        }
        rest = after;
    }
    Ok(lost)
}

/// The registrations that serve nothing, the deepest path first. It fails only for want of memory.
pub fn idle_registrations(
    alloc: Global,
    known: &KnownList,
    guards: &[GuardWatch],
    registrations: &[Known],
) -> Result<Vec<Known>, Memory>
    ensures { IfOk result (λ idle. idle.items ≡ idle_registrations known.now guards.now registrations.now) }
{
    let mut out = Vec::new(alloc);
    let mut rest = registrations;
    while let [first, after @ ..] = rest {
        if !serves(known, guards, &first.identity) {
            put_deep(alloc, first, &mut out)?;
        }
        rest = after;
    }
    Ok(out)
}
