// Which paths stand for an identity.
ghost use Rattle.std.specs.Prelude.{◌≡◌, ◌++◌, OnOk, filter, map, not};
ghost use Rattle.wx_recursor.specs.Identities.{guard_known, has_identity};
ghost use Rattle.wx_recursor.specs.Rebuilds.{first_of, is_under_any, representative, representatives};

use std::alloc::Global;
use wx_recursor::{GuardWatch, Identity, Known};
use wx_recursor_lists::{has_identity, has_known};
use wx_text::{Copies, Memory};
use wx_tree::Place;

/// Whether the path lies at or below one of these.
pub fn is_under_any(path: &Place, paths: &[Place]) -> bool
    ensures { result ≡ is_under_any path.now paths.now }
{
    let mut rest = paths;
    while let [first, after @ ..] = rest {
        if first.holds(path) {
            return true;
        }
        rest = after;
    }
    false
}

/// Appends the paths of guards. It fails only for want of memory.
pub fn put_guards(alloc: Global, guards: &[GuardWatch], out: &mut Vec<Known>) -> Result<(), Memory>
    ensures { OnOk result (out.new.items ≡ out.old.items ++ map guard_known guards.now) }
{
    let mut rest = guards;
    while let [first, after @ ..] = rest {
        out.push(Known {
            path: first.path.copy(alloc)?,
            identity: first.identity.copy(alloc)?,
        })?;
        rest = after;
    }
    Ok(())
}

/// Appends copies of these. It fails only for want of memory.
pub fn put_known(alloc: Global, known: &[Known], out: &mut Vec<Known>) -> Result<(), Memory>
    ensures { OnOk result (out.new.items ≡ out.old.items ++ known.now) }
{
    let mut rest = known;
    while let [first, after @ ..] = rest {
        out.push(first.copy(alloc)?)?;
        rest = after;
    }
    Ok(())
}

/// Appends the first path that stands for the identity. It fails only for want of memory.
pub fn put_first(
    alloc: Global,
    identity: &Identity,
    known: &[Known],
    out: &mut Vec<Known>,
) -> Result<(), Memory>
    ensures { OnOk result (out.new.items ≡ out.old.items ++ first_of identity.now known.now) }
{
    let mut rest = known;
    while let [first, after @ ..] = rest {
        if first.identity.is_same(identity) {
            out.push(Known {
                path: first.path.copy(alloc)?,
                identity: identity.copy(alloc)?,
            })?;
            return Ok(());
        }
        rest = after;
    }
    Ok(())
}

/// Appends the path by which a registration is watched again. It fails only for want of memory.
fn put_representative(
    alloc: Global,
    registration: &Known,
    known: &[Known],
    out: &mut Vec<Known>,
) -> Result<(), Memory>
    ensures { OnOk result (out.new.items ≡ out.old.items ++ representative registration.now known.now) }
{
    if has_known(&registration.path, &registration.identity, known) {
        out.push(registration.copy(alloc)?)?;
        return Ok(());
    }
    put_first(alloc, &registration.identity, known, out)
}

/// Appends the representatives of what serves these. It fails only for want of memory.
pub fn put_serving(
    alloc: Global,
    registrations: &[Known],
    known: &[Known],
    out: &mut Vec<Known>,
) -> Result<(), Memory>
    ensures { OnOk result (out.new.items ≡ out.old.items ++ representatives (filter (λ g. has_identity g.identity known.now) registrations.now) known.now) }
{
    let mut rest = registrations;
    while let [first, after @ ..] = rest {
        if has_identity(&first.identity, known) {
            put_representative(alloc, first, known, out)?;
        }
        rest = after;
    }
    Ok(())
}

/// Appends the representatives, among the guards, of what serves none of these. It fails only for want of memory.
pub fn put_guarding(
    alloc: Global,
    registrations: &[Known],
    known: &[Known],
    guards: &[Known],
    out: &mut Vec<Known>,
) -> Result<(), Memory>
    ensures { OnOk result (out.new.items ≡ out.old.items ++ representatives (filter (λ g. not (has_identity g.identity known.now)) registrations.now) guards.now) }
{
    let mut rest = registrations;
    while let [first, after @ ..] = rest {
        if !has_identity(&first.identity, known) {
            put_representative(alloc, first, guards, out)?;
        }
        rest = after;
    }
    Ok(())
}
