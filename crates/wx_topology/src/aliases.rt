// The paths that stand for the same.
ghost use Rattle.std.specs.Prelude.{◌≡◌, ◌≤◌, ◌++◌, IfOk, OnOk, length, map};
ghost use Rattle.wx_holding.specs.Holding.{state_of};
ghost use Rattle.wx_recursor.specs.Calls.{aliases, aliases_at, each_once, identities_of, paths_of};
ghost use Rattle.wx_recursor.specs.Identities.{guard_known};
ghost use Rattle.wx_topology.specs.Entries.{entries_at, entries_in, entries_in_each, entry_in, identities_at};
ghost use Rattle.wx_tree.specs.Places.{AreParts};

use std::alloc::Global;
use wx_holding::Held;
use wx_recursor::{GuardWatch, Identity, Known};
use wx_recursor_lists::has_path;
use wx_text::{Copies, Memory, Text};
use wx_tree::Place;
use wx_words::TextPath;

/// The paths of guards, under their identities. It fails only for want of memory.
fn guarding(alloc: Global, guards: &[GuardWatch]) -> Result<Vec<Known>, Memory>
    ensures { IfOk result (λ out. out.items ≡ map guard_known guards.now) }
{
    let mut out = Vec::new(alloc);
    let mut rest = guards;
    while let [first, after @ ..] = rest {
        out.push(Known {
            path: first.path.copy(alloc)?,
            identity: first.identity.copy(alloc)?,
        })?;
        rest = after;
    }
    Ok(out)
}

/// Appends the paths that are known under this identity. It fails only for want of memory.
fn put_paths_of(
    alloc: Global,
    identity: &Identity,
    known: &[Known],
    out: &mut Vec<Place>,
) -> Result<(), Memory>
    ensures { OnOk result (out.new.items ≡ out.old.items ++ paths_of identity.now known.now) }
{
    let mut rest = known;
    while let [first, after @ ..] = rest {
        if first.identity.is_same(identity) {
            out.push(first.path.copy(alloc)?)?;
        }
        rest = after;
    }
    Ok(())
}

/// Appends the paths that are known, or guard, under this identity. It fails only for want of memory.
fn put_standing(
    alloc: Global,
    identity: &Identity,
    known: &[Known],
    guards: &[Known],
    out: &mut Vec<Place>,
) -> Result<(), Memory>
    ensures { OnOk result (out.new.items ≡ out.old.items ++ paths_of identity.now (known.now ++ guards.now)) }
{
    put_paths_of(alloc, identity, known, out)?;
    put_paths_of(alloc, identity, guards, out)
}

/// Appends the identities under which the path is known. It fails only for want of memory.
fn put_identities_of(
    alloc: Global,
    path: &Place,
    known: &[Known],
    out: &mut Vec<Identity>,
) -> Result<(), Memory>
    ensures { OnOk result (out.new.items ≡ out.old.items ++ identities_of path.now known.now) }
{
    let mut rest = known;
    while let [first, after @ ..] = rest {
        if first.path.is_same(path) {
            out.push(first.identity.copy(alloc)?)?;
        }
        rest = after;
    }
    Ok(())
}

/// The identities of what stands for the path. It fails only for want of memory.
fn identities_at(
    alloc: Global,
    path: &Place,
    known: &[Known],
    guards: &[Known],
) -> Result<Vec<Identity>, Memory>
    ensures { IfOk result (λ out. out.items ≡ identities_at path.now (known.now ++ guards.now)) }
{
    let mut out = Vec::new(alloc);
    out.push(Identity::Canonical(path.copy(alloc)?))?;
    put_identities_of(alloc, path, known, &mut out)?;
    put_identities_of(alloc, path, guards, &mut out)?;
    Ok(out)
}

/// The entry of the path's name in another directory. It fails only for want of memory.
fn entry_in(alloc: Global, path: &Place, directory: &Place) -> Result<Place, Memory>
    requires parts { AreParts path.now }
    requires below { 1 ≤ length path.now }
    ensures { IfOk result (λ entry. entry ≡ entry_in path.now directory.now) }
{
    let mut text = directory.path(alloc)?.text().copy(alloc)?;
    path.put_last(1, &mut text)?;
    Place::new(alloc, &TextPath::new(text))
}

/// Appends the entry of the path's name in each of these. It fails only for want of memory.
fn put_entries(
    alloc: Global,
    path: &Place,
    directories: &[Place],
    out: &mut Vec<Place>,
) -> Result<(), Memory>
    requires parts { AreParts path.now }
    requires below { 1 ≤ length path.now }
    ensures { OnOk result (out.new.items ≡ out.old.items ++ map (λ q. entry_in path.now q) directories.now) }
{
    let mut rest = directories;
    while let [first, after @ ..] = rest {
        out.push(entry_in(alloc, path, first)?)?;
        rest = after;
    }
    Ok(())
}

/// Appends the entry of the path's name in each path that is known, or guards, under this identity. It fails only for want of
/// memory.
fn put_entries_in(
    alloc: Global,
    path: &Place,
    identity: &Identity,
    known: &[Known],
    guards: &[Known],
    out: &mut Vec<Place>,
) -> Result<(), Memory>
    requires parts { AreParts path.now }
    requires below { 1 ≤ length path.now }
    ensures { OnOk result (out.new.items ≡ out.old.items ++ entries_in path.now identity.now (known.now ++ guards.now)) }
{
    let mut directories = Vec::new(alloc);
    put_standing(alloc, identity, known, guards, &mut directories)?;
    put_entries(alloc, path, directories.as_slice(), out)
}

fn put_entries_in_each(
    alloc: Global,
    path: &Place,
    identities: &[Identity],
    known: &[Known],
    guards: &[Known],
    out: &mut Vec<Place>,
) -> Result<(), Memory>
    requires parts { AreParts path.now }
    requires below { 1 ≤ length path.now }
    ensures { OnOk result (out.new.items ≡ out.old.items ++ entries_in_each path.now identities.now (known.now ++ guards.now)) }
{
    let mut rest = identities;
    while let [first, after @ ..] = rest {
        put_entries_in(alloc, path, first, known, guards, out)?;
        rest = after;
    }
    Ok(())
}

/// Appends the entry of the path's name in each path that stands for its parent. It fails only for want of memory.
fn put_entries_at(
    alloc: Global,
    path: &Place,
    known: &[Known],
    guards: &[Known],
    out: &mut Vec<Place>,
) -> Result<(), Memory>
    ensures { OnOk result (out.new.items ≡ out.old.items ++ entries_at path.now (known.now ++ guards.now)) }
{
    if path.depth() == 0 {
        return Ok(());
    }
    // that it can be spelled shows that its name has no slash
    path.path(alloc)?;
    let parent = path.up(alloc, 1)?;
    let identities = identities_at(alloc, &parent, known, guards)?;
    put_entries_in_each(alloc, path, identities.as_slice(), known, guards, out)
}

/// Appends what stands for the path. It fails only for want of memory.
fn put_aliases(
    alloc: Global,
    path: &Place,
    known: &[Known],
    guards: &[Known],
    out: &mut Vec<Place>,
) -> Result<(), Memory>
    ensures { OnOk result (out.new.items ≡ out.old.items ++ aliases_at path.now (known.now ++ guards.now)) }
{
    let canonical = Identity::Canonical(path.copy(alloc)?);
    put_standing(alloc, &canonical, known, guards, out)?;
    put_entries_at(alloc, path, known, guards, out)
}

/// Each path once. It fails only for want of memory.
fn each_once(alloc: Global, paths: &[Place]) -> Result<Vec<Place>, Memory>
    ensures { IfOk result (λ out. out.items ≡ each_once paths.now) }
{
    let mut out = Vec::new(alloc);
    let mut rest = paths;
    while let [first, after @ ..] = rest {
        if !has_path(first, after) {
            out.push(first.copy(alloc)?)?;
        }
        rest = after;
    }
    Ok(out)
}

/// The paths that stand for the same as this one, and it itself. It fails only for want of memory.
pub fn aliases(alloc: Global, path: &Place, held: &Held) -> Result<Vec<Place>, Memory>
    ensures { IfOk result (λ paths. paths.items ≡ aliases path.now (state_of held.now)) }
{
    let guards = guarding(alloc, held.guards.as_slice())?;
    let mut all = Vec::new(alloc);
    all.push(path.copy(alloc)?)?;
    put_aliases(
        alloc,
        path,
        held.known.as_slice(),
        guards.as_slice(),
        &mut all,
    )?;
    each_once(alloc, all.as_slice())
}
