// Before the replay: the backend is dropped, and another is installed.
ghost use Rattle.std.specs.Prelude.{◌≡◌, ◌-◌, ◌^◌, ◌++◌, ◌||◌, [], IfOk, OnOk, filter, map, min, not};
ghost use Rattle.wx_holding.specs.Holding.{state_of};
ghost use Rattle.wx_recursor.specs.Identities.{guard_known, has_identity};
ghost use Rattle.wx_recursor.specs.Owners.{has_path};
ghost use Rattle.wx_recursor.specs.Rebuilds.{guards_to_replay, installed, is_under_any, known_to_replay, prepared, replay_count, replay_deferred, replays, representatives};
ghost use Rattle.wx_recursor.specs.declared.answers.BackendPlace.TheVariants.{Dropped};

use crate::standing::{is_under_any, put_guarding, put_guards, put_serving};
use crate::upholding::uphold;
use std::alloc::Global;
use std::mem;
use wx_holding::Held;
use wx_index::KnownList;
use wx_recursor::{BackendPlace, GuardWatch, Known};
use wx_recursor_lists::has_path;
use wx_text::Memory;
use wx_tree::Place;

/// Whether the replay leaves the path out.
fn is_left_out(path: &Place, excluded: &[Place], skipped: &[Place], tombstones: &[Place]) -> bool
    ensures { result ≡ (has_path path.now excluded.now || (has_path path.now skipped.now || is_under_any path.now tombstones.now)) }
{
    has_path(path, excluded) || has_path(path, skipped) || is_under_any(path, tombstones)
}

fn leave_out(excluded: &[Place], skipped: &[Place], tombstones: &[Place], known: &mut Vec<Known>)
    ensures { known.new.items ≡ filter (λ k. not (has_path k.path excluded.now || (has_path k.path skipped.now || is_under_any k.path tombstones.now))) known.old.items }
{
    known.retain(|k| !is_left_out(&k.path, excluded, skipped, tombstones));
}

/// What is known, which is taken out.
fn take_known(alloc: Global, held: &mut Held) -> Vec<Known>
    ensures known { result.items ≡ (state_of held.old).known }
    ensures state { state_of held.new ≡ record (state_of held.old) { known = [] } }
{
    mem::replace(&mut held.known, KnownList::new(alloc)).into_vec()
}

fn leave_guards_out(
    excluded: &[Place],
    skipped: &[Place],
    tombstones: &[Place],
    guards: &mut Vec<GuardWatch>,
)
    ensures { guards.new.items ≡ filter (λ g. not (has_path g.path excluded.now || (has_path g.path skipped.now || is_under_any g.path tombstones.now))) guards.old.items }
{
    guards.retain(|g| !is_left_out(&g.path, excluded, skipped, tombstones));
}

/// What was registered, and behind it what waited. Neither is left.
fn take_all(
    alloc: Global,
    registrations: &mut KnownList,
    waiting: &mut KnownList,
) -> Result<Vec<Known>, Memory>
    ensures all { IfOk result (λ all. all.items ≡ registrations.old ++ waiting.old) }
    ensures registrations { registrations.new ≡ [] }
    ensures waiting { waiting.new ≡ [] }
{
    let mut all = mem::replace(registrations, KnownList::new(alloc)).into_vec();
    let mut more = mem::replace(waiting, KnownList::new(alloc)).into_vec();
    all.append(&mut more)?;
    Ok(all)
}

/// What is to be watched again: what serves owned paths first, then what serves guards alone.
fn replays(
    alloc: Global,
    all: &[Known],
    known: &[Known],
    guards: &[GuardWatch],
) -> Result<Vec<Known>, Memory>
    ensures { IfOk result (λ out. out.items
        ≡ representatives (filter (λ g. has_identity g.identity known.now) all.now) known.now
        ++ representatives (filter (λ g. not (has_identity g.identity known.now)) all.now) (map guard_known guards.now)) }
{
    let mut guarding = Vec::new(alloc);
    put_guards(alloc, guards, &mut guarding)?;
    let mut out = Vec::new(alloc);
    put_serving(alloc, all, known, &mut out)?;
    put_guarding(alloc, all, known, guarding.as_slice(), &mut out)?;
    Ok(out)
}

/// What is left out goes, be it owned or a guard. So does what has no owner.
fn forget_left_out(alloc: Global, held: &mut Held)
    ensures { state_of held.new ≡ record (state_of held.old) { known = known_to_replay (state_of held.old); guards = guards_to_replay (state_of held.old) } }
{
    held.known.keep_owned(&held.owners);
    let mut known = take_known(alloc, held);
    leave_out(
        held.excluded.as_slice(),
        held.skipped.as_slice(),
        held.tombstones.as_slice(),
        &mut known,
    );
    held.known = KnownList::from_vec(alloc, known);
    leave_guards_out(
        held.excluded.as_slice(),
        held.skipped.as_slice(),
        held.tombstones.as_slice(),
        &mut held.guards,
    );
}

/// What was registered waits for replay, as far as something stands for it.
fn set_waiting(alloc: Global, held: &mut Held) -> Result<(), Memory>
    ensures { OnOk result (state_of held.new ≡ record (state_of held.old) { registrations = []; waiting = replays (state_of held.old) (state_of held.old).known (state_of held.old).guards }) }
{
    let all = take_all(alloc, &mut held.registrations, &mut held.waiting)?;
    let waiting = replays(
        alloc,
        all.as_slice(),
        held.known.as_slice(),
        held.guards.as_slice(),
    )?;
    held.waiting = KnownList::from_vec(alloc, waiting);
    Ok(())
}

/// No backend is there, and nothing is excluded or lost any more.
fn drop_backend(held: &mut Held)
    ensures { state_of held.new ≡ record (state_of held.old) { excluded = []; lost = []; backend = Dropped } }
{
    held.excluded.clear();
    held.lost.clear();
    held.backend = BackendPlace::Dropped;
}

/// The backend is dropped, and what was registered waits for replay, but for what is left out. It fails only for want of
/// memory, and then nothing is said of what is held.
pub fn prepare(alloc: Global, held: &mut Held) -> Result<(), Memory>
    ensures { OnOk result (state_of held.new ≡ prepared (state_of held.old)) }
{
    forget_left_out(alloc, held);
    set_waiting(alloc, held)?;
    drop_backend(held);
    uphold(held);
    Ok(())
}

/// Another backend is installed.
pub fn install(held: &mut Held)
    ensures { state_of held.new ≡ installed (state_of held.old) }
{
    held.backend = BackendPlace::Installed;
}

/// What waits for replay waits for a later reconcile.
pub fn defer(held: &mut Held)
    ensures { state_of held.new ≡ replay_deferred (state_of held.old) }
{
    held.deferred = true;
}

/// How many registrations there are, those that wait among them, and guards. It ends at the greatest number.
pub fn replay_count(held: &Held) -> u64
    ensures { result ≡ min (replay_count (state_of held.now)) (2 ^ 64 - 1) }
{
    let registrations = held.registrations.len() as u64;
    let waiting = held.waiting.len() as u64;
    let guards = held.guards.len() as u64;
    registrations.saturating_add(waiting).saturating_add(guards)
}
