// The replay: what waits is watched again.
ghost use Rattle.std.specs.Prelude.{◌≡◌, ◌++◌, [], OnOk, filter, not};
ghost use Rattle.wx_holding.specs.Backed.{KeepsWatches};
ghost use Rattle.wx_holding.specs.Holding.{state_of};
ghost use Rattle.wx_rebuild.specs.Replays.{Replays, ReplaysAll, ReplaysOne};
ghost use Rattle.wx_rebuild.specs.Shown.{HaveCauses};
ghost use Rattle.wx_recursor.specs.Calls.{guards_of_roots_below};
ghost use Rattle.wx_recursor.specs.Holding.{show};
ghost use Rattle.wx_recursor.specs.Rebuilds.{is_replay_over, keep_waiting, path_gone, replayed_one, waits, waits_by_alias};
ghost use Rattle.wx_recursor.specs.declared.answers.Watched.TheVariants.{Failed};
ghost use Rattle.wx_recursor.specs.declared.errors.ShownError.TheVariants.{PathAdd};
ghost use Rattle.wx_scan.specs.Looked.{OnlyLooks};
ghost use Rattle.wx_tree.specs.Paths.{same};

use crate::standing::{put_first, put_guards, put_known};
use crate::upholding::uphold;
use std::alloc::Global;
use std::collections::VecDeque;
use std::mem;
use wx_holding::{Held, is_memory};
use wx_index::KnownList;
use wx_recursor::{GuardWatch, Item, Known, ShownError, Work};
use wx_recursor_lists::{has_path, is_of_handles, is_of_watches, is_path_gone};
use wx_scan::{Backend, Scanner};
use wx_text::{Copies, Memory};
use wx_tree::{Place, Root};
use wx_watch::NotifyFault;

/// The guards at the path go.
fn release_guards(path: &Place, guards: &mut Vec<GuardWatch>)
    ensures { guards.new.items ≡ filter (λ g. not (same g.path path.now)) guards.old.items }
{
    guards.retain(|g| !g.path.is_same(path));
}

/// Queues the guards of the roots at or below the path. It fails only for want of memory.
fn queue_guards_below(
    alloc: Global,
    path: &Place,
    roots: &[Root],
    queue: &mut VecDeque<Work>,
) -> Result<(), Memory>
    ensures { OnOk result (queue.new.items ≡ queue.old.items ++ guards_of_roots_below path.now roots.now) }
{
    let mut rest = roots;
    while let [root, after @ ..] = rest {
        if path.holds(&root.path) {
            queue.push_back(Work::Plain(Item::Guard(root.copy(alloc)?)))?;
        }
        rest = after;
    }
    Ok(())
}

/// Nothing is at the path any more. It fails only for want of memory.
fn lose_path(alloc: Global, path: &Place, held: &mut Held) -> Result<(), Memory>
    ensures { OnOk result (state_of held.new ≡ path_gone path.now (state_of held.old)) }
{
    held.owners.disown_all(path);
    release_guards(path, &mut held.guards);
    queue_guards_below(alloc, path, held.roots.as_slice(), &mut held.queue)
}

/// Another path that stands for the identity waits, where one does. It fails only for want of memory.
fn wait_by_alias(alloc: Global, registration: &Known, held: &mut Held) -> Result<(), Memory>
    ensures { OnOk result (state_of held.new ≡ waits_by_alias registration.now (state_of held.old)) }
{
    held.known.keep_owned(&held.owners);
    let mut standing = Vec::new(alloc);
    put_known(alloc, held.known.as_slice(), &mut standing)?;
    put_guards(alloc, held.guards.as_slice(), &mut standing)?;
    let mut waiting = take_waiting(alloc, held);
    put_first(
        alloc,
        &registration.identity,
        standing.as_slice(),
        &mut waiting,
    )?;
    held.waiting = KnownList::from_vec(alloc, waiting);
    Ok(())
}

/// The registration waits. It fails only for want of memory.
fn wait(alloc: Global, registration: &Known, held: &mut Held) -> Result<(), Memory>
    ensures { OnOk result (state_of held.new ≡ waits registration.now (state_of held.old)) }
{
    held.waiting.push(registration.copy(alloc)?)?;
    Ok(())
}

/// Nothing was there to be watched: this is shown, and another path of the identity waits. It fails only for want of memory.
fn replay_gone(
    alloc: Global,
    registration: &Known,
    fault: NotifyFault,
    held: &mut Held,
) -> Result<(), Memory>
    ensures { OnOk result (state_of held.new ≡ waits_by_alias registration.now (path_gone registration.now.path (show (PathAdd registration.now.path fault) (state_of held.old)))) }
{
    let path = registration.path.copy(alloc)?;
    held.shown.push(ShownError::PathAdd(path, fault))?;
    lose_path(alloc, &registration.path, held)?;
    wait_by_alias(alloc, registration, held)
}

/// A watch of the replay failed. It fails only for want of memory.
fn refuse(
    alloc: Global,
    registration: &Known,
    fault: NotifyFault,
    held: &mut Held,
) -> Result<(), Memory>
    ensures { OnOk result (state_of held.new ≡ replayed_one registration.now (Failed fault) (state_of held.old)) }
{
    if is_path_gone(&fault) {
        return replay_gone(alloc, registration, fault, held);
    }
    if is_of_watches(&fault) || is_of_handles(&fault) {
        held.stop(fault)?;
        return wait(alloc, registration, held);
    }
    let is_second = has_path(&registration.path, held.failed.as_slice());
    held.fail_watch(alloc, &registration.path, fault)?;
    if is_second {
        Ok(())
    } else {
        wait(alloc, registration, held)
    }
}

/// Watches one registration again. It fails only for want of memory.
fn replay_one<B: Backend, S: Scanner>(
    alloc: Global,
    registration: &Known,
    held: &mut Held,
    back: &mut B,
    scan: &mut S,
) -> Result<(), Memory>
    ensures looked { OnlyLooks (S.looked scan.old) (S.looked scan.new) }
    ensures rest { S.rest scan.new ≡ S.rest scan.old }
    ensures place { S.place scan.new ≡ S.place scan.old }
    ensures state { OnOk result (ReplaysOne registration.now (state_of held.old) (state_of held.new)) }
    ensures watches { OnOk result (KeepsWatches (state_of held.old).registrations (state_of held.new).registrations (B.backing back.old) (B.backing back.new)) }
    ensures causes { OnOk result (HaveCauses (state_of held.old) (state_of held.new) (B.backing back.old).faults (B.backing back.new).faults) }
{
    let spelled = registration.path.path(alloc)?;
    match back.watch(scan, &spelled) {
        Ok(()) => {
            held.registrations.push(registration.copy(alloc)?)?;
            Ok(())
        }
        Err(fault) => {
            if is_memory(&fault) {
                Err(Memory)
            } else {
                refuse(alloc, registration, fault, held)
            }
        }
    }
}

/// These wait, before what waits already. It fails only for want of memory.
fn keep_waiting(alloc: Global, rest: &[Known], held: &mut Held) -> Result<(), Memory>
    ensures { OnOk result (state_of held.new ≡ keep_waiting rest.now (state_of held.old)) }
{
    let mut waiting = Vec::new(alloc);
    put_known(alloc, rest, &mut waiting)?;
    waiting.append(&mut take_waiting(alloc, held))?;
    held.waiting = KnownList::from_vec(alloc, waiting);
    Ok(())
}

/// Whether a replay ends: a rebuild is asked for, or nothing more may be watched.
fn is_over(held: &Held) -> bool
    ensures { result ≡ is_replay_over (state_of held.now) }
{
    held.asks_rebuild || held.stopped
}

/// Watches these again, in order, until a rebuild is asked for or nothing more may be watched. The rest waits. It fails only
/// for want of memory.
fn replay_all<B: Backend, S: Scanner>(
    alloc: Global,
    waiting: &[Known],
    held: &mut Held,
    back: &mut B,
    scan: &mut S,
) -> Result<(), Memory>
    ensures looked { OnlyLooks (S.looked scan.old) (S.looked scan.new) }
    ensures rest { S.rest scan.new ≡ S.rest scan.old }
    ensures place { S.place scan.new ≡ S.place scan.old }
    ensures state { OnOk result (ReplaysAll waiting.now (state_of held.old) (state_of held.new)) }
    ensures watches { OnOk result (KeepsWatches (state_of held.old).registrations (state_of held.new).registrations (B.backing back.old) (B.backing back.new)) }
    ensures causes { OnOk result (HaveCauses (state_of held.old) (state_of held.new) (B.backing back.old).faults (B.backing back.new).faults) }
{
    let mut rest = waiting;
    while let [first, after @ ..] = rest {
        if is_over(held) {
            return keep_waiting(alloc, rest, held);
        }
        replay_one(alloc, first, held, back, scan)?;
        rest = after;
    }
    Ok(())
}

/// What waits, which is taken out.
fn take_waiting(alloc: Global, held: &mut Held) -> Vec<Known>
    ensures waiting { result.items ≡ (state_of held.old).waiting }
    ensures state { state_of held.new ≡ record (state_of held.old) { waiting = [] } }
{
    mem::replace(&mut held.waiting, KnownList::new(alloc)).into_vec()
}

/// The replay: what waits is watched again, one after the other, until a rebuild is asked for or nothing more may be watched.
/// The rest waits on. It fails only for want of memory, and then nothing is said of what is held.
pub fn replay<B: Backend, S: Scanner>(
    alloc: Global,
    held: &mut Held,
    back: &mut B,
    scan: &mut S,
) -> Result<(), Memory>
    ensures looked { OnlyLooks (S.looked scan.old) (S.looked scan.new) }
    ensures rest { S.rest scan.new ≡ S.rest scan.old }
    ensures place { S.place scan.new ≡ S.place scan.old }
    ensures state { OnOk result (Replays (state_of held.old) (state_of held.new)) }
    ensures watches { OnOk result (KeepsWatches (state_of held.old).registrations (state_of held.new).registrations (B.backing back.old) (B.backing back.new)) }
    ensures causes { OnOk result (HaveCauses (state_of held.old) (state_of held.new) (B.backing back.old).faults (B.backing back.new).faults) }
{
    let waiting = take_waiting(alloc, held);
    replay_all(alloc, waiting.as_slice(), held, back, scan)?;
    uphold(held);
    Ok(())
}
