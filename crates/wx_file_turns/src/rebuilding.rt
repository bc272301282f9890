// How a backend is made in place of the one that stands.
ghost use Rattle.std.specs.Prelude.{◌≤◌, ◌+◌, IfErr, IfOk, OnOk};
ghost use Rattle.wx_machine.specs.Answer.{BreaksHere};
ghost use Rattle.wx_machine.specs.Start.{Start};
ghost use Rattle.wx_machine.specs.Steps.{work_count};
ghost use Rattle.wx_worker.specs.Stands.{Stands};
ghost use Rattle.wx_file_turns.specs.Showing.{Rebuilds, RebuildsAll, RebuildsOnce};
ghost use Rattle.wx_file_turns.specs.Stepping.{IsAtStep, StepsOn};

use crate::files::Watching;
use crate::making::make_backend;
use crate::showing::show_errors;
use std::alloc::Global;
use wx_error::CriticalError;
use wx_journal::Journal;
use wx_worker::{Hooks, Worker, World};

/// One rebuild: the backend goes, another is made, and what was registered is watched by it. Errors are shown. It answers whether
/// one more is asked for. It fails where the backend can't be made, where the error handler wished that the run ends with an error,
/// and for want of memory.
fn rebuild_once<W: World, H: Hooks>(
    alloc: Global,
    watching: &mut Watching<W::Back>,
    worker: &mut Worker,
    world: &mut W,
    hooks: &mut H,
    journal: &mut Journal,
) -> Result<bool, CriticalError>
    ghost start: { Start }
    requires stands { Stands start worker.old journal.old.past }
    requires at_step { IsAtStep start watching.old journal.old.past }
    ensures steps { StepsOn H.seen H.rule H.stands start worker.old journal.old (W.seen world.old) hooks.old worker.new journal.new (W.seen world.new) hooks.new }
    ensures at_step { OnOk result (IsAtStep start watching.new journal.new.past) }
    ensures work { OnOk result (work_count journal.old.past + 1 ≤ work_count journal.new.past) }
    ensures rebuilds { IfOk result (λ more. RebuildsOnce start watching.old watching.new more journal.old.past journal.new.past) }
    ensures breaks { IfErr result (λ error. BreaksHere start journal.new.past error) }
{
    watching.recursor.prepare_backend_rebuild()?;
    let kind = watching.recursor.kind;
    let follow = watching.recursor.follow;
    let (back, made) = make_backend(alloc, worker, kind, follow, world, journal)?;
    watching.back = back;
    watching.recursor.install_backend(made)?;
    let shown = watching.recursor.replay_backend_snapshot(world)?;
    show_errors(alloc, worker, shown.errors, hooks, journal)?;
    Ok(shown.rebuild_backend)
}

/// Rebuilds as often as it is asked for, and so often at most. It answers whether one more is asked for.
fn rebuild_within<W: World, H: Hooks>(
    alloc: Global,
    rounds: u64,
    watching: &mut Watching<W::Back>,
    worker: &mut Worker,
    world: &mut W,
    hooks: &mut H,
    journal: &mut Journal,
) -> Result<bool, CriticalError>
    ghost start: { Start }
    requires stands { Stands start worker.old journal.old.past }
    requires at_step { IsAtStep start watching.old journal.old.past }
    ensures steps { StepsOn H.seen H.rule H.stands start worker.old journal.old (W.seen world.old) hooks.old worker.new journal.new (W.seen world.new) hooks.new }
    ensures at_step { OnOk result (IsAtStep start watching.new journal.new.past) }
    ensures rebuilds { OnOk result (Rebuilds start watching.old journal.old.past watching.new journal.new.past) }
    ensures breaks { IfErr result (λ error. BreaksHere start journal.new.past error) }
{
    for _round in 0..rounds {
        if !rebuild_once(alloc, watching, worker, world, hooks, journal)? {
            return Ok(false);
        }
    }
    Ok(true)
}

/// The rebuild that a step asked for, with those that it asks for itself. There is a bound on them; behind it, what waits is left
/// to a later turn.
pub(crate) fn rebuild<W: World, H: Hooks>(
    alloc: Global,
    watching: &mut Watching<W::Back>,
    worker: &mut Worker,
    world: &mut W,
    hooks: &mut H,
    journal: &mut Journal,
) -> Result<(), CriticalError>
    ghost start: { Start }
    requires stands { Stands start worker.old journal.old.past }
    requires at_step { IsAtStep start watching.old journal.old.past }
    ensures steps { StepsOn H.seen H.rule H.stands start worker.old journal.old (W.seen world.old) hooks.old worker.new journal.new (W.seen world.new) hooks.new }
    ensures at_step { OnOk result (IsAtStep start watching.new journal.new.past) }
    ensures work { OnOk result (work_count journal.old.past + 1 ≤ work_count journal.new.past) }
    ensures rebuilds { OnOk result (RebuildsAll start watching.old watching.new journal.old.past journal.new.past) }
    ensures breaks { IfErr result (λ error. BreaksHere start journal.new.past error) }
{
    let more = watching.recursor.replay_count().saturating_add(1);
    if !rebuild_once(alloc, watching, worker, world, hooks, journal)? {
        return Ok(());
    }
    if rebuild_within(alloc, more, watching, worker, world, hooks, journal)? {
        watching.recursor.defer_replay();
    }
    Ok(())
}
