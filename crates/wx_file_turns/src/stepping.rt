// A step of what keeps watches.
ghost use Rattle.std.specs.Prelude.{◌≡◌, ◌≤◌, ◌+◌, ◌∷◌, ℕ, Bool, true, false, IfErr, OnOk};
ghost use Rattle.wx_tree.specs.Paths.{Path};
ghost use Rattle.wx_tree.specs.Trees.{Tree};
ghost use Rattle.wx_journal.specs.declared.entry.Entry.TheVariants.{Word as Said};
ghost use Rattle.wx_journal.specs.declared.entry.Word.TheVariants.{Stepped};
ghost use Rattle.wx_file_turns.specs.Calm.{IsCalmTurn};
ghost use Rattle.wx_file_turns.specs.FewSteps.{FewSteps, IsFewMore, TurnShowsAbsent};
ghost use Rattle.wx_file_turns.specs.Settling.{GoesOnWalking, Walks};
ghost use Rattle.wx_machine.specs.Answer.{BreaksHere};
ghost use Rattle.wx_machine.specs.Due.{Open, Steps, agenda, is_quitting};
ghost use Rattle.wx_machine.specs.Start.{Start};
ghost use Rattle.wx_machine.specs.Steps.{work_count};
ghost use Rattle.wx_action.specs.Stands.{Owes, Stands};
ghost use Rattle.wx_file_turns.specs.Attended.{AttendedBy};
ghost use Rattle.wx_file_turns.specs.Serves.{Attends, PaysOn};
ghost use Rattle.wx_file_turns.specs.Showing.{DoesStep, RebuildsWhere, ShowsStep};
ghost use Rattle.wx_file_turns.specs.Standing.{IntakeStands, owed, works};
ghost use Rattle.wx_file_turns.specs.Stepping.{IsAtStep, IsWatching, IsWorthwhile, KeepsBrought, StepsOn};

use crate::files::Watching;
use crate::intake::Intake;
use crate::judging::take_step;
use crate::rebuilding::rebuild;
use crate::resting::rest;
use crate::showing::{say, show_errors};
use std::alloc::Global;
use wx_action::{Hooks, Worker, World};
use wx_error::CriticalError;
use wx_journal::{Journal, Word};
use wx_words::TextPath;

/// The rebuild of a step, where it asks for one.
fn rebuild_where<W: World, H: Hooks>(
    alloc: Global,
    asked: bool,
    watching: &mut Watching<W::Back>,
    worker: &mut Worker,
    world: &mut W,
    hooks: &mut H,
    journal: &mut Journal,
) -> Result<(), CriticalError>
    ghost start: { Start }
    requires stands { Stands start worker.old journal.old.past }
    requires at_step { IsAtStep start watching.old journal.old.past }
    ensures steps { StepsOn H.seen H.rule H.stands start worker.old journal.old (W.seen world.old) hooks.old worker.new journal.new (W.seen world.new) hooks.new }
    ensures at_step { OnOk result (IsAtStep start watching.new journal.new.past) }
    ensures work { OnOk result (asked ≡ true → work_count journal.old.past + 1 ≤ work_count journal.new.past) }
    ensures none { asked ≡ false → watching.new ≡ watching.old }
    ensures still { asked ≡ false → journal.new ≡ journal.old }
    ensures rebuilds { OnOk result (RebuildsWhere asked start watching.old watching.new journal.old.past journal.new.past) }
    ensures breaks { IfErr result (λ error. BreaksHere start journal.new.past error) }
{
    if asked {
        return rebuild(alloc, watching, worker, world, hooks, journal);
    }
    Ok(())
}

/// All of a step but its last word: what keeps watches does one, its errors are shown, and where it asks for a rebuild of the
/// backend that is done. It fails where a backend can't be made, where the error handler wished that the run ends with an error, and
/// for want of memory.
fn work<W: World, H: Hooks>(
    alloc: Global,
    folder: &TextPath,
    watching: &mut Watching<W::Back>,
    worker: &mut Worker,
    world: &mut W,
    hooks: &mut H,
    journal: &mut Journal,
) -> Result<(), CriticalError>
    ghost start: { Start }
    requires stands { Stands start worker.old journal.old.past }
    requires at_step { IsAtStep start watching.old journal.old.past }
    requires folder { folder.now ≡ start.folder }
    ensures steps { StepsOn H.seen H.rule H.stands start worker.old journal.old (W.seen world.old) hooks.old worker.new journal.new (W.seen world.new) hooks.new }
    ensures at_step { OnOk result (IsAtStep start watching.new journal.new.past) }
    ensures worthwhile { OnOk result (IsWorthwhile watching.new journal.old.past (W.seen world.old) journal.new.past (W.seen world.new)) }
    ensures shown { OnOk result (ShowsStep start watching.old watching.new journal.old.past journal.new.past) }
    ensures walks { (t : Tree) (ok : ℕ → Path → Bool) → IsCalmTurn t ok start journal.new.past (W.seen world.old).looked (W.seen world.new).looked → TurnShowsAbsent start t journal.old.past → Walks W.Back.backing W.Back.fits t ok start journal.old.past watching.old → works watching.old ≡ true
        → OnOk result (IsFewMore start t journal.new.past × Walks W.Back.backing W.Back.fits t ok start (Said Stepped ∷ journal.new.past) watching.new) }
    ensures breaks { IfErr result (λ error. BreaksHere start journal.new.past error) }
{
    let shown = take_step(alloc, folder, watching, worker, world, hooks, journal)?;
    let asked = shown.rebuild_backend;
    show_errors(alloc, worker, shown.errors, hooks, journal)?;
    rebuild_where(alloc, asked, watching, worker, world, hooks, journal)
}

/// A step of what keeps watches, which has work: it does one, its errors are shown, where it asks for a rebuild of the backend that
/// is done, and the turn says so. It fails where a backend can't be made, where the error handler wished that the run ends with an
/// error, and for want of memory.
pub(crate) fn step<W: World, H: Hooks>(
    alloc: Global,
    folder: &TextPath,
    watching: &mut Watching<W::Back>,
    worker: &mut Worker,
    world: &mut W,
    hooks: &mut H,
    journal: &mut Journal,
) -> Result<(), CriticalError>
    ghost start: { Start }
    requires stands { Stands start worker.old journal.old.past }
    requires at_step { IsAtStep start watching.old journal.old.past }
    requires going { is_quitting journal.old.past ≡ false }
    requires folder { folder.now ≡ start.folder }
    ensures attends { Attends H.seen H.rule H.stands start worker.old journal.old (W.seen world.old) hooks.old worker.new journal.new (W.seen world.new) hooks.new }
    ensures served { OnOk result (agenda start journal.new.past ≡ Open) }
    ensures watching { OnOk result (IsWatching start watching.new journal.new.past) }
    ensures brought { OnOk result (KeepsBrought start journal.old.past journal.new.past) }
    ensures done { OnOk result (DoesStep start watching.old watching.new journal.old.past journal.new.past) }
    ensures breaks { IfErr result (λ error. BreaksHere start journal.new.past error) }
    ensures paid { PaysOn journal.old.past (W.seen world.old) 1 journal.new.past (W.seen world.new) (owed (works watching.new)) }
    ensures walks { (t : Tree) (ok : ℕ → Path → Bool) → IsCalmTurn t ok start journal.new.past (W.seen world.old).looked (W.seen world.new).looked → FewSteps start t journal.old.past → TurnShowsAbsent start t journal.old.past → Walks W.Back.backing W.Back.fits t ok start journal.old.past watching.old → works watching.old ≡ true
        → FewSteps start t journal.new.past × OnOk result (Walks W.Back.backing W.Back.fits t ok start journal.new.past watching.new) }
{
    work(alloc, folder, watching, worker, world, hooks, journal)?;
    say(worker, Word::Stepped, journal)?;
    Ok(())
}

/// A turn where a backend stands: a step, where there is work. Else it is told that all is watched where it is to be, or what was
/// brought is heard, let go or offered, or the turn says that there is nothing to do. It fails as a step does, and where the error
/// handler wished it about a fault that was brought.
pub(crate) fn attend<W: World, H: Hooks>(
    alloc: Global,
    folder: &TextPath,
    watching: &mut Watching<W::Back>,
    intake: &mut Intake,
    worker: &mut Worker,
    world: &mut W,
    hooks: &mut H,
    journal: &mut Journal,
) -> Result<(), CriticalError>
    ghost start: { Start }
    requires owes { Owes start worker.old journal.old.past (Steps true Open) }
    requires watching { IsWatching start watching.old journal.old.past }
    requires intake { IntakeStands start intake.old journal.old.past }
    requires going { is_quitting journal.old.past ≡ false }
    requires folder { folder.now ≡ start.folder }
    ensures attends { Attends H.seen H.rule H.stands start worker.old journal.old (W.seen world.old) hooks.old worker.new journal.new (W.seen world.new) hooks.new }
    ensures served { OnOk result (agenda start journal.new.past ≡ Open) }
    ensures watching { OnOk result (IsWatching start watching.new journal.new.past) }
    ensures intake { OnOk result (IntakeStands start intake.new journal.new.past) }
    ensures attended { OnOk result (AttendedBy (works watching.old) start watching.old watching.new journal.old.past journal.new.past) }
    ensures breaks { IfErr result (λ error. BreaksHere start journal.new.past error) }
    ensures paid { PaysOn journal.old.past (W.seen world.old) (owed (works watching.old)) journal.new.past (W.seen world.new) (owed (works watching.new)) }
    ensures settles { GoesOnWalking W.Back.backing W.Back.fits result start watching.old intake.old journal.old.past (W.seen world.old).looked watching.new intake.new journal.new.past (W.seen world.new).looked }
{
    if watching.has_work() {
        step(alloc, folder, watching, worker, world, hooks, journal)?;
        intake.step(journal.items());
        return Ok(());
    }
    rest(alloc, watching, intake, worker, world, hooks, journal)
}
