// A turn about what is watched.
ghost use Rattle.std.specs.Prelude.{◌≡◌, ℕ, true, IfErr, OnOk};
ghost use Rattle.wx_journal.specs.declared.entry.TurnKind.TheVariants.{File as FileTurn};
ghost use Rattle.wx_journal.specs.Told.{Counts};
ghost use Rattle.wx_machine.specs.Answer.{BreaksHere};
ghost use Rattle.wx_machine.specs.Due.{Open, agenda};
ghost use Rattle.wx_machine.specs.Kept.{Promised};
ghost use Rattle.wx_machine.specs.Start.{Start};
ghost use Rattle.wx_worker.specs.Stands.{AtTurn};
ghost use Rattle.wx_file_turns.specs.Attended.{Attended};
ghost use Rattle.wx_file_turns.specs.Serves.{Attends, PaysOn, ends_unmade};
ghost use Rattle.wx_file_turns.specs.Settling.{GoesOnSettling};
ghost use Rattle.wx_file_turns.specs.Standing.{FilesStand, is_revision, owing};

use crate::applying::apply;
use crate::files::Files;
use crate::showing::say;
use crate::stepping::attend;
use wx_error::CriticalError;
use wx_journal::{Journal, Word};
use wx_worker::{Hooks, Worker, World};

/// A turn about what is watched. Settings that weren't applied yet are: where no path is to be watched any more the backend goes,
/// else one is made where none stands that serves them, and then the roots are set where they or the filter changed, or something
/// is to be tried again. Else the turn is ignored where no backend stands, and a step is taken where there is work. Else, where it is to
/// be told that all is watched, what was brought before is heard, one in a turn, and then that is told. Else what was brought first is
/// heard, or let go, or offered to the queue, or the turn says that there is nothing to do. It fails where a backend can't be made, where
/// the error handler wished that the run ends with an error, and for want of memory.
pub fn file_turn<W: World, H: Hooks>(
    files: &mut Files<W::Back>,
    worker: &mut Worker,
    world: &mut W,
    hooks: &mut H,
    journal: &mut Journal,
) -> Result<(), CriticalError>
    ghost start: { Start }
    requires turn { (at : ℕ) × AtTurn start worker.old at FileTurn journal.old.past }
    requires files { FilesStand start files.old journal.old.past }
    ensures attends { Attends H.seen H.rule H.stands start worker.old journal.old (W.seen world.old) hooks.old worker.new journal.new (W.seen world.new) hooks.new }
    ensures promised { Promised H.seen H.rule H.stands hooks.old journal.old.past hooks.new journal.new.past }
    ensures served { OnOk result (agenda start journal.new.past ≡ Open) }
    ensures files { OnOk result (FilesStand start files.new journal.new.past) }
    ensures attended { is_revision worker.old.config.change_signal files.old.applied ≡ true → OnOk result (Attended start files.old.source files.new.source journal.old.past journal.new.past) }
    ensures breaks { IfErr result (λ error. BreaksHere start journal.new.past error) }
    ensures maker { Counts (ends_unmade journal.new.past) (W.seen world.old).progress.maker_faults (W.seen world.new).progress.maker_faults }
    ensures paid { PaysOn journal.old.past (W.seen world.old) (owing files.old) journal.new.past (W.seen world.new) (owing files.new) }
    ensures settles { GoesOnSettling W.Back.backing W.Back.fits result start files.old journal.old.past (W.seen world.old).looked files.new journal.new.past (W.seen world.new).looked }
{
    if !files.is_applied(worker.config.change_signal) {
        return apply(files, worker, world, journal);
    }
    match &mut files.source {
        None => Ok(say(worker, Word::Ignored, journal)?),
        Some(watching) => {
            attend(
                files.alloc,
                &files.folder,
                watching,
                &mut files.intake,
                worker,
                world,
                hooks,
                journal,
            )
        }
    }
}
