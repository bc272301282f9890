// How errors of what keeps watches are shown, and words said.
ghost use Rattle.std.specs.Prelude.{◌≡◌, ◌∷◌, [], IfErr, OnErr, OnOk, false};
ghost use Rattle.wx_journal.specs.declared.entry.Entry.TheVariants.{Word as Said};
ghost use Rattle.wx_machine.specs.Added.{Added};
ghost use Rattle.wx_journal.specs.Told.{is_world};
ghost use Rattle.wx_machine.specs.Answer.{BreaksHere};
ghost use Rattle.wx_machine.specs.Due.{Due};
ghost use Rattle.wx_machine.specs.Journal.{closed};
ghost use Rattle.wx_machine.specs.Start.{Start};
ghost use Rattle.wx_worker.specs.Stands.{Stands};
ghost use Rattle.wx_file_turns.specs.Judged.{IsStepping, StepsHand};
ghost use Rattle.wx_file_turns.specs.Serves.{GrowsAlone};
ghost use Rattle.wx_file_turns.specs.Settling.{ShowsOneOf};
ghost use Rattle.wx_file_turns.specs.Showing.{ShowsAll, ShowsUnless};

use std::alloc::Global;
use wx_error::{CriticalError, RuntimeError};
use wx_journal::{Journal, Word};
use wx_text::{List, Memory};
use wx_worker::{Hooks, Worker};

/// Says this of a turn, which is no call on the world. It fails only for want of memory, and adds no entry then.
pub(crate) fn say(worker: &Worker, word: Word, journal: &mut Journal) -> Result<(), Memory>
    ghost start: { Start }
    requires stands { Stands start worker.now journal.old.past }
    requires due { Due start journal.old.past (Said word) }
    requires alone { is_world journal.old.past (Said word) ≡ false }
    ensures grows { GrowsAlone start worker.now journal.old journal.new }
    ensures said { OnOk result (journal.new.past ≡ Said word ∷ journal.old.past) }
    ensures err { OnErr result (journal.new.past ≡ journal.old.past) }
{
    worker.say_due(word, journal)
}

/// Shows an error of a step to the error handler, unless the queue is closed. It fails where the handler wishes that the run ends
/// with an error, and for want of memory.
fn show_error<H: Hooks>(
    alloc: Global,
    worker: &mut Worker,
    error: RuntimeError,
    hooks: &mut H,
    journal: &mut Journal,
) -> Result<(), CriticalError>
    ghost start: { Start }
    requires stands { Stands start worker.old journal.old.past }
    requires stepping { IsStepping start journal.old.past }
    ensures hand { StepsHand H.seen H.rule H.stands start worker.old journal.old hooks.old worker.new journal.new hooks.new }
    ensures stepping { OnOk result (IsStepping start journal.new.past) }
    ensures shows { OnOk result (Added (λ p e. ShowsOneOf (error ∷ []) e) journal.old.past journal.new.past) }
    ensures shown { OnOk result (ShowsUnless (closed journal.old.past) start error journal.old.past journal.new.past) }
    ensures breaks { IfErr result (λ error. BreaksHere start journal.new.past error) }
{
    if worker.queue.is_closed() {
        drop(error);
        return Ok(());
    }
    worker.reserve(1, journal)?;
    hooks.reserve(1)?;
    worker.call_show(alloc, error, hooks, journal)
}

/// Shows the errors of a step, in order, while the queue isn't closed. It fails where the error handler wishes that the run ends
/// with an error, and for want of memory.
pub(crate) fn show_errors<H: Hooks>(
    alloc: Global,
    worker: &mut Worker,
    errors: List<RuntimeError>,
    hooks: &mut H,
    journal: &mut Journal,
) -> Result<(), CriticalError>
    ghost start: { Start }
    requires stands { Stands start worker.old journal.old.past }
    requires stepping { IsStepping start journal.old.past }
    ensures hand { StepsHand H.seen H.rule H.stands start worker.old journal.old hooks.old worker.new journal.new hooks.new }
    ensures stepping { OnOk result (IsStepping start journal.new.past) }
    ensures shows { OnOk result (Added (λ p e. ShowsOneOf errors e) journal.old.past journal.new.past) }
    ensures all { OnOk result (ShowsAll start errors journal.old.past journal.new.past) }
    ensures breaks { IfErr result (λ error. BreaksHere start journal.new.past error) }
{
    let mut left = errors;
    while let Some(error) = left.take_first() {
        show_error(alloc, worker, error, hooks, journal)?;
    }
    Ok(())
}
