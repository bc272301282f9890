// A turn in which a backend is asked what it brings.
ghost use Rattle.std.specs.Prelude.{◌≡◌, ◌≤◌, ◌+◌, ◌∷◌, ℕ, List, Some, true, false, is_some, OnErr, OnOk};
ghost use Rattle.wx_config.specs.declared.config.Config.{Config as AConfig};
ghost use Rattle.wx_holding.specs.Holding.{state_of};
ghost use Rattle.wx_lane.specs.Lanes.{is_full};
ghost use Rattle.wx_recursor.specs.Rebuilds.{installed, lent};
ghost use Rattle.wx_hooks.specs.Given.{GivesNext};
ghost use Rattle.wx_journal.specs.declared.entry.Entry.TheVariants.{Brought};
ghost use Rattle.wx_journal.specs.declared.entry.TurnKind.TheVariants.{Listen as ListenTurn};
ghost use Rattle.wx_journal.specs.Told.{begins_listening};
ghost use Rattle.wx_machine.specs.Answer.{NoneIsToGo};
ghost use Rattle.wx_machine.specs.Due.{Comes, Listens, Open, agenda, is_quitting};
ghost use Rattle.wx_machine.specs.Files.{source};
ghost use Rattle.wx_machine.specs.Start.{Start};
ghost use Rattle.wx_worker.specs.Stands.{AtTurn, Owes};
ghost use Rattle.wx_file_turns.specs.Intake.{brought, listed};
ghost use Rattle.wx_file_turns.specs.Serves.{AttendsAlone, CountsOnward, PaysOn, ends_unmade};
ghost use Rattle.wx_file_turns.specs.Settling.{GoesOnSettling, GoesOnWalking};
ghost use Rattle.wx_file_turns.specs.Standing.{FilesStand, IntakeStands, WatchesBy, owing, works};

use crate::files::{Files, Watching};
use crate::intake::Intake;
use crate::showing::say;
use std::alloc::Global;
use wx_journal::{Entry, Journal, LetGoCause, Word};
use wx_notify::Notify;
use wx_text::{Copies, Memory};
use wx_watch::NotifyFault;
use wx_worker::{Worker, World};

/// What a backend brought is listed as this item, in room that was taken, and joins the lane; where as many events wait as may it is
/// let go. It fails only for want of memory, behind the entry of what was brought.
fn bring(
    alloc: Global,
    item: u64,
    back: u64,
    answer: Result<Notify, NotifyFault>,
    intake: &mut Intake,
    journal: &mut Journal,
) -> Result<(), Memory>
    requires room { 2 ≤ journal.old.spare }
    ensures listed { OnOk result (journal.new.past ≡ listed (is_full intake.old.lane answer) item back answer journal.old.past) }
    ensures brought { OnOk result (intake.new ≡ brought item back answer intake.old) }
    ensures cut { OnErr result (journal.new.past ≡ Brought item back answer ∷ journal.old.past) }
    ensures room { journal.old.spare ≤ journal.new.spare + 2 }
{
    let copied = answer.copy(alloc);
    journal.push(Entry::Brought { item, back, answer });
    if intake.lane.put(item, back, copied?)? {
        return Ok(());
    }
    journal.push(Entry::LetGo {
        item,
        cause: LetGoCause::Full,
    });
    Ok(())
}

/// Lends its backend to the world, which asks it what it brings next, and takes it back.
fn ask_next<W: World>(
    item: u64,
    watching: &mut Watching<W::Back>,
    world: &mut W,
) -> Option<Result<Notify, NotifyFault>>
    requires room { 1 ≤ (W.seen world.old).spare }
    requires lends { is_some watching.old.recursor.back ≡ true }
    ensures gives { (old new : W.Back) × (watching.old.recursor.back ≡ Some old) × (watching.new.recursor.back ≡ Some new) × GivesNext W.Back.backing W.Back.fits item watching.old.back result old new (W.seen world.old) (W.seen world.new) }
    ensures state { state_of watching.new.recursor.held ≡ installed (lent (state_of watching.old.recursor.held)) }
    ensures others { (watching.new.back ≡ watching.old.back) × (watching.new.recursor.kind ≡ watching.old.recursor.kind) × (watching.new.recursor.follow ≡ watching.old.recursor.follow) × (watching.new.recursor.cwd ≡ watching.old.recursor.cwd) × (watching.new.recursor.spent ≡ watching.old.recursor.spent) }
{
    let Some(mut back) = watching.recursor.lend() else {
        unreachable!()
    };
    let answer = world.listen(item, watching.back, &mut back);
    watching.recursor.restore(back);
    answer
}

/// A turn where a backend stands: it is asked what it brings next, which is listed and joins the lane. The turn says so where there is
/// nothing. It fails only for want of memory: before the backend is asked, or behind the entry of what it brought.
fn listen<W: World>(
    alloc: Global,
    watching: &mut Watching<W::Back>,
    intake: &mut Intake,
    worker: &Worker,
    world: &mut W,
    journal: &mut Journal,
) -> Result<(), Memory>
    ghost start: { Start }
    requires owes { Owes start worker.now journal.old.past (Comes (Listens watching.old.back) Open) }
    requires going { is_quitting journal.old.past ≡ false }
    requires watches { (folder : List ℕ) × (config : AConfig) × WatchesBy folder config watching.old.back watching.old }
    requires current { (source start journal.old.past).current ≡ Some watching.old.back }
    requires begins { begins_listening journal.old.past ≡ true }
    requires intake { IntakeStands start intake.old journal.old.past }
    ensures alone { AttendsAlone start worker.now journal.old (W.seen world.old) journal.new (W.seen world.new) }
    ensures onward { CountsOnward journal.old.past (W.seen world.old) journal.new.past (W.seen world.new) }
    ensures served { OnOk result (agenda start journal.new.past ≡ Open) }
    ensures intake { OnOk result (IntakeStands start intake.new journal.new.past) }
    ensures source { ((source start journal.new.past).applied ≡ (source start journal.old.past).applied) × ((source start journal.new.past).current ≡ (source start journal.old.past).current) }
    ensures watches { (folder : List ℕ) (config : AConfig) (back : ℕ) → WatchesBy folder config back watching.old → WatchesBy folder config back watching.new }
    ensures works { works watching.new ≡ works watching.old }
    ensures settles { GoesOnWalking W.Back.backing W.Back.fits result start watching.old intake.old journal.old.past (W.seen world.old).looked watching.new intake.new journal.new.past (W.seen world.new).looked }
    ensures cut { OnErr result (NoneIsToGo (agenda start journal.new.past)) }
    ensures none_unmade { ends_unmade journal.new.past ≡ false }
{
    worker.reserve(2, journal)?;
    worker.reserve_host(1, world)?;
    let item = journal.items();
    let back = watching.back;
    match ask_next(item, watching, world) {
        None => {
            journal.push(Entry::Word(Word::Quiet));
            Ok(())
        }
        Some(answer) => bring(alloc, item, back, answer, intake, journal),
    }
}

/// A turn in which the backend that stands is asked what it brings next: what happened to files, or a fault. This is listed, and waits
/// for turns about what is watched; an event is let go where as many wait as may. Where there is nothing the turn says so, and where no
/// backend stands it is ignored. It fails only for want of memory: before the backend is asked, or behind the entry of what it brought.
pub fn listen_turn<W: World>(
    files: &mut Files<W::Back>,
    worker: &Worker,
    world: &mut W,
    journal: &mut Journal,
) -> Result<(), Memory>
    ghost start: { Start }
    requires turn { (at : ℕ) × AtTurn start worker.now at ListenTurn journal.old.past }
    requires files { FilesStand start files.old journal.old.past }
    ensures alone { AttendsAlone start worker.now journal.old (W.seen world.old) journal.new (W.seen world.new) }
    ensures served { OnOk result (agenda start journal.new.past ≡ Open) }
    ensures files { OnOk result (FilesStand start files.new journal.new.past) }
    ensures cut { OnErr result (NoneIsToGo (agenda start journal.new.past)) }
    ensures none_unmade { ends_unmade journal.new.past ≡ false }
    ensures paid { PaysOn journal.old.past (W.seen world.old) (owing files.old) journal.new.past (W.seen world.new) (owing files.new) }
    ensures settles { GoesOnSettling W.Back.backing W.Back.fits result start files.old journal.old.past (W.seen world.old).looked files.new journal.new.past (W.seen world.new).looked }
{
    match &mut files.source {
        None => say(worker, Word::Ignored, journal),
        Some(watching) => listen(
            files.alloc,
            watching,
            &mut files.intake,
            worker,
            world,
            journal,
        ),
    }
}
