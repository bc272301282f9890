// What comes where there is no step to take: it is told that all is watched, what was brought is heard, let go or offered, or there is
// nothing to do.
ghost use Rattle.std.specs.Prelude.{◌≡◌, ◌∷◌, ◌&&◌, not, Some, true, false, IfErr, IfOk, OnErr, OnOk};
ghost use Rattle.wx_events.specs.declared.priority.Priority.TheVariants.{Normal};
ghost use Rattle.wx_lane.specs.Messages.{has_changes};
ghost use Rattle.wx_journal.specs.declared.entry.Entry.TheVariants.{LetGo as ALetGo, Ready as AReady};
ghost use Rattle.wx_machine.specs.Answer.{BreaksHere};
ghost use Rattle.wx_machine.specs.Due.{Open, Steps, agenda, is_quitting, rest_entry};
ghost use Rattle.wx_machine.specs.Files.{is_deaf};
ghost use Rattle.wx_machine.specs.Start.{Start};
ghost use Rattle.wx_action.specs.Calls.{offer_of};
ghost use Rattle.wx_action.specs.Serves.{Grows};
ghost use Rattle.wx_action.specs.Stands.{Owes};
ghost use Rattle.wx_file_turns.specs.Attended.{Rests};
ghost use Rattle.wx_file_turns.specs.Intake.{left, told};
ghost use Rattle.wx_file_turns.specs.Resting.{IsFirst, next_asked, next_event, next_item};
ghost use Rattle.wx_file_turns.specs.Serves.{Attends, AttendsAlone, GrowsAlone, PaysOn};
ghost use Rattle.wx_file_turns.specs.Settling.{GoesOnWalking};
ghost use Rattle.wx_file_turns.specs.Standing.{IntakeStands, owed, works};
ghost use Rattle.wx_file_turns.specs.Stepping.{IsWatching};

use crate::files::Watching;
use crate::hearing::{Hearing, hear, heard_item};
use crate::intake::Intake;
use crate::showing::say;
use std::alloc::Global;
use wx_action::{Hooks, Worker, World};
use wx_error::CriticalError;
use wx_events::{Event, Priority};
use wx_journal::{Entry, Journal, LetGoCause, Word};
use wx_lane::{LaneItem, file_event, topology_messages};
use wx_notify::Notify;
use wx_scan::Backend;
use wx_text::Memory;

/// What comes next where there is no step to take.
#[derive(Drop)]
pub(crate) enum Next {
    /// There is nothing to do.
    Rest,
    /// It is told that all of this revision is watched.
    Ready(u64),
    /// An item is heard.
    Hear(Hearing),
    /// The first item, of this name, is let go.
    LetGo(u64, LetGoCause),
    /// The first item, of this name, is offered as this event.
    Offer(u64, Event),
}

/// Whether this notification, which was heard or wasn't, says something of the tree that wasn't heard. It fails only for want of
/// memory.
fn is_unheard(alloc: Global, heard: bool, n: &Notify) -> Result<bool, Memory>
    ensures { IfOk result (λ unheard. unheard ≡ (has_changes n.now && not heard)) }
{
    if heard {
        return Ok(false);
    }
    Ok(!topology_messages(alloc, n)?.is_empty())
}

/// Whether an item is to be heard. It fails only for want of memory.
fn is_deaf(alloc: Global, item: &LaneItem) -> Result<bool, Memory>
    ensures { IfOk result (λ deaf. deaf ≡ is_deaf item.now) }
{
    match &item.item {
        Ok(n) => is_unheard(alloc, item.heard, n),
        Err(_) => Ok(true),
    }
}

/// What comes next of the first item, of this name, which is an event and was heard where it is to be. Its backend is live or isn't. It
/// fails only for want of memory.
fn next_event<B: Backend + Drop>(
    alloc: Global,
    live: bool,
    item: u64,
    n: &Notify,
    watching: &Watching<B>,
) -> Result<Next, Memory>
    ensures { IfOk result (λ next. next ≡ next_event watching.now live item n.now) }
{
    if !live {
        return Ok(Next::LetGo(item, LetGoCause::Obsolete));
    }
    if !watching.recursor.event_is_public(n) {
        return Ok(Next::LetGo(item, LetGoCause::Uncovered));
    }
    Ok(Next::Offer(item, file_event(alloc, n)?))
}

/// What comes next of the first item, whose backend is live or isn't. It fails only for want of memory.
fn next_item<B: Backend + Drop>(
    alloc: Global,
    live: bool,
    item: &LaneItem,
    watching: &Watching<B>,
) -> Result<Next, Memory>
    ensures { IfOk result (λ next. next ≡ next_item watching.now live item.now) }
{
    if is_deaf(alloc, item)? {
        return Ok(Next::Hear(heard_item(alloc, live, item)?));
    }
    match &item.item {
        Ok(n) => next_event(alloc, live, item.name, n, watching),
        Err(_) => unreachable!(),
    }
}

/// What comes next where it is to be told that all of this revision is watched: an item that isn't heard yet, and was brought before,
/// is. It fails only for want of memory.
fn next_fenced<B: Backend + Drop>(
    alloc: Global,
    revision: u64,
    watching: &Watching<B>,
    intake: &Intake,
) -> Result<Next, Memory>
    ensures { IfOk result (λ next. next ≡ next_asked watching.now intake.now (Some revision)) }
{
    match intake.lane.fence(intake.fence) {
        None => Ok(Next::Ready(revision)),
        Some(item) => {
            let live = watching.is_live(intake.since, item.back);
            Ok(Next::Hear(heard_item(alloc, live, item)?))
        }
    }
}

/// What comes next where there is no step to take. It fails only for want of memory.
fn coming<B: Backend + Drop>(
    alloc: Global,
    watching: &Watching<B>,
    intake: &Intake,
) -> Result<Next, Memory>
    ensures { IfOk result (λ next. next ≡ next_asked watching.now intake.now intake.now.asks) }
{
    if let Some(revision) = intake.asks {
        return next_fenced(alloc, revision, watching, intake);
    }
    match intake.lane.first() {
        None => Ok(Next::Rest),
        Some(item) => {
            let live = watching.is_live(intake.since, item.back);
            next_item(alloc, live, item, watching)
        }
    }
}

/// Tells the world that all of this revision is watched. It fails only for want of memory, and tells nothing then.
fn tell_ready<W: World>(
    revision: u64,
    intake: &mut Intake,
    worker: &Worker,
    world: &mut W,
    journal: &mut Journal,
) -> Result<(), Memory>
    ghost start: { Start }
    requires owes { Owes start worker.now journal.old.past (Steps true Open) }
    requires next { rest_entry start journal.old.past ≡ AReady revision }
    ensures alone { AttendsAlone start worker.now journal.old (W.seen world.old) journal.new (W.seen world.new) }
    ensures told { OnOk result ((journal.new.past ≡ AReady revision ∷ journal.old.past) × (intake.new ≡ told intake.old)) }
    ensures err { OnErr result (journal.new.past ≡ journal.old.past) }
{
    worker.reserve(1, journal)?;
    worker.reserve_host(1, world)?;
    world.ready(revision, &worker.config.fs_ready);
    journal.push(Entry::Ready(revision));
    intake.tell();
    Ok(())
}

/// Lets the first item go, which has this name. It fails only for want of memory, and adds no entry then.
fn let_go(
    item: u64,
    cause: LetGoCause,
    intake: &mut Intake,
    worker: &Worker,
    journal: &mut Journal,
) -> Result<(), Memory>
    ghost start: { Start }
    requires owes { Owes start worker.now journal.old.past (Steps true Open) }
    requires next { rest_entry start journal.old.past ≡ ALetGo item cause }
    requires first { IsFirst start item journal.old.past }
    ensures grows { GrowsAlone start worker.now journal.old journal.new }
    ensures gone { OnOk result ((journal.new.past ≡ ALetGo item cause ∷ journal.old.past) × (intake.new ≡ left intake.old)) }
    ensures err { OnErr result (journal.new.past ≡ journal.old.past) }
{
    worker.reserve(1, journal)?;
    journal.push(Entry::LetGo { item, cause });
    intake.leave();
    Ok(())
}

/// Offers the first item, which has this name, as this event. It fails only for want of memory, and adds no entry then.
fn offer(
    alloc: Global,
    item: u64,
    event: Event,
    intake: &mut Intake,
    worker: &mut Worker,
    journal: &mut Journal,
) -> Result<(), Memory>
    ghost start: { Start }
    requires owes { Owes start worker.old journal.old.past (Steps true Open) }
    requires next { rest_entry start journal.old.past ≡ offer_of start journal.old.past (Some item) event Normal }
    requires first { IsFirst start item journal.old.past }
    ensures grows { Grows start worker.old journal.old worker.new journal.new }
    ensures offered { OnOk result ((journal.new.past ≡ offer_of start journal.old.past (Some item) event Normal ∷ journal.old.past) × (intake.new ≡ left intake.old)) }
    ensures err { OnErr result (journal.new.past ≡ journal.old.past) }
{
    worker.offer(alloc, Some(item), event, Priority::Normal, journal)?;
    intake.leave();
    Ok(())
}

/// A turn where a backend stands and there is no step to take. It fails where the error handler wished that the run ends with an error,
/// and for want of memory.
pub(crate) fn rest<W: World, H: Hooks>(
    alloc: Global,
    watching: &mut Watching<W::Back>,
    intake: &mut Intake,
    worker: &mut Worker,
    world: &mut W,
    hooks: &mut H,
    journal: &mut Journal,
) -> Result<(), CriticalError>
    ghost start: { Start }
    requires owes { Owes start worker.old journal.old.past (Steps true Open) }
    requires watching { IsWatching start watching.old journal.old.past }
    requires intake { IntakeStands start intake.old journal.old.past }
    requires going { is_quitting journal.old.past ≡ false }
    ensures attends { Attends H.seen H.rule H.stands start worker.old journal.old (W.seen world.old) hooks.old worker.new journal.new (W.seen world.new) hooks.new }
    ensures served { OnOk result (agenda start journal.new.past ≡ Open) }
    ensures watching { OnOk result (IsWatching start watching.new journal.new.past) }
    ensures intake { OnOk result (IntakeStands start intake.new journal.new.past) }
    ensures rests { OnOk result (Rests start watching.old watching.new journal.old.past journal.new.past) }
    ensures breaks { IfErr result (λ error. BreaksHere start journal.new.past error) }
    ensures paid { PaysOn journal.old.past (W.seen world.old) (owed (works watching.old)) journal.new.past (W.seen world.new) (owed (works watching.new)) }
    ensures settles { GoesOnWalking W.Back.backing W.Back.fits result start watching.old intake.old journal.old.past (W.seen world.old).looked watching.new intake.new journal.new.past (W.seen world.new).looked }
{
    match coming(alloc, watching, intake)? {
        Next::Rest => Ok(say(worker, Word::Quiet, journal)?),
        Next::Ready(revision) => Ok(tell_ready(revision, intake, worker, world, journal)?),
        Next::Hear(hearing) => hear(alloc, hearing, watching, intake, worker, hooks, journal),
        Next::LetGo(item, cause) => Ok(let_go(item, cause, intake, worker, journal)?),
        Next::Offer(item, event) => Ok(offer(alloc, item, event, intake, worker, journal)?),
    }
}
