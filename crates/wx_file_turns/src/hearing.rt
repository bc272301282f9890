// How what was brought is heard: what it says of the tree is told to what keeps watches, and a fault is shown.
ghost use Rattle.std.specs.Prelude.{◌≡◌, ◌≤◌, ◌+◌, ◌⊎◌, ◌∷◌, if◌then◌else◌, true, false, [], IfErr, IfOk, OnOk, Some};
ghost use Rattle.wx_holding.specs.Holding.{state_of};
ghost use Rattle.wx_journal.specs.declared.entry.Entry.TheVariants.{Heard};
ghost use Rattle.wx_machine.specs.Answer.{BreaksHere};
ghost use Rattle.wx_machine.specs.Due.{Comes, Open, Shows, Steps, after_fault, agenda, is_quitting};
ghost use Rattle.wx_machine.specs.Journal.{closed};
ghost use Rattle.wx_machine.specs.Start.{Start};
ghost use Rattle.wx_machine.specs.Steps.{work_count};
ghost use Rattle.wx_worker.specs.Stands.{MayShow, Owes};
ghost use Rattle.wx_file_turns.specs.FewSteps.{AddsBeside};
ghost use Rattle.wx_file_turns.specs.Hearing.{IsToHear, StaysWatching, hearing_of, told_all, told_of};
ghost use Rattle.wx_file_turns.specs.Intake.{heard};
ghost use Rattle.wx_file_turns.specs.Judged.{StepsHand};
ghost use Rattle.wx_file_turns.specs.Serves.{AttendsHand};
ghost use Rattle.wx_file_turns.specs.Standing.{IntakeStands};
ghost use Rattle.wx_file_turns.specs.Stepping.{IsWatching};

use crate::files::Watching;
use crate::intake::Intake;
use std::alloc::Global;
use wx_error::{CriticalError, RuntimeError};
use wx_fs::Recursor;
use wx_journal::{Entry, Journal};
use wx_lane::{LaneItem, Topology, topology_messages};
use wx_scan::Backend;
use wx_text::{Boxed, Copies, List, Memory};
use wx_watch::{FsWatcherError, NotifyFault, Watcher};
use wx_worker::{Hooks, Worker};

/// What is made of an item that is heard: its name, what it says of the tree, in messages, where its backend is live, and the fault
/// that it is, where it is one.
#[derive(Drop)]
pub(crate) struct Hearing {
    pub name: u64,
    pub messages: List<Topology>,
    pub fault: Option<NotifyFault>,
}

/// These messages, where the backend that they are of is live.
fn where_live(alloc: Global, live: bool, messages: List<Topology>) -> List<Topology>
    ensures { result ≡ (if live then messages else []) }
{
    if live {
        messages
    } else {
        drop(messages);
        List::new(alloc)
    }
}

/// What is made of this item, whose backend is live or isn't. It fails only for want of memory.
pub(crate) fn heard_item(alloc: Global, live: bool, item: &LaneItem) -> Result<Hearing, Memory>
    ensures { IfOk result (λ hearing. hearing ≡ hearing_of live item.now) }
{
    match &item.item {
        Ok(n) => {
            let messages = topology_messages(alloc, n)?;
            Ok(Hearing {
                name: item.name,
                messages: where_live(alloc, live, messages),
                fault: None,
            })
        }
        Err(fault) => {
            let fault = fault.copy(alloc)?;
            Ok(Hearing {
                name: item.name,
                messages: List::new(alloc),
                fault: Some(fault),
            })
        }
    }
}

/// Tells what keeps watches what happened to the tree. It fails only for want of memory.
fn tell<B: Backend + Drop>(message: &Topology, recursor: &mut Recursor<B>) -> Result<(), Memory>
    ensures stays { OnOk result (StaysWatching recursor.old recursor.new) }
    ensures told { OnOk result (state_of recursor.new.held ≡ told_of recursor.old.cwd message.now (state_of recursor.old.held)) }
{
    match message {
        Topology::Create(path) => recursor.topology_create(path),
        Topology::Remove(path) => recursor.topology_remove(path),
        Topology::Rename { from, to } => recursor.topology_rename(from, to),
        Topology::Ambiguous(path) => recursor.topology_ambiguous(path),
        Topology::Rescan => recursor.rescan(),
    }
}

/// Tells it all of this, in order. It keeps watches as the same settings say. It fails only for want of memory.
fn tell_all<B: Backend + Drop>(
    messages: List<Topology>,
    watching: &mut Watching<B>,
) -> Result<(), Memory>
    ensures stays { OnOk result (StaysWatching watching.old.recursor watching.new.recursor) }
    ensures told { OnOk result (state_of watching.new.recursor.held ≡ told_all watching.old.recursor.cwd messages (state_of watching.old.recursor.held)) }
    ensures named { watching.new.back ≡ watching.old.back }
    ensures silent { messages ≡ [] → watching.new ≡ watching.old }
{
    if messages.is_empty() {
        return Ok(());
    }
    for message in messages.as_slice() {
        tell(message, &mut watching.recursor)?;
    }
    Ok(())
}

/// Shows an error that is owed to the error handler. It fails where the handler wished that the run ends with an error, and for want
/// of memory.
fn show_owed<H: Hooks>(
    alloc: Global,
    error: RuntimeError,
    worker: &mut Worker,
    hooks: &mut H,
    journal: &mut Journal,
) -> Result<(), CriticalError>
    ghost start: { Start }
    requires owes { Owes start worker.old journal.old.past (Comes (Shows error) Open) }
    requires going { is_quitting journal.old.past ≡ false }
    ensures hand { StepsHand H.seen H.rule H.stands start worker.old journal.old hooks.old worker.new journal.new hooks.new }
    ensures served { OnOk result (agenda start journal.new.past ≡ Open) }
    ensures adds { MayShow journal.old.past journal.new.past }
    ensures breaks { IfErr result (λ error. BreaksHere start journal.new.past error) }
{
    worker.reserve(1, journal)?;
    hooks.reserve(1)?;
    worker.call_show(alloc, error, hooks, journal)
}

/// Shows a fault that was heard to the error handler, unless the queue is closed. It fails as the showing of an error does.
fn show_found<H: Hooks>(
    alloc: Global,
    kind: Watcher,
    fault: NotifyFault,
    worker: &mut Worker,
    hooks: &mut H,
    journal: &mut Journal,
) -> Result<(), CriticalError>
    ghost start: { Start }
    requires owes { Owes start worker.old journal.old.past (after_fault (closed journal.old.past) kind (Some fault) Open) }
    requires going { is_quitting journal.old.past ≡ false }
    ensures hand { StepsHand H.seen H.rule H.stands start worker.old journal.old hooks.old worker.new journal.new hooks.new }
    ensures served { OnOk result (agenda start journal.new.past ≡ Open) }
    ensures adds { MayShow journal.old.past journal.new.past }
    ensures breaks { IfErr result (λ error. BreaksHere start journal.new.past error) }
{
    if worker.queue.is_closed() {
        drop(fault);
        return Ok(());
    }
    let err = Boxed::new(alloc, FsWatcherError::Event(fault))?;
    show_owed(
        alloc,
        RuntimeError::FsWatcher { kind, err },
        worker,
        hooks,
        journal,
    )
}

/// Shows the fault that an item is, where it is one, to the error handler, unless the queue is closed. It fails where the handler
/// wished that the run ends with an error, and for want of memory.
fn show_fault<H: Hooks>(
    alloc: Global,
    kind: Watcher,
    fault: Option<NotifyFault>,
    worker: &mut Worker,
    hooks: &mut H,
    journal: &mut Journal,
) -> Result<(), CriticalError>
    ghost start: { Start }
    requires owes { Owes start worker.old journal.old.past (after_fault (closed journal.old.past) kind fault Open) }
    requires going { is_quitting journal.old.past ≡ false }
    ensures hand { StepsHand H.seen H.rule H.stands start worker.old journal.old hooks.old worker.new journal.new hooks.new }
    ensures served { OnOk result (agenda start journal.new.past ≡ Open) }
    ensures adds { MayShow journal.old.past journal.new.past }
    ensures breaks { IfErr result (λ error. BreaksHere start journal.new.past error) }
{
    match fault {
        None => Ok(()),
        Some(fault) => show_found(alloc, kind, fault, worker, hooks, journal),
    }
}

/// An item is heard, which comes next: this is listed, what it says of the tree is told to what keeps watches, and a fault is shown to
/// the error handler. It fails where this wished that the run ends with an error, and for want of memory.
pub(crate) fn hear<B: Backend + Drop, H: Hooks>(
    alloc: Global,
    hearing: Hearing,
    watching: &mut Watching<B>,
    intake: &mut Intake,
    worker: &mut Worker,
    hooks: &mut H,
    journal: &mut Journal,
) -> Result<(), CriticalError>
    ghost start: { Start }
    requires owes { Owes start worker.old journal.old.past (Steps true Open) }
    requires next { IsToHear start hearing journal.old.past }
    requires watching { IsWatching start watching.old journal.old.past }
    requires intake { IntakeStands start intake.old journal.old.past }
    requires going { is_quitting journal.old.past ≡ false }
    ensures hand { AttendsHand H.seen H.rule H.stands start worker.old journal.old hooks.old worker.new journal.new hooks.new }
    ensures served { OnOk result (agenda start journal.new.past ≡ Open) }
    ensures adds { OnOk result (MayShow (Heard hearing.name ∷ journal.old.past) journal.new.past) }
    ensures watching { OnOk result (IsWatching start watching.new journal.new.past) }
    ensures intake { OnOk result (IntakeStands start intake.new journal.new.past) }
    ensures work { OnOk result (work_count journal.old.past + 1 ≤ work_count journal.new.past) }
    ensures told { OnOk result (state_of watching.new.recursor.held ≡ told_all watching.old.recursor.cwd hearing.messages (state_of watching.old.recursor.held)) }
    ensures silent { hearing.messages ≡ [] → watching.new ≡ watching.old }
    ensures lane { OnOk result (intake.new ≡ heard hearing.name intake.old) }
    ensures beside { AddsBeside journal.old.past journal.new.past }
    ensures idle { (work_count journal.old.past + 1 ≤ work_count journal.new.past) ⊎ (watching.new ≡ watching.old) }
    ensures breaks { IfErr result (λ error. BreaksHere start journal.new.past error) }
{
    worker.reserve(1, journal)?;
    let Hearing {
        name,
        messages,
        fault,
    } = hearing;
    journal.push(Entry::Heard(name));
    intake.hear(name);
    let kind = watching.recursor.kind;
    tell_all(messages, watching)?;
    show_fault(alloc, kind, fault, worker, hooks, journal)
}
