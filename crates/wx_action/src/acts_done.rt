// What acts ask for is done.
ghost use Rattle.std.specs.Prelude.{◌≡◌, ◌+◌, ◌≤◌, Option, List, [], ◌∷◌, OnOk, OnErr};
ghost use Rattle.wx_hooks.specs.declared.handler.Todo.{Todo as ATodo};
ghost use Rattle.wx_hooks.specs.declared.handler.Todo.TheVariants as todo;
ghost use Rattle.wx_worker.specs.Serves.{Grows, Performs};
ghost use Rattle.wx_machine.specs.Start.{Start};
ghost use Rattle.wx_control.specs.declared.id.Id.{Id as AnId};
ghost use Rattle.wx_journal.specs.Acts.{JournalAct as Act};
ghost use Rattle.wx_journal.specs.declared.entry.Act.TheVariants.{Ask as Asks};
ghost use Rattle.wx_machine.specs.declared.quit.QuitManner.{QuitManner as AQuit};
ghost use Rattle.wx_machine.specs.Quits.{stop_asks, quit_asks};
ghost use Rattle.wx_machine.specs.Jobs.{jobs};
ghost use Rattle.wx_machine.specs.Answer.{NoneIsToGo};
ghost use Rattle.wx_machine.specs.Due.{agenda};
ghost use Rattle.wx_machine.specs.Steady.{OnlyRoom};
ghost use Rattle.wx_action.specs.Perform.{OwesPlan, OwesActs, IsFirst, Does, DoesAsk};
ghost use Rattle.wx_worker.specs.Stands.{Stands, Ready, end_room};

use std::alloc::Global;
use wx_config::Change;
use wx_control::{Ask, Control, Flag, Id};
use wx_events::Signal;
use wx_hooks::{Held, QuitManner, Todo};
use wx_job::Host;
use wx_journal::{Entry, Journal, Word};
use wx_text::Memory;
use wx_worker::Worker;

/// Takes the room for making a job, and for its end. It fails only for want of memory.
fn reserve_job<W: Host>(worker: &Worker, host: &mut W, journal: &mut Journal) -> Result<(), Memory>
    ensures same { journal.new.past ≡ journal.old.past }
    ensures rest { OnlyRoom (W.seen host.old) (W.seen host.new) }
    ensures kept { journal.old.spare ≤ journal.new.spare }
    ensures room { OnOk result (3 + end_room worker.now ≤ journal.new.spare) }
    ensures host_room { OnOk result (2 + end_room worker.now ≤ (W.seen host.new).spare) }
{
    worker.reserve(3, journal)?;
    worker.reserve_host(2, host)
}

/// Makes a job that an act created: it is held from now on, with the room for its end. It fails only for want of memory,
/// and adds no entry then.
fn make<W: Host>(
    worker: &mut Worker,
    held: Held,
    host: &mut W,
    journal: &mut Journal,
) -> Result<(), Memory>
    ghost start: { Start }
    requires owes { IsFirst start journal.old.past (todo.Create held) }
    requires ready { Ready start worker.old journal.old (W.seen host.old) }
    ensures performs { Performs start journal.old.past (W.seen host.old) worker.new journal.new (W.seen host.new) }
    ensures does { Does result start journal.old.past (todo.Create held) journal.new.past }
{
    let Ok(()) = reserve_job(worker, host, journal) else {
        drop(held);
        return Err(Memory);
    };
    let id = held.handle.id();
    worker.jobs.add(held)?;
    journal.push(Entry::Made(id));
    Ok(())
}

/// Asks of a job what an act asked of it, where the job lives, and else says that it is ignored. It fails only for want of
/// memory, and adds no entry then.
fn ask_or_ignore(
    alloc: Global,
    worker: &mut Worker,
    id: Id,
    ask: Ask,
    done: Option<Flag>,
    journal: &mut Journal,
) -> Result<(), Memory>
    ghost start: { Start }
    requires owes { (acts : List Act) × OwesPlan start journal.old.past (Asks id ask ∷ acts) }
    requires stands { Stands start worker.old journal.old.past }
    ensures grows { Grows start worker.old journal.old worker.new journal.new }
    ensures does { DoesAsk result start journal.old.past id ask journal.new.past }
{
    let Ok(()) = worker.reserve(2, journal) else {
        drop(done);
        return Err(Memory);
    };
    if !worker.jobs.lives(id) {
        drop(done);
        journal.push(Entry::Word(Word::Ignored));
        return Ok(());
    }
    let task = worker.jobs.task_mut(id);
    let ticket = task.send(alloc, ask, done, journal)?;
    drop(ticket);
    Ok(())
}

/// Changes the settings as an act asked. It fails only for want of memory, and adds no entry then.
fn change(worker: &mut Worker, change: Change, journal: &mut Journal) -> Result<(), Memory>
    ghost start: { Start }
    requires owes { IsFirst start journal.old.past (todo.Change change) }
    requires stands { Stands start worker.old journal.old.past }
    ensures grows { Grows start worker.old journal.old worker.new journal.new }
    ensures does { Does result start journal.old.past (todo.Change change) journal.new.past }
{
    let Ok(()) = worker.reserve(1, journal) else {
        drop(change);
        return Err(Memory);
    };
    worker.change(change, journal);
    Ok(())
}

/// Does what an act asks for. It fails only for want of memory, and adds no entry then.
fn perform_one<W: Host>(
    alloc: Global,
    worker: &mut Worker,
    todo: Todo,
    host: &mut W,
    journal: &mut Journal,
) -> Result<(), Memory>
    ghost start: { Start }
    requires owes { IsFirst start journal.old.past todo }
    requires ready { Ready start worker.old journal.old (W.seen host.old) }
    ensures performs { Performs start journal.old.past (W.seen host.old) worker.new journal.new (W.seen host.new) }
    ensures does { Does result start journal.old.past todo journal.new.past }
{
    match todo {
        Todo::Create(held) => make(worker, held, host, journal),
        Todo::Ask { job, ask, done } => ask_or_ignore(alloc, worker, job, ask, Some(done), journal),
        Todo::Change(asked) => change(worker, asked, journal),
    }
}

/// Does what the acts of a batch ask for, in order. It fails only for want of memory; what was done before stays.
pub(crate) fn perform<W: Host>(
    alloc: Global,
    worker: &mut Worker,
    todo: Vec<Todo>,
    host: &mut W,
    journal: &mut Journal,
) -> Result<(), Memory>
    ghost start: { Start }
    requires owes { (quit : Option AQuit) × (ids : List AnId) × OwesActs start journal.old.past todo.items quit ids }
    requires ready { Ready start worker.old journal.old (W.seen host.old) }
    ensures performs { Performs start journal.old.past (W.seen host.old) worker.new journal.new (W.seen host.new) }
    ensures owes { (quit : Option AQuit) (ids : List AnId) → OwesActs start journal.old.past todo.items quit ids → (rest : List ATodo) × OwesActs start journal.new.past rest quit ids }
    ensures done { OnOk result ((quit : Option AQuit) (ids : List AnId) → OwesActs start journal.old.past todo.items quit ids → OwesActs start journal.new.past [] quit ids) }
{
    for one in todo {
        perform_one(alloc, worker, one, host, journal)?;
    }
    Ok(())
}

/// Asks of a job what a graceful quit asks of each: that it stops, in a grace, and then that it is deleted. It fails only for
/// want of memory.
fn stop_job(
    alloc: Global,
    worker: &mut Worker,
    id: Id,
    signal: Signal,
    grace: u64,
    journal: &mut Journal,
) -> Result<(), Memory>
    ghost start: { Start }
    requires owes { (ids : List AnId) × OwesPlan start journal.old.past (stop_asks signal grace (id ∷ ids)) }
    requires stands { Stands start worker.old journal.old.past }
    ensures grows { Grows start worker.old journal.old worker.new journal.new }
    ensures done { OnOk result ((ids : List AnId) → OwesPlan start journal.old.past (stop_asks signal grace (id ∷ ids)) → OwesPlan start journal.new.past (stop_asks signal grace ids)) }
    ensures cut { OnErr result (NoneIsToGo (agenda start journal.new.past)) }
{
    let stop = Ask::One(Control::GracefulStop { signal, grace });
    ask_or_ignore(alloc, worker, id, stop, None, journal)?;
    ask_or_ignore(alloc, worker, id, Ask::Delete, None, journal)
}

/// The same of each job that lives, by rising id. It fails only for want of memory; what was asked before stays.
fn stop_jobs(
    alloc: Global,
    worker: &mut Worker,
    signal: Signal,
    grace: u64,
    journal: &mut Journal,
) -> Result<(), Memory>
    ghost start: { Start }
    requires owes { OwesPlan start journal.old.past (stop_asks signal grace (jobs journal.old.past)) }
    requires stands { Stands start worker.old journal.old.past }
    ensures grows { Grows start worker.old journal.old worker.new journal.new }
    ensures done { OnOk result (OwesPlan start journal.new.past []) }
    ensures cut { OnErr result (NoneIsToGo (agenda start journal.new.past)) }
{
    let ids = worker.jobs.living(alloc)?;
    for id in ids {
        stop_job(alloc, worker, id, signal, grace, journal)?;
    }
    Ok(())
}

/// Asks what a quit of a batch asks of the jobs that live: nothing, where it isn't graceful. It fails only for want of memory.
pub(crate) fn ask_quit(
    alloc: Global,
    worker: &mut Worker,
    quit: Option<QuitManner>,
    journal: &mut Journal,
) -> Result<(), Memory>
    ghost start: { Start }
    requires owes { OwesPlan start journal.old.past (quit_asks quit (jobs journal.old.past)) }
    requires stands { Stands start worker.old journal.old.past }
    ensures grows { Grows start worker.old journal.old worker.new journal.new }
    ensures done { OnOk result (OwesPlan start journal.new.past []) }
    ensures cut { OnErr result (NoneIsToGo (agenda start journal.new.past)) }
{
    match quit {
        Some(QuitManner::Graceful { signal, grace }) => {
            stop_jobs(alloc, worker, signal, grace, journal)
        }
        Some(QuitManner::Abort) | None => Ok(()),
    }
}
