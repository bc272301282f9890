// The turns of jobs.
ghost use Rattle.std.specs.Prelude.{◌≡◌, ℕ, ◌+◌, option_map, IfSome, IfNone, IfOk};
ghost use Rattle.std.specs.List.{find};
ghost use Rattle.wx_journal.specs.declared.entry.TurnKind.TheVariants.{Ask as AsksTurn, Change as ChangeTurn, Job as JobTurn, Ended as EndedTurn};
ghost use Rattle.wx_journal.specs.declared.entry.Word.TheVariants.{Ignored};
ghost use Rattle.wx_machine.specs.Kept.{Promised};
ghost use Rattle.wx_machine.specs.Steady.{HaveRoom};
ghost use Rattle.wx_worker.specs.Serves.{Grows, Continues, Steps, Settles};
ghost use Rattle.wx_hooks.specs.EndsJobs.{EndsJobs};
ghost use Rattle.wx_machine.specs.Start.{Start};
ghost use Rattle.wx_hooks.specs.HeldJobs.{parked_at, handle_id, runs_child};
ghost use Rattle.wx_machine.specs.Due.{Open, agenda, says};
ghost use Rattle.wx_worker.specs.Stands.{Stands, Ready, AtTurn, IsStepOf, end_room};

use std::alloc::Global;
use wx_config::Change;
use wx_control::{Ask, Flag, Id};
use wx_hooks::Hooks;
use wx_job::Host;
use wx_journal::Journal;
use wx_text::Memory;
use wx_worker::Worker;

/// A turn that asks this of a job: the controls wait, the last one with `last` as its flag, where that is given. It fails
/// only for want of memory, and adds no entry then.
pub fn ask_turn(
    alloc: Global,
    worker: &mut Worker,
    id: Id,
    ask: Ask,
    last: Option<Flag>,
    journal: &mut Journal,
) -> Result<(), Memory>
    ghost start: { Start }
    requires turn { (at : ℕ) × AtTurn start worker.old at (AsksTurn id ask) journal.old.past }
    ensures grows { Grows start worker.old journal.old worker.new journal.new }
    ensures settles { Settles result start journal.old.past journal.new.past }
{
    if !worker.jobs.lives(id) {
        return worker.ignored(journal);
    }
    worker.reserve(2, journal)?;
    let task = worker.jobs.task_mut(id);
    let ticket = task.send(alloc, ask, last, journal)?;
    drop(ticket);
    Ok(())
}

/// A turn that changes the settings: it says so with the new revision, and where this can't be raised that the turn is ignored.
/// It fails only for want of memory, and adds no entry then.
pub fn change_turn(worker: &mut Worker, change: Change, journal: &mut Journal) -> Result<(), Memory>
    ghost start: { Start }
    requires turn { (at : ℕ) × AtTurn start worker.old at (ChangeTurn change) journal.old.past }
    ensures grows { Grows start worker.old journal.old worker.new journal.new }
    ensures settles { Settles result start journal.old.past journal.new.past }
{
    if worker.config.change_signal == u64::MAX {
        drop(change);
        return worker.ignored(journal);
    }
    let Ok(()) = worker.reserve(1, journal) else {
        drop(change);
        return Err(Memory);
    };
    worker.change(change, journal);
    Ok(())
}

/// The step of the job of this id, which is owed. It fails only for want of memory: then no entry was added,
/// or the case was given up behind the call of the job's spawn hook.
fn step_of<W: Host, H: Hooks>(
    alloc: Global,
    worker: &mut Worker,
    id: Id,
    at: u64,
    host: &mut W,
    hooks: &mut H,
    journal: &mut Journal,
) -> Result<(), Memory>
    ghost start: { Start }
    requires due { IsStepOf start id at journal.old.past }
    requires stands { Stands start worker.old journal.old.past }
    requires room { HaveRoom (16 + parked_at id worker.old.jobs + end_room worker.old) 16 journal.old (W.seen host.old) (H.seen hooks.old) }
    ensures continues { Continues H.seen H.rule H.stands start worker.old journal.old (W.seen host.old) hooks.old worker.new journal.new (W.seen host.new) hooks.new }
    ensures steps { Steps result start journal.old.past journal.new.past }
{
    let task = worker.jobs.task_mut(id);
    task.step(alloc, at, host, hooks, journal)?;
    Ok(())
}

/// The room for a step of the job of this id: 16 entries, and one for each ticket that is parked. It fails where that is no
/// number of 64 bits.
fn step_room(worker: &Worker, id: Id) -> Result<u64, Memory>
    ensures { IfOk result (λ n. n ≡ 16 + parked_at id worker.now.jobs) }
{
    worker.jobs.parked(id).checked_add(16).ok_or(Memory)
}

/// The step of the job of this id, which is owed, once room is taken for it. It fails only for want of memory: then no
/// entry was added, or the case was given up behind the call of the job's spawn hook.
fn take_step<W: Host, H: Hooks>(
    alloc: Global,
    worker: &mut Worker,
    id: Id,
    at: u64,
    host: &mut W,
    hooks: &mut H,
    journal: &mut Journal,
) -> Result<(), Memory>
    ghost start: { Start }
    requires due { IsStepOf start id at journal.old.past }
    requires stands { Stands start worker.old journal.old.past }
    ensures continues { Continues H.seen H.rule H.stands start worker.old journal.old (W.seen host.old) hooks.old worker.new journal.new (W.seen host.new) hooks.new }
    ensures steps { Steps result start journal.old.past journal.new.past }
{
    let room = step_room(worker, id)?;
    worker.reserve_calls(room, room, 16, host, hooks, journal)?;
    let stepped = step_of(alloc, worker, id, at, host, hooks, journal);
    worker.jobs.note_living();
    stepped
}

/// A turn of a job: it takes a step. It fails only for want of memory: then no entry was added,
/// or the case was given up behind the call of the job's spawn hook.
pub fn job_turn<W: Host, H: Hooks>(
    alloc: Global,
    worker: &mut Worker,
    id: Id,
    at: u64,
    host: &mut W,
    hooks: &mut H,
    journal: &mut Journal,
) -> Result<(), Memory>
    ghost start: { Start }
    requires turn { AtTurn start worker.old at (JobTurn id) journal.old.past }
    ensures continues { Continues H.seen H.rule H.stands start worker.old journal.old (W.seen host.old) hooks.old worker.new journal.new (W.seen host.new) hooks.new }
    ensures promised { Promised H.seen H.rule H.stands hooks.old journal.old.past hooks.new journal.new.past }
    ensures steps { Steps result start journal.old.past journal.new.past }
{
    if !worker.jobs.lives(id) {
        return worker.ignored(journal);
    }
    take_step(alloc, worker, id, at, host, hooks, journal)
}

/// The id of the job whose child this is, where it runs: the job for which it was spawned.
fn parent(worker: &Worker, child: u64, journal: &Journal) -> Option<Id>
    ghost start: { Start }
    requires { (at : ℕ) × AtTurn start worker.now at (EndedTurn child) journal.now.past }
    ensures { result ≡ option_map handle_id (find (runs_child child) worker.now.jobs) }
{
    let Some(id) = journal.owner(child) else {
        return None;
    };
    if worker.jobs.runs(id, child) {
        Some(id)
    } else {
        None
    }
}

/// Keeps the end of a child that a turn told, with the job that ran it, and answers the id of this. It takes no memory.
pub fn keep_end(worker: &mut Worker, child: u64, at: u64, journal: &Journal) -> Option<Id>
    ghost start: { Start }
    requires turn { AtTurn start worker.old at (EndedTurn child) journal.now.past }
    ensures stands { Stands start worker.new journal.now.past }
    ensures some { IfSome result (λ id. IsStepOf start id at journal.now.past) }
    ensures none { IfNone result (agenda start journal.now.past ≡ says Ignored) }
    ensures room { end_room worker.new ≡ end_room worker.old }
{
    let Some(id) = parent(worker, child, journal) else {
        return None;
    };
    let task = worker.jobs.task_mut(id);
    task.keep_end(child, at, journal);
    Some(id)
}

/// A turn that tells the end of a child: the job that ran it keeps the end, and takes a step. It fails only for want of
/// memory: then no entry was added, or the case was given up behind the call of the job's spawn hook.
pub fn ended_turn<W: Host, H: Hooks>(
    alloc: Global,
    worker: &mut Worker,
    child: u64,
    at: u64,
    host: &mut W,
    hooks: &mut H,
    journal: &mut Journal,
) -> Result<(), Memory>
    ghost start: { Start }
    requires turn { AtTurn start worker.old at (EndedTurn child) journal.old.past }
    ensures continues { Continues H.seen H.rule H.stands start worker.old journal.old (W.seen host.old) hooks.old worker.new journal.new (W.seen host.new) hooks.new }
    ensures promised { Promised H.seen H.rule H.stands hooks.old journal.old.past hooks.new journal.new.past }
    ensures steps { Steps result start journal.old.past journal.new.past }
{
    let Some(id) = keep_end(worker, child, at, journal) else {
        return worker.ignored(journal);
    };
    take_step(alloc, worker, id, at, host, hooks, journal)
}

/// The end of all jobs: each that lives is gone, by rising name, and its child is let go. It takes no memory: the room
/// for it was kept.
pub fn end_jobs<W: Host>(worker: &mut Worker, host: &mut W, journal: &mut Journal)
    ghost start: { Start }
    requires ready { Ready start worker.old journal.old (W.seen host.old) }
    ensures { EndsJobs start journal.old.past (W.seen host.old) journal.new.past (W.seen host.new) }
{
    worker.jobs.end_all(host, journal);
}
