// A Work turn: an event is taken, and the window is handed where it is due.
ghost use Rattle.std.specs.Prelude.{◌≡◌, ◌+◌, ◌<◌, ◌≤◌, ◌||◌, not, Some, List, Option, IfOk, IfErr, OnErr};
ghost use Rattle.wx_journal.specs.declared.entry.Entry.{Entry};
ghost use Rattle.wx_job.specs.Calls.{AreRoomy};
ghost use Rattle.wx_worker.specs.Serves.{GrowsHand, Continues};
ghost use Rattle.wx_machine.specs.Start.{Start};
ghost use Rattle.wx_machine.specs.Due.{agenda};
ghost use Rattle.wx_machine.specs.Quits.{quit_behind, quit_of, is_abort, is_graceful, is_aborting, graceful};
ghost use Rattle.wx_control.specs.declared.id.Id.{Id as AnId};
ghost use Rattle.wx_machine.specs.Kept.{Promised};
ghost use Rattle.wx_machine.specs.Answer.{NoneIsToGo, BreaksOff};
ghost use Rattle.wx_action.specs.Perform.{OwesActs};
ghost use Rattle.wx_worker.specs.Stands.{Stands, OwesHand, AtWork, Works, without_hand, end_room};

use crate::acts_done::{ask_quit, perform};
use std::alloc::Global;
use std::mem;
use wx_error::CriticalError;
use wx_hooks::{ActionHandler, Batch, Hooks, QuitManner, Todo};
use wx_job::Host;
use wx_journal::{Act, Entry, Journal};
use wx_text::Memory;
use wx_worker::{Collected, Worked, Worker, throttle_collect};

/// How the end was asked for, behind an act: as it says, and as before where it is no quit.
fn quit_behind(before: Option<QuitManner>, act: &Act) -> Option<QuitManner>
    ensures { result ≡ quit_behind before act.now }
{
    match act {
        Act::Create(_, _) | Act::Ask(_, _) | Act::Change(_) => before,
        Act::Quit => Some(QuitManner::Abort),
        Act::QuitGracefully { signal, grace } => Some(QuitManner::Graceful {
            signal: *signal,
            grace: *grace,
        }),
    }
}

/// How these acts ask for the end, where they do: the last quit among them stands.
fn quit_of(acts: &[Act]) -> Option<QuitManner>
    ensures { result ≡ quit_of acts.now }
{
    let mut quit = None;
    for act in acts {
        quit = quit_behind(quit, act);
    }
    quit
}

/// Whether a graceful end was asked for.
fn is_graceful(quit: Option<QuitManner>) -> bool
    ensures { result ≡ is_graceful quit }
{
    matches!(quit, Some(QuitManner::Graceful { .. }))
}

/// Whether a graceful end was asked for, behind acts that ask for the end so: once it was, it stays.
fn graceful_behind(before: bool, quit: Option<QuitManner>) -> bool
    ensures { result ≡ (is_graceful quit || before) }
{
    is_graceful(quit) || before
}

/// What a turn did that handed nothing.
fn without_hand(found: Collected) -> Worked
    ensures { result ≡ without_hand found }
{
    match found {
        Collected::Stop => Worked::End,
        _ => Worked::On,
    }
}

/// Hands the window, which is due. It answers how the acts ask for the end, and what is to be done for them. It takes
/// no memory.
fn hand_batch<H: Hooks>(
    alloc: Global,
    worker: &mut Worker,
    hooks: &mut H,
    journal: &mut Journal,
) -> (Option<QuitManner>, Vec<Todo>)
    ghost start: { Start }
    requires stands { Stands start worker.old journal.old.past }
    requires owes { OwesHand start journal.old.past }
    requires room { AreRoomy (1 + end_room worker.old) 1 journal.old (H.seen hooks.old) }
    ensures grows { GrowsHand H.seen H.rule H.stands start journal.old.past hooks.old worker.new journal.new.past hooks.new }
    ensures owes { (ids : List AnId) × OwesActs start journal.new.past result.1.items result.0 ids }
    ensures aborts { is_aborting journal.new.past ≡ is_abort result.0 }
    ensures room { end_room worker.new ≤ journal.new.spare }
    ensures end_room { end_room worker.new ≤ end_room worker.old }
{
    let batch = mem::replace(&mut worker.batch, Batch::new(alloc));
    let n = worker.config.action_handler;
    let revision = worker.config.change_signal;
    let mut handler = ActionHandler::new(alloc, journal, &worker.jobs, revision, batch);
    hooks.action(n, &mut handler);
    let (names, acts, todo) = handler.into_parts();
    let quit = quit_of(acts.as_slice());
    journal.push(Entry::Hand { n, names, acts });
    worker.graceful = graceful_behind(worker.graceful, quit);
    worker.jobs.leave_gone();
    (quit, todo)
}

/// Hands the window, which is due, does what its acts ask for, and says whether the run ends. It fails only for want of
/// memory, once the window was handed.
fn hand<W: Host, H: Hooks>(
    alloc: Global,
    worker: &mut Worker,
    host: &mut W,
    hooks: &mut H,
    journal: &mut Journal,
) -> Result<Worked, Memory>
    ghost start: { Start }
    requires stands { Stands start worker.old journal.old.past }
    requires owes { OwesHand start journal.old.past }
    requires room { AreRoomy (1 + end_room worker.old) 1 journal.old (H.seen hooks.old) }
    requires host_room { end_room worker.old ≤ (W.seen host.old).spare }
    ensures continues { Continues H.seen H.rule H.stands start worker.old journal.old (W.seen host.old) hooks.old worker.new journal.new (W.seen host.new) hooks.new }
    ensures works { IfOk result (λ worked. Works start worked journal.new.past) }
    ensures cut { OnErr result (NoneIsToGo (agenda start journal.new.past)) }
{
    let (quit, todo) = hand_batch(alloc, worker, hooks, journal);
    perform(alloc, worker, todo, host, journal)?;
    ask_quit(alloc, worker, quit, journal)?;
    Ok(worker.worked_by(quit))
}

/// One Work turn: what it collects is handed to the action handler where it is due, what this asks for is done, and the
/// answer says whether the run goes on. It fails where the error handler wished that the run ends with an error, and for want
/// of memory, but not while an event is to be shown or a window to be handed behind an entry of its own. Where there was room
/// for the end of all jobs, there is.
pub fn worker<W: Host, H: Hooks>(
    alloc: Global,
    worker: &mut Worker,
    at: u64,
    host: &mut W,
    hooks: &mut H,
    journal: &mut Journal,
) -> Result<Worked, CriticalError>
    ghost start: { Start }
    requires { AtWork start worker.old at journal.old.past }
    ensures continues { Continues H.seen H.rule H.stands start worker.old journal.old (W.seen host.old) hooks.old worker.new journal.new (W.seen host.new) hooks.new }
    ensures works { IfOk result (λ worked. Works start worked journal.new.past) }
    ensures promised { Promised H.seen H.rule H.stands hooks.old journal.old.past hooks.new journal.new.past }
    ensures breaks { IfErr result (λ error. BreaksOff start journal.new.past error) }
{
    worker.reserve_calls(4, 0, 3, host, hooks, journal)?;
    match throttle_collect(alloc, worker, at, hooks, journal)? {
        Collected::Hand => Ok(hand(alloc, worker, host, hooks, journal)?),
        found => Ok(without_hand(found)),
    }
}
