// What a Work turn collects: an event is taken, judged, and joins the window.
ghost use Rattle.std.specs.Prelude.{◌≡◌, ◌∷◌, [], ◌++◌, ◌+◌, ◌<◌, ◌≤◌, ◌==◌, ◌||◌, ◌&&◌, not, nat_le, Some, false, length, Option, IfOk, IfErr, OnOk, OnErr, if◌then◌else◌};
ghost use Rattle.wx_journal.specs.declared.entry.Entry.{Entry};
ghost use Rattle.wx_journal.specs.declared.entry.Entry.TheVariants.{Filter};
ghost use Rattle.wx_events.specs.Priority.{is_urgent};
ghost use Rattle.wx_job.specs.Calls.{AreRoomy};
ghost use Rattle.wx_worker.specs.Serves.{GrowsWithin, OwesRest};
ghost use Rattle.wx_machine.specs.Start.{Start};
ghost use Rattle.wx_machine.specs.Journal.{listed, is_unseen, lets_pass, is_exit, bag, is_over, is_over_of};
ghost use Rattle.wx_machine.specs.Due.{Takes, Filters, Shows, Agenda, Open, Comes, work, work_going};
ghost use Rattle.std.specs.List.{list_any};
ghost use Rattle.wx_hooks.specs.HeldJobs.{is_here};
ghost use Rattle.wx_machine.specs.Quits.{is_abort, graceful};
ghost use Rattle.wx_journal.specs.declared.entry.Entry.TheVariants.{Word as Said};
ghost use Rattle.wx_journal.specs.declared.entry.Word.TheVariants.{Quitting};
ghost use Rattle.wx_machine.specs.Kept.{Promised};
ghost use Rattle.wx_machine.specs.Answer.{BreaksHere, Fails};
ghost use Rattle.wx_worker.specs.Stands.{Owes, OwesAt, AtWork, MayShow, Finds, Collects, IsDropped, IsJudged, LeavesRoom, end_room};

use crate::calls::{close_where, is_exit};
use crate::worker_state::Worker;
use std::alloc::Global;
use wx_error::{CriticalError, RuntimeError};
use wx_events::Priority;
use wx_hooks::{Hooks, QuitManner};
use wx_journal::{Entry, Journal, Named, Word};
use wx_machine::is_unseen;
use wx_text::{Copies, Memory};

/// What a Work turn collected.
#[derive(Clone, Copy, PartialEq, Eq)]
pub enum Collected {
    /// The queue was closed: the run is to end.
    Stop,
    /// The window is due.
    Hand,
    /// There was nothing to take, or a graceful quit was asked for.
    Idle,
    /// An event was taken and passed, and waits in the window.
    Kept,
    /// An event was taken and didn't pass.
    Dropped,
}

/// What a Work turn did.
#[derive(Clone, Copy, PartialEq, Eq)]
pub enum Worked {
    /// The run goes on.
    On,
    /// The run ends.
    End,
}

/// The moment at which a window began: now, where it is empty.
fn begun(is_empty: bool, at: u64, first: u64) -> u64
    ensures { result ≡ (if is_empty then at else first) }
{
    if is_empty { at } else { first }
}

/// What a Work turn found, before the error of a filter is shown.
#[derive(Drop)]
pub(crate) enum Found {
    /// This was collected, and no error is to be shown.
    Done(Collected),
    /// An event was dropped, since the filter failed. Its error is to be shown, or there was no memory for a copy of it.
    Failed(Result<RuntimeError, Memory>),
}

/// What an event that passed leads to.
fn due_or_kept(is_urgent: bool, is_over: bool) -> Collected
    ensures { result ≡ (if is_urgent || is_over then Collected.Hand else Collected.Kept) }
{
    if is_urgent || is_over {
        Collected::Hand
    } else {
        Collected::Kept
    }
}

/// Whether the end was asked for at once.
fn is_abort(quit: Option<QuitManner>) -> bool
    ensures { result ≡ is_abort quit }
{
    matches!(quit, Some(QuitManner::Abort))
}

impl Worker {
    /// Whether the window isn't empty, and its first event was taken at least the throttle ago.
    pub fn is_over(&self, at: u64) -> bool
        ensures { result ≡ is_over_of self.now.config.throttle self.now.batch.names self.now.first at }
    {
        !self.batch.is_empty() && is_past(self.first, *self.config.throttle.get(), at)
    }
}

/// Whether at least so much time has passed since a moment.
fn is_past(since: u64, time: u64, at: u64) -> bool
    ensures { result ≡ nat_le (since + time) at }
{
    since <= at && time <= at - since
}

/// Whether a filter let an event pass.
fn lets_pass(answer: &Result<bool, RuntimeError>) -> bool
    ensures { result ≡ lets_pass answer.now }
{
    match answer {
        Ok(passes) => *passes,
        Err(_) => false,
    }
}

/// What becomes of an event that a filter didn't let pass: an error but an exit is to be shown. A copy of it is taken.
fn dropped(alloc: Global, answer: &Result<bool, RuntimeError>) -> Found
    ensures { IsDropped answer.now result }
{
    match answer {
        Ok(_) | Err(RuntimeError::Exit) => Found::Done(Collected::Dropped),
        Err(error) => Found::Failed(error.copy(alloc)),
    }
}

impl Worker {
    /// Adds an event that passed to the window, in room that was taken. It answers whether the window is due now.
    fn join(&mut self, item: Named, priority: Priority, at: u64) -> Collected
        requires { 1 ≤ self.old.batch.room }
        ensures same { self.new ≡ record self.old { batch = self.new.batch; first = self.new.first } }
        ensures names { self.new.batch.names ≡ self.old.batch.names ++ item.name ∷ [] }
        ensures events { self.new.batch.events ≡ self.old.batch.events ++ item.event ∷ [] }
        ensures first { self.new.first ≡ (if length self.old.batch.names == 0 then at else self.old.first) }
        ensures found { result ≡ (if is_urgent priority || is_over_of self.old.config.throttle self.new.batch.names self.new.first at then Collected.Hand else Collected.Kept) }
    {
        self.first = begun(self.batch.is_empty(), at, self.first);
        self.batch.push(item);
        due_or_kept(priority.is_urgent(), self.is_over(at))
    }

    /// Shows an event that was taken to the filter. It joins the window where the filter lets it pass, and is dropped else.
    /// Where the filter asks for the end the queue is closed. It answers its error, which is to be shown.
    fn judge<H: Hooks>(
        &mut self,
        alloc: Global,
        item: Named,
        priority: Priority,
        at: u64,
        hooks: &mut H,
        journal: &mut Journal,
    ) -> Found
        ghost start: { Start }
        requires owes { OwesAt start self.old at journal.old.past (Comes (Filters item.name) Open) }
        requires listed { listed item.name journal.old.past ≡ Some (item.event, priority) }
        requires room { AreRoomy 1 1 journal.old (H.seen hooks.old) }
        requires batch_room { 1 ≤ self.old.batch.room }
        ensures within { GrowsWithin H.seen H.rule H.stands start 1 1 self.old journal.old hooks.old self.new journal.new hooks.new }
        ensures judged { IsJudged start journal.old.past item.name result journal.new.past }
        ensures room { journal.new.spare + 1 ≡ journal.old.spare }
    {
        let n = self.config.filterer;
        let name = item.name;
        let answer = hooks.check_event(n, name, &item.event, priority);
        if lets_pass(&answer) {
            journal.push(Entry::Filter { n, name, answer });
            return Found::Done(self.join(item, priority, at));
        }
        drop(item);
        self.reject(alloc, n, name, answer, journal)
    }

    /// Drops an event that the filter didn't let pass. Where the filter asks for the end the queue is closed.
    fn reject(
        &mut self,
        alloc: Global,
        n: u32,
        name: u64,
        answer: Result<bool, RuntimeError>,
        journal: &mut Journal,
    ) -> Found
        requires room { 1 ≤ journal.old.spare }
        ensures same { self.new ≡ record self.old { queue = self.new.queue } }
        ensures items { self.new.queue.items ≡ self.old.queue.items }
        ensures size { self.new.queue.size ≡ self.old.queue.size }
        ensures closed { self.new.queue.closed ≡ (is_exit answer || self.old.queue.closed) }
        ensures past { journal.new.past ≡ Filter n name answer ∷ journal.old.past }
        ensures room { journal.new.spare + 1 ≡ journal.old.spare }
        ensures found { IsDropped answer result }
    {
        let ends = is_exit(&answer);
        let found = dropped(alloc, &answer);
        journal.push(Entry::Filter { n, name, answer });
        close_where(ends, &mut self.queue);
        found
    }

    /// Takes an event of greatest priority from the queue, which isn't empty. It joins the window where it passes.
    fn take<H: Hooks>(
        &mut self,
        alloc: Global,
        at: u64,
        hooks: &mut H,
        journal: &mut Journal,
    ) -> Found
        ghost start: { Start }
        requires owes { OwesAt start self.old at journal.old.past (Comes Takes Open) }
        requires some { (length (bag journal.old.past) == 0) ≡ false }
        requires room { AreRoomy 2 1 journal.old (H.seen hooks.old) }
        requires batch_room { 1 ≤ self.old.batch.room }
        ensures within { GrowsWithin H.seen H.rule H.stands start 2 1 self.old journal.old hooks.old self.new journal.new hooks.new }
        ensures found { Finds start journal.old.past result journal.new.past }
    {
        let Some((item, priority)) = self.queue.try_recv() else {
            unreachable!()
        };
        journal.push(Entry::Take(item.name));
        if is_unseen(&item.event, priority) {
            return Found::Done(self.join(item, priority, at));
        }
        self.judge(alloc, item, priority, at, hooks, journal)
    }

    /// What a Work turn finds: where a graceful quit was asked for it says so; else a closed queue; the window, where the throttle is
    /// over; nothing; or an event, which is taken.
    fn collect<H: Hooks>(
        &mut self,
        alloc: Global,
        at: u64,
        hooks: &mut H,
        journal: &mut Journal,
    ) -> Result<Found, Memory>
        ghost start: { Start }
        requires owes { OwesAt start self.old at journal.old.past (work start journal.old.past at) }
        ensures within { GrowsWithin H.seen H.rule H.stands start 2 1 self.old journal.old hooks.old self.new journal.new hooks.new }
        ensures found { IfOk result (λ found. Finds start journal.old.past found journal.new.past) }
        ensures left { IfOk result (λ found. LeavesRoom found (end_room self.new) journal.new.spare (H.seen hooks.new).spare) }
        ensures unchanged { OnErr result (journal.new.past ≡ journal.old.past) }
        ensures kept_room { end_room self.old ≤ journal.old.spare → end_room self.new ≤ journal.new.spare }
    {
        if self.graceful {
            return self.say_quitting(journal);
        }
        self.collect_going(alloc, at, hooks, journal)
    }

    /// Says that a graceful quit was asked for. It fails only for want of memory, and adds no entry then.
    fn say_quitting(&self, journal: &mut Journal) -> Result<Found, Memory>
        ensures found { IfOk result (λ found. found ≡ Found.Done Collected.Idle) }
        ensures said { OnOk result (journal.new.past ≡ Said Quitting ∷ journal.old.past) }
        ensures err { OnErr result (journal.new.past ≡ journal.old.past) }
        ensures room { journal.old.spare ≤ journal.new.spare + 1 }
        ensures kept_room { end_room self.now ≤ journal.old.spare → end_room self.now ≤ journal.new.spare }
    {
        self.reserve(1, journal)?;
        journal.push(Entry::Word(Word::Quitting));
        Ok(Found::Done(Collected::Idle))
    }

    /// The same where no graceful quit was asked for.
    fn collect_going<H: Hooks>(
        &mut self,
        alloc: Global,
        at: u64,
        hooks: &mut H,
        journal: &mut Journal,
    ) -> Result<Found, Memory>
        ghost start: { Start }
        requires owes { OwesAt start self.old at journal.old.past (work_going start journal.old.past at) }
        requires going { graceful journal.old.past ≡ false }
        ensures within { GrowsWithin H.seen H.rule H.stands start 2 1 self.old journal.old hooks.old self.new journal.new hooks.new }
        ensures found { IfOk result (λ found. Finds start journal.old.past found journal.new.past) }
        ensures left { IfOk result (λ found. LeavesRoom found (end_room self.new) journal.new.spare (H.seen hooks.new).spare) }
        ensures unchanged { OnErr result (journal.new.past ≡ journal.old.past) }
        ensures kept_room { end_room self.old ≤ journal.old.spare → end_room self.new ≤ journal.new.spare }
    {
        if self.queue.is_closed() {
            return Ok(Found::Done(Collected::Stop));
        }
        if self.is_over(at) {
            return Ok(Found::Done(Collected::Hand));
        }
        self.reserve(3, journal)?;
        if self.queue.is_empty() {
            journal.push(Entry::Word(Word::Idle));
            return Ok(Found::Done(Collected::Idle));
        }
        self.batch.reserve()?;
        hooks.reserve(2)?;
        Ok(self.take(alloc, at, hooks, journal))
    }

    /// Shows an error to the error handler. Where this wishes that the run ends the error with which it does is answered, and
    /// where it wishes the end without an error the queue is closed. It also fails for want of memory.
    fn show<H: Hooks>(
        &mut self,
        alloc: Global,
        error: RuntimeError,
        hooks: &mut H,
        journal: &mut Journal,
    ) -> Result<(), CriticalError>
        ghost start: { Start }
        requires owes { (more : Agenda) × Owes start self.old journal.old.past (Comes (Shows error) more) }
        requires room { AreRoomy 1 1 journal.old (H.seen hooks.old) }
        ensures within { GrowsWithin H.seen H.rule H.stands start 1 1 self.old journal.old hooks.old self.new journal.new hooks.new }
        ensures adds { MayShow journal.old.past journal.new.past }
        ensures done { OnOk result (OwesRest start (Shows error) journal.old.past journal.new.past) }
        ensures breaks { IfErr result (λ error. BreaksHere start journal.new.past error) }
    {
        self.call_show(alloc, error, hooks, journal)
    }
}

/// One Work turn as far as collecting goes. Where the queue is closed the run is to end. Else, where the throttle is over,
/// the window is due. Else an event of greatest priority is taken from the queue, or there is nothing to take. An urgent
/// event and one without tags pass unseen, and any other is shown to the filter. What passes joins the window, which is due
/// where the event is urgent or the throttle is over. What doesn't pass is dropped, and the queue is closed where the filter
/// asks for the end. Any other error of the filter is shown to the error handler. It fails where this wishes that the run
/// ends with an error, and for want of memory, and not between a take and its filter.
pub fn throttle_collect<H: Hooks>(
    alloc: Global,
    worker: &mut Worker,
    at: u64,
    hooks: &mut H,
    journal: &mut Journal,
) -> Result<Collected, CriticalError>
    ghost start: { Start }
    requires { AtWork start worker.old at journal.old.past }
    ensures within { GrowsWithin H.seen H.rule H.stands start 3 2 worker.old journal.old hooks.old worker.new journal.new hooks.new }
    ensures promised { Promised H.seen H.rule H.stands hooks.old journal.old.past hooks.new journal.new.past }
    ensures collected { IfOk result (λ found. Collects start journal.old.past found journal.new.past) }
    ensures fails { IfErr result (λ error. Fails start journal.old.past journal.new.past error) }
    ensures kept_room { end_room worker.old ≤ journal.old.spare → end_room worker.new ≤ journal.new.spare }
{
    match worker.collect(alloc, at, hooks, journal)? {
        Found::Done(collected) => Ok(collected),
        Found::Failed(error) => {
            worker.show(alloc, error?, hooks, journal)?;
            Ok(Collected::Dropped)
        }
    }
}

/// What a turn did after which the run ends, or goes on.
fn done_or_on(ends: bool) -> Worked
    ensures { result ≡ (if ends then Worked.End else Worked.On) }
{
    if ends { Worked::End } else { Worked::On }
}

impl Worker {
    /// Whether a graceful quit was asked for, and no job lives.
    fn is_through(&self) -> bool
        ensures { result ≡ (self.now.graceful && not (list_any is_here self.now.jobs)) }
    {
        self.graceful && !self.jobs.any_lives()
    }

    /// What a turn did whose acts didn't ask for the end at once: the run ends where a graceful quit was asked for, and no job
    /// lives.
    pub fn worked(&self) -> Worked
        ensures { result ≡ (if self.now.graceful && not (list_any is_here self.now.jobs) then Worked.End else Worked.On) }
    {
        done_or_on(self.is_through())
    }

    /// What a turn did that handed a batch, all of whose acts are done: the run ends where they asked for it at once, too.
    pub fn worked_by(&self, quit: Option<QuitManner>) -> Worked
        ensures { result ≡ (if is_abort quit || (self.now.graceful && not (list_any is_here self.now.jobs)) then Worked.End else Worked.On) }
    {
        done_or_on(is_abort(quit) || self.is_through())
    }
}
