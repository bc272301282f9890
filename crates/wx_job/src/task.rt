// What is kept of a job.
ghost use Rattle.std.specs.Prelude.{◌≡◌, ℕ, ◌+◌, ◌≤◌, ◌∷◌, length, OnOk, OnErr, IfOk, List, Option, Some, None, option_map, true, false};
ghost use Rattle.wx_control.specs.Asks.{sends_of};
ghost use Rattle.wx_journal.specs.declared.entry.Entry.{Entry};
ghost use Rattle.wx_journal.specs.declared.entry.Entry.TheVariants.{Made};
ghost use Rattle.wx_journal.specs.Names.{moment, NamesItsOwn};
ghost use Rattle.wx_machine.specs.History.{state, previous, grace, parked, RunsOnly};
ghost use Rattle.wx_machine.specs.Table.{Plan, Done, asks, send_plan, pick_by, answer_of, deletes, step_by, leave, end_plan};
ghost use Rattle.wx_job.specs.Calls.{MayWait, HasStepped};
ghost use Rattle.wx_machine.specs.Case.{PlanRan, PlanFollowsHost, PlanFollowsAlone, PlanFollows, GaveUp, PlanGivesUp};
ghost use Rattle.wx_machine.specs.Faults.{Counted};
ghost use Rattle.wx_machine.specs.Steady.{AreSpare, Spends, HaveRoom, UseRoom};
ghost use Rattle.wx_machine.specs.Kept.{KeepsOn, Promised};
ghost use Rattle.wx_machine.specs.Leaves.{LeavesLaws, AddsByLaws};
ghost use Rattle.wx_job.specs.Stands.{TaskKeeps, TaskStands, StepFails, SameJob, SameTask, IsEnding, IsTicketOf, id_of, command_of, flag_of, closed_of, gone_of, running_of, parked_count, with_end, with_close};
ghost use Rattle.wx_machine.specs.Held.{HasInHand};
ghost use Rattle.wx_machine.specs.States.{child_of};

use crate::function::Begun;
use crate::grace::Standing;
use crate::outside::{Host, JobHooks};
use crate::parking::Parking;
use std::alloc::Global;
use wx_command::{Command, SharedCommand};
use wx_control::{Ask, Control, Flag, Id, Job, Level, Mirror, ThreeLists, Ticket};
use wx_journal::{Entry, Journal, SpawnTag};
use wx_machine::{Choice, CommandState, Stepped, child_of};
use wx_text::{Copies, Memory};

/// A job, with the child that it drives. It stands for its job in a journal where it keeps what the journal says of it.
pub struct JobTask {
    pub(crate) id: Id,
    pub(crate) command: SharedCommand,
    /// Raised when the job is gone.
    pub(crate) flag: Flag,
    pub(crate) waiting: ThreeLists,
    pub(crate) state: CommandState,
    pub(crate) previous: Option<CommandState>,
    /// The running child has ended, and wasn't waited for yet.
    pub(crate) kept: bool,
    pub(crate) gone: bool,
    /// The spawn hook that is set.
    pub(crate) hook: Option<u32>,
    /// The error handler that is set.
    pub(crate) handler: Option<u32>,
    /// What spawns the next child.
    pub(crate) tag: SpawnTag,
    /// The grace that the running child was given.
    pub(crate) grace: Option<Standing>,
    /// The function that was begun and isn't ready.
    pub(crate) begun: Option<Begun>,
    /// There are no more handles.
    pub(crate) closed: bool,
    /// What handles show of the child.
    pub(crate) mirror: Mirror,
    /// The tickets that are raised when the child ends, in the order in which they were picked.
    pub(crate) parked: Parking,
}

// Its parts are dropped by one call: docs/DESIGN.md, "What proofs cost".
impl Drop for JobTask {
    fn drop(self) {
        let JobTask {
            id: _,
            command: _,
            flag: _,
            waiting: _,
            state: _,
            previous: _,
            kept: _,
            gone: _,
            hook: _,
            handler: _,
            tag: _,
            grace: _,
            begun: _,
            closed: _,
            mirror: _,
            parked: _,
        } = self;
    }
}

/// A job of this name that runs this command, and a handle on it. It stands for its job behind the entry that it was
/// made, in a journal that doesn't list that it was created to run another command. It fails only for want of memory.
pub fn start_job(alloc: Global, id: Id, command: Command) -> Result<(Job, JobTask), Memory>
    ensures handle { IfOk result (λ made. (made.0.id ≡ id) × (made.0.command ≡ command) × (made.0.gone ≡ flag_of made.1)) }
    ensures task { IfOk result (λ made. (id_of made.1 ≡ id) × (command_of made.1 ≡ command) × (gone_of made.1 ≡ false) × (closed_of made.1 ≡ false)) }
    ensures stands { IfOk result (λ made. (p : List Entry) → RunsOnly id command p → TaskStands made.1 (Made id ∷ p)) }
{
    let command = SharedCommand::new(alloc, command)?;
    let flag = Flag::new(alloc, false)?;
    let mirror = Mirror::new(alloc)?;
    let job = handle_on(alloc, id, &command, &flag, &mirror)?;
    let waiting = ThreeLists::new(alloc)?;
    let task = JobTask {
        id,
        command,
        flag,
        waiting,
        state: CommandState::Pending,
        previous: None,
        kept: false,
        gone: false,
        hook: None,
        handler: None,
        tag: SpawnTag::Default,
        grace: None,
        begun: None,
        closed: false,
        mirror,
        parked: Parking::new(alloc),
    };
    Ok((job, task))
}

/// A handle on the job of this name, over copies of what it shares with its task.
fn handle_on(
    alloc: Global,
    id: Id,
    command: &SharedCommand,
    flag: &Flag,
    mirror: &Mirror,
) -> Result<Job, Memory>
    ensures { IfOk result (λ job. (job.id ≡ id) × (job.command ≡ command.now) × (job.gone ≡ flag.now)) }
{
    let command = command.copy(alloc)?;
    let flag = flag.copy(alloc)?;
    let mirror = mirror.copy(alloc)?;
    Ok(Job::new(id, command, flag, mirror))
}

#[tactic(auto, using(crate::proofs::Sets::tasks))]
impl JobTask {
    /// Asks this of the job: its controls wait, one entry each, numbered on from the journal. A job that is gone writes
    /// nothing. It answers the ticket of the last control, over copies of the flag of the job and of `last` where that is
    /// given; that of a gone job is over copies of the flag of the job alone. It fails only for want of memory.
    pub fn send(
        &mut self,
        alloc: Global,
        ask: Ask,
        last: Option<Flag>,
        journal: &mut Journal,
    ) -> Result<Ticket, Memory>
        requires stands { TaskStands self.old journal.old.past }
        ensures stands { TaskStands self.new journal.new.past }
        ensures job { SameJob self.old self.new }
        ensures gone { gone_of self.new ≡ gone_of self.old }
        ensures ticket { IfOk result (λ ticket. IsTicketOf self.old last ticket) }
        ensures leads { OnOk result (PlanFollowsAlone (send_plan (id_of self.old) (sends_of ask) journal.old.past) journal.old.past Done journal.new.past) }
        ensures refused { OnErr result (SameTask self.old self.new × journal.new.past ≡ journal.old.past) }
        ensures leaves { LeavesLaws (id_of self.old) journal.old.past journal.new.past }
        ensures adds { AddsByLaws (id_of self.old) journal.old.past journal.new.past }
        ensures journal_room { journal.old.spare ≤ journal.new.spare + 2 }
    {
        self.put(alloc, ask, last, journal)
    }

    /// One step: what is picked is done. It answers `Gone` where the job is gone then, `Later` where the begun function
    /// was polled and isn't ready, `Idle` where nothing could be picked, and else `Did`. Want of memory comes only where a
    /// child would be spawned: before anything was done, or behind the call of a spawn hook. Then the case is given up, its
    /// ticket is in hand, and later steps go on. `at` is the moment of the journal's last turn, in nanoseconds.
    pub fn step<H: Host, K: JobHooks>(
        &mut self,
        alloc: Global,
        at: u64,
        host: &mut H,
        hooks: &mut K,
        journal: &mut Journal,
    ) -> Result<Stepped, Memory>
        requires stands { TaskStands self.old journal.old.past }
        requires at { moment journal.old.past ≡ at }
        requires room { AreSpare (16 + parked_count self.old) journal.old (H.seen host.old) }
        requires hooks_room { 16 ≤ (K.seen hooks.old).spare }
        ensures stands { TaskStands self.new journal.new.past }
        ensures job { SameJob self.old self.new }
        ensures leads { OnOk result (PlanRan (step_by (closed_of self.old) (id_of self.old) (command_of self.old) journal.old.past) journal.old.past (H.seen host.old) (K.seen hooks.old).told Done journal.new.past (H.seen host.new) (K.seen hooks.new).told) }
        ensures steps { HasStepped result self.old journal.old.past self.new journal.new.past }
        ensures err { OnErr result (StepFails self.old journal.old host.old hooks.old self.new journal.new host.new hooks.new (GaveUp (step_by (closed_of self.old) (id_of self.old) (command_of self.old) journal.old.past) journal.old.past (H.seen host.old) (K.seen hooks.old).told journal.new.past (H.seen host.new) (K.seen hooks.new).told × HasInHand (id_of self.old) (grace (id_of self.old) journal.old.past) (pick_by (closed_of self.old) (id_of self.old) journal.old.past) journal.new.past)) }
        ensures leaves { LeavesLaws (id_of self.old) journal.old.past journal.new.past }
        ensures adds { AddsByLaws (id_of self.old) journal.old.past journal.new.past }
        ensures keeps { KeepsOn K.seen K.rule K.stands hooks.old journal.old.past hooks.new journal.new.past }
        ensures promised { NamesItsOwn journal.old.past → Promised K.seen K.rule K.stands hooks.old journal.old.past hooks.new journal.new.past }
        ensures faults { Counted journal.old.past (H.seen host.old).shown.faults journal.new.past (H.seen host.new).shown.faults }
        ensures spends { Spends (16 + parked_count self.old) journal.old (H.seen host.old) journal.new (H.seen host.new) }
        ensures hooks_room { (K.seen hooks.old).spare ≤ (K.seen hooks.new).spare + 16 }
    {
        self.walk(alloc, at, host, hooks, journal)
    }

    /// Keeps the end of the running child. The journal's last entry is the turn that told this end. It takes no memory.
    pub fn keep_end(&mut self, child: u64, at: u64, journal: &Journal)
        requires stands { IsEnding self.old child at journal.now.past }
        requires runs { running_of self.old ≡ Some child }
        ensures stands { TaskStands self.new journal.now.past }
        ensures fields { self.new ≡ with_end self.old }
    {
        let _ = &journal;
        self.kept = true;
    }

    /// Keeps the end of the running child, and does one step. The journal's last entry is the turn that told this end.
    /// It answers as `step` does, and the end is kept also where memory is wanted.
    pub fn ended<H: Host, K: JobHooks>(
        &mut self,
        alloc: Global,
        child: u64,
        at: u64,
        host: &mut H,
        hooks: &mut K,
        journal: &mut Journal,
    ) -> Result<Stepped, Memory>
        requires stands { IsEnding self.old child at journal.old.past }
        requires runs { running_of self.old ≡ Some child }
        requires room { AreSpare (16 + parked_count self.old) journal.old (H.seen host.old) }
        requires hooks_room { 16 ≤ (K.seen hooks.old).spare }
        ensures stands { TaskStands self.new journal.new.past }
        ensures job { SameJob self.old self.new }
        ensures leads { OnOk result (PlanRan (step_by (closed_of self.old) (id_of self.old) (command_of self.old) journal.old.past) journal.old.past (H.seen host.old) (K.seen hooks.old).told Done journal.new.past (H.seen host.new) (K.seen hooks.new).told) }
        ensures steps { HasStepped result self.old journal.old.past self.new journal.new.past }
        ensures err { OnErr result (StepFails (with_end self.old) journal.old host.old hooks.old self.new journal.new host.new hooks.new (GaveUp (step_by (closed_of self.old) (id_of self.old) (command_of self.old) journal.old.past) journal.old.past (H.seen host.old) (K.seen hooks.old).told journal.new.past (H.seen host.new) (K.seen hooks.new).told × HasInHand (id_of self.old) (grace (id_of self.old) journal.old.past) (pick_by (closed_of self.old) (id_of self.old) journal.old.past) journal.new.past)) }
        ensures leaves { LeavesLaws (id_of self.old) journal.old.past journal.new.past }
        ensures adds { AddsByLaws (id_of self.old) journal.old.past journal.new.past }
        ensures keeps { KeepsOn K.seen K.rule K.stands hooks.old journal.old.past hooks.new journal.new.past }
        ensures promised { NamesItsOwn journal.old.past → Promised K.seen K.rule K.stands hooks.old journal.old.past hooks.new journal.new.past }
        ensures faults { Counted journal.old.past (H.seen host.old).shown.faults journal.new.past (H.seen host.new).shown.faults }
        ensures spends { Spends (16 + parked_count self.old) journal.old (H.seen host.old) journal.new (H.seen host.new) }
        ensures hooks_room { (K.seen hooks.old).spare ≤ (K.seen hooks.new).spare + 16 }
    {
        self.keep_end(child, at, journal);
        self.step(alloc, at, host, hooks, journal)
    }

    /// There are no more handles of the job: a later step that finds nothing to pick, and no grace that stands, ends it.
    pub fn close(&mut self)
        ensures task { self.new ≡ with_close self.old }
        ensures stands { (p : List Entry) → TaskStands self.old p → TaskStands self.new p }
    {
        self.closed = true;
    }

    /// The end of the job: a running child is let go, and the job is gone. A job that is gone stays as it is.
    pub fn end<H: Host>(&mut self, host: &mut H, journal: &mut Journal)
        requires stands { TaskStands self.old journal.old.past }
        requires room { AreSpare 2 journal.old (H.seen host.old) }
        ensures stands { TaskStands self.new journal.new.past }
        ensures job { SameJob self.old self.new }
        ensures leads { (hooks : Option (List Entry)) → PlanRan (end_plan (id_of self.old) journal.old.past) journal.old.past (H.seen host.old) hooks Done journal.new.past (H.seen host.new) hooks }
        ensures gone { gone_of self.new ≡ true }
        ensures leaves { LeavesLaws (id_of self.old) journal.old.past journal.new.past }
        ensures adds { AddsByLaws (id_of self.old) journal.old.past journal.new.past }
        ensures spends { Spends 2 journal.old (H.seen host.old) journal.new (H.seen host.new) }
    {
        if self.gone {
            return;
        }
        self.let_go(child_of(self.state), host, journal);
    }

    /// How far the command is.
    pub fn state(&self) -> &CommandState
        ensures { (p : List Entry) → TaskStands self.now p → result.now ≡ state (id_of self.now) p }
    {
        &self.state
    }

    /// How far the command was before the last spawn, where there was one.
    pub fn previous(&self) -> Option<&CommandState>
        ensures { (p : List Entry) → TaskStands self.now p → option_map (λ s. s.now) result ≡ previous (id_of self.now) p }
    {
        self.previous.as_ref()
    }

    /// Whether the job is gone.
    pub fn is_gone(&self) -> bool
        ensures { result ≡ gone_of self.now }
    {
        self.gone
    }

    /// The child that runs.
    pub fn running_child(&self) -> Option<u64>
        ensures { result ≡ running_of self.now }
    {
        if self.gone {
            None
        } else {
            child_of(self.state)
        }
    }

    /// How many tickets are parked until the child ends.
    pub fn parked(&self) -> u64
        ensures count { result ≡ parked_count self.now }
        ensures kept { (p : List Entry) → TaskStands self.now p → result ≡ length (parked (id_of self.now) p) }
    {
        self.parked.len()
    }

    /// The moment at which the grace that stands is over, in nanoseconds.
    pub fn grace_end(&self) -> Option<u128>
        ensures { (p : List Entry) → TaskStands self.now p → result ≡ option_map (λ g. g.ends) (grace (id_of self.now) p) }
    {
        match &self.grace {
            Some(standing) => Some(standing.grace.ends),
            None => None,
        }
    }

    /// The controls of an ask wait.
    fn put(
        &mut self,
        alloc: Global,
        ask: Ask,
        last: Option<Flag>,
        journal: &mut Journal,
    ) -> Result<Ticket, Memory>
        requires stands { TaskKeeps self.old journal.old.past }
        ensures stands { TaskKeeps self.new journal.new.past }
        ensures job { SameJob self.old self.new }
        ensures gone { gone_of self.new ≡ gone_of self.old }
        ensures ticket { IfOk result (λ ticket. IsTicketOf self.old last ticket) }
        ensures leads { OnOk result (PlanFollowsAlone (send_plan (id_of self.old) (sends_of ask) journal.old.past) journal.old.past Done journal.new.past) }
        ensures refused { OnErr result (SameTask self.old self.new × journal.new.past ≡ journal.old.past) }
        ensures journal_room { journal.old.spare ≤ journal.new.spare + 2 }
    {
        if self.gone {
            return Ticket::resolved(alloc, &self.flag);
        }
        let sends = ask.controls();
        let done = match last {
            Some(flag) => flag,
            None => Flag::new(alloc, false)?,
        };
        let ticket = self.ticket(alloc, &done)?;
        let other = Flag::new(alloc, false)?;
        self.make_room(journal)?;
        match sends.second {
            None => self.ask(sends.first, sends.level, done, journal),
            Some(second) => {
                self.ask(sends.first, sends.level, other, journal);
                self.ask(second, sends.level, done, journal);
            }
        }
        Ok(ticket)
    }

    /// Takes room for two controls more to wait, and for all that wait then to be parked. It fails only for want of
    /// memory.
    fn make_room(&mut self, journal: &mut Journal) -> Result<(), Memory>
        requires stands { TaskKeeps self.old journal.old.past }
        ensures stands { TaskKeeps self.new journal.new.past }
        ensures task { SameTask self.old self.new }
        ensures past { journal.new.past ≡ journal.old.past }
        ensures room { OnOk result (MayWait 2 self.new journal.new) }
        ensures journal_room { journal.old.spare ≤ journal.new.spare }
    {
        let waiting = self.waiting.count().ok_or(Memory)?;
        let room = waiting.checked_add(2).ok_or(Memory)?;
        self.parked.reserve(room)?;
        self.waiting.reserve(2)?;
        journal.reserve(2)
    }

    /// A ticket over this flag.
    fn ticket(&self, alloc: Global, done: &Flag) -> Result<Ticket, Memory>
        ensures { IfOk result (λ ticket. (ticket.gone ≡ self.now.flag) × (ticket.done ≡ done.now)) }
    {
        let gone = self.flag.copy(alloc)?;
        let done = done.copy(alloc)?;
        Ok(Ticket { gone, done })
    }

    /// A control waits at a level.
    fn ask(&mut self, control: Control, level: Level, done: Flag, journal: &mut Journal)
        requires stands { TaskKeeps self.old journal.old.past }
        requires here { self.old.gone ≡ false }
        requires room { MayWait 1 self.old journal.old }
        ensures stands { TaskKeeps self.new journal.new.past }
        ensures follows { (k : Plan) → PlanFollowsAlone (asks self.old.id level control k) journal.old.past k journal.new.past }
        ensures fields { self.new ≡ record self.old { waiting = self.new.waiting } }
        ensures room { (n : ℕ) → MayWait (n + 1) self.old journal.old → MayWait n self.new journal.new }
        ensures journal_room { journal.old.spare ≤ journal.new.spare + 1 }
    {
        let ticket = journal.tickets();
        self.waiting.put_reserved(ticket, done, control, level);
        journal.push(Entry::Asked {
            ticket,
            job: self.id,
            level,
            control,
        });
    }

    /// Lets go of the child that runs, where one does, and the job is gone.
    pub(crate) fn let_go<H: Host>(
        &mut self,
        child: Option<u64>,
        host: &mut H,
        journal: &mut Journal,
    )
        requires stands { TaskKeeps self.old journal.old.past }
        requires runs { child_of self.old.state ≡ child }
        requires here { self.old.gone ≡ false }
        requires room { AreSpare 2 journal.old (H.seen host.old) }
        ensures stands { TaskKeeps self.new journal.new.past }
        ensures follows { PlanFollowsHost (leave self.old.id child) journal.old.past (H.seen host.old) Done journal.new.past (H.seen host.new) }
        ensures fields { self.new ≡ record self.old { waiting = self.new.waiting; kept = false; gone = true; grace = None; begun = None; parked = self.new.parked } }
        ensures spends { Spends 2 journal.old (H.seen host.old) journal.new (H.seen host.new) }
    {
        if let Some(child) = child {
            host.drop_child(child);
            journal.push(Entry::Dropped(child));
        }
        host.gone(self.id, &self.flag);
        journal.push(Entry::Gone(self.id));
        self.waiting.clear();
        self.parked.clear();
        self.grace = None;
        self.begun = None;
        self.kept = false;
        self.gone = true;
        self.mirror.tell(false);
    }

    /// A step.
    fn walk<H: Host, K: JobHooks>(
        &mut self,
        alloc: Global,
        at: u64,
        host: &mut H,
        hooks: &mut K,
        journal: &mut Journal,
    ) -> Result<Stepped, Memory>
        requires stands { TaskKeeps self.old journal.old.past }
        requires at { moment journal.old.past ≡ at }
        requires room { HaveRoom (10 + parked_count self.old) 4 journal.old (H.seen host.old) (K.seen hooks.old) }
        ensures stands { TaskKeeps self.new journal.new.past }
        ensures job { SameJob self.old self.new }
        ensures leads { OnOk result (PlanFollows (step_by (closed_of self.old) (id_of self.old) (command_of self.old) journal.old.past) journal.old.past (H.seen host.old) (K.seen hooks.old).told Done journal.new.past (H.seen host.new) (K.seen hooks.new).told) }
        ensures steps { HasStepped result self.old journal.old.past self.new journal.new.past }
        ensures err { OnErr result (StepFails self.old journal.old host.old hooks.old self.new journal.new host.new hooks.new (PlanGivesUp (step_by (closed_of self.old) (id_of self.old) (command_of self.old) journal.old.past) journal.old.past (H.seen host.old) (K.seen hooks.old).told journal.new.past (H.seen host.new) (K.seen hooks.new).told)) }
        ensures keeps { KeepsOn K.seen K.rule K.stands hooks.old journal.old.past hooks.new journal.new.past }
        ensures uses { UseRoom (10 + parked_count self.old) 4 journal.old (H.seen host.old) (K.seen hooks.old) journal.new (H.seen host.new) (K.seen hooks.new) }
    {
        if self.gone {
            return Ok(Stepped::Gone);
        }
        let choice = self.choose(at);
        let done = self.act(alloc, choice, at, host, hooks, journal);
        self.mirror.tell(self.running_child().is_some());
        done?;
        Ok(stepped(choice, self.begun.is_some()))
    }
}

/// What a step answers that did this, where a function is begun then or none is.
fn stepped(choice: Choice, begun: bool) -> Stepped
    ensures { result ≡ answer_of false choice begun }
{
    match choice {
        Choice::Poll(_) if begun => Stepped::Later,
        Choice::Next { control, .. } if deletes(control) => Stepped::Gone,
        Choice::Leave => Stepped::Gone,
        Choice::Poll(_) | Choice::Over(..) | Choice::End(_) | Choice::Next { .. } => Stepped::Did,
        Choice::Nothing => Stepped::Idle,
    }
}

/// Whether the job is gone once this control was done.
fn deletes(control: Control) -> bool
    ensures { result ≡ deletes control }
{
    match control {
        Control::Delete => true,
        Control::Start
        | Control::Stop
        | Control::GracefulStop { .. }
        | Control::TryRestart
        | Control::TryGracefulRestart { .. }
        | Control::ContinueTryGracefulRestart
        | Control::Signal(_)
        | Control::NextEnding
        | Control::SyncFunc(_)
        | Control::AsyncFunc(_)
        | Control::SetSyncErrorHandler(_)
        | Control::UnsetErrorHandler
        | Control::SetSyncSpawnHook(_)
        | Control::UnsetSpawnHook
        | Control::SetSpawnFn(_)
        | Control::SetSpawnChildFn(_)
        | Control::ClearSpawnFn => false,
    }
}
