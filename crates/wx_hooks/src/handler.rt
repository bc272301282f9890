// The handler that is lent to an action: it shows the batch and the jobs, and collects acts.
ghost use Rattle.std.specs.Prelude.{◌≡◌, Some, ◌∷◌, ◌++◌, [], ◌<◌, ◌≤◌, ◌+◌, ◌-◌, ◌^◌, true, false, is_none, is_some, length, vec_len, vec_capacity, option_map, Err, IfSome, IfOk, IfErr, OnOk, OnErr};
ghost use Rattle.std.specs.List.{find};
ghost use Rattle.wx_control.specs.Sent.{sent as after_send};
ghost use Rattle.wx_control.specs.declared.sink.Refused.TheVariants.{Memory as WantOfMemory};
ghost use Rattle.wx_journal.specs.Names.{next_job};
ghost use Rattle.wx_machine.specs.History.{child, creation};
ghost use Rattle.wx_config.specs.Changes.{last_revision};
ghost use Rattle.wx_journal.specs.declared.entry.Act.TheVariants.{Create, Ask as Asks, Change as Changes};
ghost use Rattle.wx_machine.specs.Settings.{changes, MayChange};
ghost use Rattle.wx_hooks.specs.declared.handler.ChangeRefused.TheVariants.{RevisionSpent};
ghost use Rattle.wx_journal.specs.declared.entry.Entry.TheVariants.{Hand};
ghost use Rattle.wx_hooks.specs.declared.handler.CreateRefused.TheVariants.{IdsSpent};
ghost use Rattle.wx_hooks.specs.declared.handler.GetRefused.TheVariants.{UnknownId};
ghost use Rattle.wx_hooks.specs.Handled.{sink_of, AreEvents, lookup, with_job, Handled};
ghost use Rattle.wx_machine.specs.Quits.{is_quit, ends_with_quit, with_this_quit, with_quit, with_graceful_quit};
ghost use Rattle.wx_keys.specs.Tags.{all_tags, signals, paths, completions};
ghost use Rattle.wx_hooks.specs.HeldJobs.{IsHandle, AreSeen, AreShown};
ghost use Rattle.wx_machine.specs.Jobs.{is_seen, is_given, is_there, AreLawful, next_created};
ghost use Rattle.wx_machine.specs.Last.{without_last};
ghost use Rattle.wx_hooks.specs.KeptHandler.{HasSecondRoom, HasQuitRoom, StaysTwice, AddsTwice, QuitsTwice, quit_room};
ghost use Rattle.wx_hooks.specs.Todo.{AreTodo, IsNew, is_creation, held_by, created_under, held_under};

use crate::batch::Batch;
use crate::copied::{with_copies, with_copy};
use crate::held::Held;
use crate::ids::IdCount;
use crate::job_list::{JobList, Jobs};
use std::alloc::Global;
use std::fmt;
use std::marker::Model;
use wx_command::Command;
use wx_config::Change;
use wx_control::{Ask, Controls, Flag, Id, Job, Refused, Ticket};
use wx_events::{Event, Signal};
use wx_job::start_job;
use wx_journal::{Act, Entry, Journal};
use wx_keys::{Completions, Paths, Signals, Tagged};
use wx_text::{Copies, List, Memory};

/// Why no job was created.
#[derive(Clone, Copy, Debug, PartialEq, Eq)]
pub enum CreateRefused {
    /// All ids were given, 2^32 - 1 of them.
    IdsSpent,
    /// Want of memory.
    Memory,
}

impl From<Memory> for CreateRefused {
    ghost use Rattle.std.specs.Prelude.{◌≡◌};
    ghost use Rattle.wx_hooks.specs.declared.handler.CreateRefused.{CreateRefused};

    ghost from_gives = { λ _ refusal. refusal ≡ CreateRefused.Memory };

    fn from(_memory: Memory) -> CreateRefused {
        CreateRefused::Memory
    }
}

/// Why no job is there under an id.
#[derive(Clone, Copy, Debug, PartialEq, Eq)]
pub enum GetRefused {
    /// No job was made under this id.
    UnknownId,
    /// Want of memory.
    Memory,
}

impl From<Memory> for GetRefused {
    ghost use Rattle.std.specs.Prelude.{◌≡◌};
    ghost use Rattle.wx_hooks.specs.declared.handler.GetRefused.{GetRefused};

    ghost from_gives = { λ _ refusal. refusal ≡ GetRefused.Memory };

    fn from(_memory: Memory) -> GetRefused {
        GetRefused::Memory
    }
}

/// Why no change of the settings was asked for.
#[derive(Clone, Copy, Debug, PartialEq, Eq)]
pub enum ChangeRefused {
    /// The revision would be 2^64 - 1 already, with the changes that were asked for in this call, and can't be raised.
    RevisionSpent,
    /// Want of memory.
    Memory,
}

impl From<Memory> for ChangeRefused {
    ghost use Rattle.std.specs.Prelude.{◌≡◌};
    ghost use Rattle.wx_hooks.specs.declared.handler.ChangeRefused.{ChangeRefused};

    ghost from_gives = { λ _ refusal. refusal ≡ ChangeRefused.Memory };

    fn from(_memory: Memory) -> ChangeRefused {
        ChangeRefused::Memory
    }
}

/// What has to be done for an act. Nothing has to be for a quit.
#[derive(Drop)]
pub enum Todo {
    /// This job was created, and is to be kept.
    Create(Held),
    /// This is to be asked of the job of this id. The flag is that of the ticket that was answered.
    Ask { job: Id, ask: Ask, done: Flag },
    /// The settings are to be changed so.
    Change(Change),
}

/// The names and the acts once more, for the entry that the handler hands out.
#[derive(Drop)]
struct Second {
    names: Vec<u64>,
    acts: Vec<Act>,
}

/// Shows a batch and the jobs to an action, and collects what it asks for. Contracts see the journal so far, the revision of
/// the settings when the handler was called, the names and the events of the batch, the acts so far, and whether `hand` was
/// called.
#[derive(Drop)]
pub struct ActionHandler<'a> {
    journal: &'a Journal,
    held: &'a JobList,
    names: Vec<u64>,
    events: List<Event>,
    ids: IdCount,
    revision: u64,
    last: u64,
    acts: Vec<Act>,
    second: Option<Second>,
    todo: Vec<Todo>,
}

impl<'a> Model for ActionHandler<'a> {
    ghost use Rattle.std.specs.Prelude.{is_none, vec_capacity};
    ghost use Rattle.wx_hooks.specs.Handled.{Handled};

    ghost Value = { Handled };

    ghost use Rattle.wx_hooks.specs.KeptHandler.{IsKept, IsRevisionKept};

    ghost view = { λ h. record { past = h.journal.now.past; revision = h.revision; names = h.names.items; events = h.events; acts = h.acts.items; handed = is_none h.second } };

    ghost invariant = { λ h. IsKept h.journal.now.past h.held.now h.names.items h.events h.ids.0 h.acts.items (vec_capacity h.acts) h.second h.todo.items × IsRevisionKept h.revision h.acts.items h.last };
}

impl<'a> fmt::Debug for ActionHandler<'a> {
    fn fmt<W: fmt::Write>(&self, f: &mut fmt::Formatter<W>) -> fmt::Result {
        write!(
            f,
            "ActionHandler {{ events: {:?}, acts: {:?} }}",
            self.events, self.acts
        )
    }
}

/// Whether an act is a quit.
fn is_quit(act: &Act) -> bool
    ensures { result ≡ is_quit act.now }
{
    matches!(act, Act::Quit | Act::QuitGracefully { .. })
}

/// Whether the last of these acts is a quit.
#[tactic(auto, using(crate::proofs::QuitLemmas::at_end))]
fn ends_with_quit(acts: &[Act]) -> bool
    ensures { result ≡ ends_with_quit acts.now }
{
    match acts.last() {
        Some(act) => is_quit(act),
        None => false,
    }
}

/// Takes room for two acts more among those that stand a second time, where they do. It fails only for want of memory.
fn reserve_second(second: &mut Option<Second>) -> Result<(), Memory>
    ensures stays { StaysTwice second.old second.new }
    ensures room { OnOk result (HasSecondRoom 2 second.new) }
{
    if let Some(second) = second {
        second.acts.reserve(2)?;
    }
    Ok(())
}

/// Adds an act to those that stand a second time, where they do, in room that was taken.
fn push_second(second: &mut Option<Second>, act: Act)
    requires { HasSecondRoom 1 second.old }
    ensures { AddsTwice act second.old second.new }
{
    match second {
        Some(second) => second.acts.push_reserved(act),
        None => drop(act),
    }
}

/// Takes room for an act, for a quit behind it, and for what has to be done for the act. It fails only for want of
/// memory.
fn reserve_act(
    acts: &mut Vec<Act>,
    second: &mut Option<Second>,
    todo: &mut Vec<Todo>,
) -> Result<(), Memory>
    ensures acts { acts.new.items ≡ acts.old.items }
    ensures capacity { vec_capacity acts.old ≤ vec_capacity acts.new }
    ensures room { OnOk result (vec_len acts.new + 2 ≤ vec_capacity acts.new) }
    ensures second { StaysTwice second.old second.new }
    ensures second_room { OnOk result (HasSecondRoom 2 second.new) }
    ensures todo { todo.new.items ≡ todo.old.items }
    ensures todo_room { OnOk result (vec_len todo.new + 1 ≤ vec_capacity todo.new) }
{
    acts.reserve(2)?;
    todo.reserve(1)?;
    reserve_second(second)
}

/// Adds an act, also among those that stand a second time, and what has to be done for it, in room that was taken.
fn put_act(
    acts: &mut Vec<Act>,
    second: &mut Option<Second>,
    todo: &mut Vec<Todo>,
    act: Act,
    twice: Act,
    one: Todo,
)
    requires room { vec_len acts.old + 1 ≤ vec_capacity acts.old }
    requires second_room { HasSecondRoom 1 second.old }
    requires todo_room { vec_len todo.old + 1 ≤ vec_capacity todo.old }
    ensures acts { acts.new.items ≡ acts.old.items ++ act ∷ [] }
    ensures capacity { vec_capacity acts.new ≡ vec_capacity acts.old }
    ensures second { AddsTwice twice second.old second.new }
    ensures todo { todo.new.items ≡ todo.old.items ++ one ∷ [] }
{
    acts.push_reserved(act);
    push_second(second, twice);
    todo.push_reserved(one);
}

/// Lets go of a quit that stands last among these acts, and keeps the room for it.
#[tactic(auto, using(crate::proofs::QuitLemmas::left_as_is))]
fn leave_last_quit(acts: &mut Vec<Act>)
    ensures acts { acts.new.items ≡ without_last is_quit acts.old.items }
    ensures capacity { vec_capacity acts.new ≡ vec_capacity acts.old }
{
    if ends_with_quit(acts.as_slice()) {
        drop(acts.pop());
    }
}

/// Adds a quit in the place of one that stands last, or else behind the acts, in room that was taken.
#[tactic(auto, using(crate::proofs::QuitLemmas::room_for_quit))]
fn put_quit(acts: &mut Vec<Act>, quit: Act)
    requires { vec_len acts.old + quit_room acts.old.items ≤ vec_capacity acts.old }
    ensures acts { acts.new.items ≡ with_this_quit quit acts.old.items }
    ensures capacity { vec_capacity acts.new ≡ vec_capacity acts.old }
    ensures room { vec_len acts.new ≤ vec_capacity acts.new }
{
    leave_last_quit(acts);
    acts.push_reserved(quit);
}

/// The same among those that stand a second time, where they do.
fn put_second_quit(second: &mut Option<Second>, quit: Act)
    requires { HasQuitRoom second.old }
    ensures { QuitsTwice quit second.old second.new }
{
    match second {
        Some(second) => put_quit(&mut second.acts, quit),
        None => drop(quit),
    }
}

/// A job that an act creates: the act, twice, a handle for the caller, and what is to be held.
#[derive(Drop)]
struct NewJob {
    act: Act,
    twice: Act,
    job: Job,
    held: Held,
}

/// A handle on a new job of this id that runs this command, and what is to be held of it. It fails only for want of memory.
fn start_held(alloc: Global, id: Id, command: Command) -> Result<(Job, Held), Memory>
    ensures job { IfOk result (λ made. (made.0.id ≡ id) × (made.0.command ≡ command)) }
    ensures held { IfOk result (λ made. IsNew made.1 id command) }
{
    let (job, task) = start_job(alloc, id, command)?;
    match job.copy(alloc) {
        Ok(handle) => Ok((job, Held { handle, task })),
        Err(memory) => {
            drop((job, task));
            Err(memory)
        }
    }
}

/// A new job of this id that runs this command. It fails only for want of memory.
fn new_job(alloc: Global, id: Id, command: Command) -> Result<NewJob, Memory>
    ensures acts { IfOk result (λ new. (new.act ≡ Create id command) × (new.twice ≡ Create id command)) }
    ensures job { IfOk result (λ new. (new.job.id ≡ id) × (new.job.command ≡ command)) }
    ensures held { IfOk result (λ new. IsNew new.held id command) }
{
    let (command, first, second) = with_copies(alloc, command)?;
    match start_held(alloc, id, command) {
        Ok((job, held)) => Ok(NewJob {
            act: Act::Create(id, first),
            twice: Act::Create(id, second),
            job,
            held,
        }),
        Err(memory) => {
            drop((first, second));
            Err(memory)
        }
    }
}

/// Whether this is to create the job of this id.
fn is_creation(todo: &Todo, id: Id) -> bool
    ensures { result ≡ is_creation id todo.now }
{
    match todo {
        Todo::Create(held) => held.handle.id() == id,
        _ => false,
    }
}

/// The creation of the job of this id among these, where one is.
fn creation_of(todo: &[Todo], id: Id) -> Option<&Todo>
    ensures { option_map (λ one. one.now) result ≡ find (is_creation id) todo.now }
{
    todo.iter().find(|todo| is_creation(todo, id))
}

/// What is to be held of the job that this is to create, where it is to create one.
fn held_by(todo: &Todo) -> Option<&Held>
    ensures { option_map (λ held. held.now) result ≡ held_by (Some todo.now) }
{
    match todo {
        Todo::Create(held) => Some(held),
        _ => None,
    }
}

/// What is to be held of the job that is created under this id, where one is.
fn created_under(todo: &[Todo], id: Id) -> Option<&Held>
    ensures { option_map (λ held. held.now) result ≡ created_under id todo.now }
{
    match creation_of(todo, id) {
        Some(one) => held_by(one),
        None => None,
    }
}

/// What is held of the job of this id, or is to be, where one is there or is created.
fn held_under<'b>(held: &'b JobList, todo: &'b [Todo], id: Id) -> Option<&'b Held>
    ensures { option_map (λ held. held.now) result ≡ held_under id held.now todo.now }
{
    match held.get(id) {
        Some(held) => Some(held),
        None => created_under(todo, id),
    }
}

/// The ticket of an ask of this job, and a copy of its flag. It fails only for want of memory.
fn new_ticket(alloc: Global, job: &Job) -> Result<(Ticket, Flag), Memory>
    ensures gone { IfOk result (λ made. made.0.gone ≡ job.now.gone) }
    ensures done { IfOk result (λ made. made.0.done ≡ made.1) }
{
    let gone = job.gone().copy(alloc)?;
    match new_flag(alloc) {
        Ok((done, copy)) => Ok((Ticket { gone, done }, copy)),
        Err(memory) => {
            drop(gone);
            Err(memory)
        }
    }
}

/// A new flag and a copy of it. It fails only for want of memory.
fn new_flag(alloc: Global) -> Result<(Flag, Flag), Memory>
    ensures { IfOk result (λ both. both.0 ≡ both.1) }
{
    let flag = Flag::new(alloc, false)?;
    with_copy(alloc, flag)
}

impl<'a> ActionHandler<'a> {
    /// A handler that shows this batch, which isn't empty, and these jobs, at this revision of the settings, and holds no act. It
    /// takes no memory.
    pub fn new(
        alloc: Global,
        journal: &'a Journal,
        held: &'a JobList,
        revision: u64,
        batch: Batch,
    ) -> ActionHandler<'a>
        requires some { 0 < length batch.names }
        requires events { AreEvents (lookup journal.now.past) batch.names batch.events }
        requires shown { AreShown journal.now.past held.now }
        ensures { result ≡ record { past = journal.now.past; revision = revision; names = batch.names; events = batch.events; acts = []; handed = false } }
    {
        let Batch {
            names,
            second_names,
            events,
            acts,
            second_acts,
        } = batch;
        ActionHandler {
            journal,
            held,
            names,
            events: List::from_vec(events),
            ids: IdCount::new(journal.next_job()),
            revision,
            last: revision,
            acts,
            second: Some(Second {
                names: second_names,
                acts: second_acts,
            }),
            todo: Vec::new(alloc),
        }
    }

    /// The events of the batch, in the order in which they were taken. They are those that the journal lists.
    pub fn events(&self) -> &List<Event>
        ensures batch { result.now ≡ self.now.events }
        ensures listed { AreEvents (lookup self.now.past) self.now.names self.now.events }
    {
        &self.events
    }

    /// The signals that the tags of the events hold, in order. It takes no memory.
    pub fn signals(&self) -> Signals<'_>
        ensures { result ≡ signals (all_tags self.now.events) }
    {
        self.events.signals()
    }

    /// The paths that the tags of the events hold, in order, each with what it leads to. It takes no memory.
    pub fn paths(&self) -> Paths<'_>
        ensures { result ≡ paths (all_tags self.now.events) }
    {
        self.events.paths()
    }

    /// The ends of processes that the tags of the events hold, in order, each where it is known. It takes no memory.
    pub fn completions(&self) -> Completions<'_>
        ensures { result ≡ completions (all_tags self.now.events) }
    {
        self.events.completions()
    }

    /// A copy of the handle on the job of this id. It answers None exactly where no job of this id was there when the
    /// handler was called: none was made, or it was gone before an earlier call. It fails only for want of memory.
    pub fn get_job(&self, alloc: Global, id: Id) -> Result<Option<Job>, Memory>
        ensures there { IfOk result (λ found. is_some found ≡ is_seen id self.now.past) }
        ensures handle { IfOk result (λ found. IfSome found (λ job. IsHandle self.now.past id job)) }
    {
        match self.held.get(id) {
            Some(held) => Ok(Some(held.handle.copy(alloc)?)),
            None => Ok(None),
        }
    }

    /// The jobs that were there when the handler was called, by rising id, each with the handle on it.
    pub fn list_jobs(&self) -> Jobs<'_>
        ensures { AreSeen self.now.past result }
    {
        self.held.iter()
    }

    /// Whether the child of the job of this id runs, by the journal so far. None does where there is no such job.
    pub fn job_running(&self, id: Id) -> bool
        ensures { result ≡ is_some (child id self.now.past) }
    {
        match self.held.get(id) {
            Some(held) => held.task.running_child().is_some(),
            None => false,
        }
    }

    /// Creates a job that runs this command, and answers its id, the next one that wasn't given, with a handle on it. No
    /// job was made under this id, and none was created in this call. It answers `IdsSpent` exactly where 2^32 - 1 ids were
    /// given before, and `Memory` for want of memory. The handler stays as it was where no job is created.
    pub fn create_job(
        &mut self,
        alloc: Global,
        command: Command,
    ) -> Result<(Id, Job), CreateRefused>
        ensures id { IfOk result (λ made. made.0.0 ≡ next_created (next_job self.old.past) self.old.acts) }
        ensures new { IfOk result (λ made. is_seen made.0 self.old.past ≡ false) }
        ensures fresh { IfOk result (λ made. is_given self.old.past self.old.acts made.0 ≡ false) }
        ensures handle { IfOk result (λ made. made.1.id ≡ made.0) }
        ensures command { IfOk result (λ made. made.1.command ≡ command) }
        ensures created { IfOk result (λ made. self.new ≡ record self.old { acts = self.old.acts ++ Create made.0 command ∷ [] }) }
        ensures refused { OnErr result (self.new ≡ self.old) }
        ensures spent { IfErr result (λ refusal. refusal ≡ IdsSpent → 2 ^ 32 - 1 ≤ next_created (next_job self.old.past) self.old.acts) }
        ensures exactly { 2 ^ 32 - 1 ≤ next_created (next_job self.old.past) self.old.acts → result ≡ Err IdsSpent }
    {
        let mut ids = self.ids;
        let Some(id) = ids.next() else {
            drop(command);
            return Err(CreateRefused::IdsSpent);
        };
        let Ok(()) = reserve_act(&mut self.acts, &mut self.second, &mut self.todo) else {
            drop(command);
            return Err(CreateRefused::Memory);
        };
        let new = new_job(alloc, id, command)?;
        self.ids = ids;
        put_act(
            &mut self.acts,
            &mut self.second,
            &mut self.todo,
            new.act,
            new.twice,
            Todo::Create(new.held),
        );
        Ok((id, new.job))
    }

    /// A handle on the job of this id: on the one that was there when the handler was called, or was created in this call,
    /// and else on a new one that runs this command, which is made again under this id. It answers `UnknownId` exactly
    /// where no job was ever made under this id, and none was created in this call, and `Memory` for want of memory. The
    /// handler stays as it was where no job is created.
    pub fn get_or_create_job(
        &mut self,
        alloc: Global,
        id: Id,
        command: &Command,
    ) -> Result<Job, GetRefused>
        ensures id { IfOk result (λ job. job.id ≡ id) }
        ensures seen { is_seen id self.old.past ≡ true → IfOk result (λ job. IsHandle self.old.past id job) }
        ensures created { is_seen id self.old.past ≡ false → IfOk result (λ job. creation id self.new.acts ≡ Some job.command) }
        ensures acts { OnOk result (self.new ≡ record self.old { acts = with_job self.old.past id command.now self.old.acts }) }
        ensures refused { OnErr result (self.new ≡ self.old) }
        ensures unknown { IfErr result (λ refusal. refusal ≡ UnknownId → is_given self.old.past self.old.acts id ≡ false) }
        ensures exactly { is_given self.old.past self.old.acts id ≡ false → result ≡ Err UnknownId }
    {
        if let Some(held) = held_under(self.held, self.todo.as_slice(), id) {
            return Ok(held.handle.copy(alloc)?);
        }
        if !self.journal.was_made(id) {
            return Err(GetRefused::UnknownId);
        }
        let Ok(()) = reserve_act(&mut self.acts, &mut self.second, &mut self.todo) else {
            return Err(GetRefused::Memory);
        };
        let new = new_job(alloc, id, command.copy(alloc)?)?;
        put_act(
            &mut self.acts,
            &mut self.second,
            &mut self.todo,
            new.act,
            new.twice,
            Todo::Create(new.held),
        );
        Ok(new.job)
    }

    /// Asks for this change of the settings. It answers `RevisionSpent` exactly where the revision would be 2^64 - 1 already,
    /// with one for each change that was asked for in this call, and `Memory` for want of memory. The handler stays as it was
    /// then.
    pub fn change(&mut self, alloc: Global, change: Change) -> Result<(), ChangeRefused>
        ensures asked { OnOk result (self.new ≡ record self.old { acts = self.old.acts ++ Changes change ∷ [] }) }
        ensures refused { OnErr result (self.new ≡ self.old) }
        ensures spent { IfErr result (λ refusal. refusal ≡ RevisionSpent → last_revision ≤ self.old.revision + length (changes self.old.acts)) }
        ensures exactly { last_revision ≤ self.old.revision + length (changes self.old.acts) → result ≡ Err RevisionSpent }
    {
        if self.last == u64::MAX {
            drop(change);
            return Err(ChangeRefused::RevisionSpent);
        }
        let Ok(()) = reserve_act(&mut self.acts, &mut self.second, &mut self.todo) else {
            drop(change);
            return Err(ChangeRefused::Memory);
        };
        let (change, first, second) = with_copies(alloc, change)?;
        self.last += 1;
        put_act(
            &mut self.acts,
            &mut self.second,
            &mut self.todo,
            Act::Change(first),
            Act::Change(second),
            Todo::Change(change),
        );
        Ok(())
    }

    /// Asks for the end of the run, at once. Of several quits the last stands; one that directly follows another takes its
    /// place in the list. It takes no memory.
    pub fn quit(&mut self)
        ensures { self.new ≡ record self.old { acts = with_quit self.old.acts } }
    {
        put_quit(&mut self.acts, Act::Quit);
        put_second_quit(&mut self.second, Act::Quit);
    }

    /// Asks that the run ends once no job lives: each job that lives behind the acts is stopped, for which its child is sent this
    /// signal and has this many nanoseconds to end, and then deleted. From the next Work turn on no event is taken. Of several quits
    /// the last stands; one that directly follows another takes its place in the list. It takes no memory.
    pub fn quit_gracefully(&mut self, signal: Signal, grace: u64)
        ensures { self.new ≡ record self.old { acts = with_graceful_quit signal grace self.old.acts } }
    {
        put_quit(&mut self.acts, Act::QuitGracefully { signal, grace });
        put_second_quit(&mut self.second, Act::QuitGracefully { signal, grace });
    }

    /// Moves out the entry of this call: the number of the handler, the names of the events, and all acts so far.
    /// It takes no memory.
    pub fn hand(&mut self, n: u32) -> Entry
        requires { self.old.handed ≡ false }
        ensures entry { result ≡ Hand n self.old.names self.old.acts }
        ensures handed { self.new ≡ record self.old { handed = true } }
        ensures lawful { AreLawful self.old.past self.old.acts }
        ensures changes { MayChange self.old.revision self.old.acts }
    {
        match self.second.take() {
            Some(second) => Entry::Hand {
                n,
                names: List::from_vec(second.names),
                acts: List::from_vec(second.acts),
            },
            None => unreachable!(),
        }
    }

    /// The names of the events, the acts, and what has to be done for them.
    pub fn into_parts(self) -> (List<u64>, List<Act>, Vec<Todo>)
        ensures names { result.0 ≡ self.entry.names }
        ensures acts { result.1 ≡ self.entry.acts }
        ensures lawful { AreLawful self.entry.past result.1 }
        ensures changes { MayChange self.entry.revision result.1 }
        ensures todo { AreTodo result.1 result.2.items }
    {
        let ActionHandler {
            names,
            events,
            acts,
            second,
            todo,
            ..
        } = self;
        drop((events, second));
        (List::from_vec(names), List::from_vec(acts), todo)
    }
}

impl<'a> Controls for ActionHandler<'a> {
    ghost Rest = { Handled };

    ghost sink = { sink_of };

    /// Asks this of the job by an act, and answers the ticket of it. It fails only for want of memory, and leaves the
    /// handler as it was then.
    fn send(&mut self, alloc: Global, job: &Job, ask: Ask) -> Result<Ticket, Refused>
        ensures sink { sink_of self.new ≡ after_send result job.now.id ask (sink_of self.old) }
        ensures sent { OnOk result (self.new ≡ record self.old { acts = self.old.acts ++ Asks job.now.id ask ∷ [] }) }
        ensures gone { IfOk result (λ ticket. ticket.gone ≡ job.now.gone) }
        ensures refused { OnErr result (self.new ≡ self.old) }
        ensures memory { IfErr result (λ refusal. refusal ≡ WantOfMemory) }
    {
        let id = job.id();
        reserve_act(&mut self.acts, &mut self.second, &mut self.todo)?;
        let (ticket, done) = new_ticket(alloc, job)?;
        put_act(
            &mut self.acts,
            &mut self.second,
            &mut self.todo,
            Act::Ask(id, ask),
            Act::Ask(id, ask),
            Todo::Ask { job: id, ask, done },
        );
        Ok(ticket)
    }
}
