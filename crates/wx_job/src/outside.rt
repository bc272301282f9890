// The traits of the outside that jobs use: what runs their children, and what they call.
ghost use Rattle.std.specs.Prelude.{◌≡◌, ◌∷◌, ◌≤◌, ℕ, Result, OnOk, OnErr, is_err, List, false};
ghost use Rattle.wx_command.specs.declared.command.Command.{Command};
ghost use Rattle.wx_command.specs.declared.spawnable.Spawnable.{Spawnable};
ghost use Rattle.wx_text.specs.declared.list.Memory.{Memory};
ghost use Rattle.wx_command.specs.Spawnables.{spawnable_of};
ghost use Rattle.wx_control.specs.declared.id.Id.{Id};
ghost use Rattle.wx_journal.specs.declared.entry.Entry.{Entry, Entry as AnEntry};
ghost use Rattle.wx_journal.specs.Names.{NamesItsOwn};
ghost use Rattle.wx_journal.specs.Told.{is_hooks};
ghost use Rattle.wx_machine.specs.History.{RunsOnly};
ghost use Rattle.wx_machine.specs.Seen.{Seen, Hooked};
ghost use Rattle.wx_machine.specs.Kept.{TellsHooks, Keeps, OnlyHooksRoom, left_by};
ghost use Rattle.wx_machine.specs.Steady.{OnlyRoom, Tells};

use crate::context::JobTaskContext;
use wx_command::Spawnable;
use wx_control::{Flag, Id};
use wx_events::ProcessEnd;
use wx_journal::{Entry, HostFault, SpawnTag};
use wx_text::Memory;

/// What the parts of the outside mean to contracts. It has no call: each call of the traits that stand on it says
/// what it keeps of these.
pub trait Outside {
    /// The type of what no call changes.
    ghost Plan: { Type 0 };

    /// What contracts see of it.
    ghost seen: { Self → Seen Plan };
}

/// What runs children. Each call is told as its entry, in room that was taken before. A fault comes only where the
/// count of faults rose.
pub trait Host: Outside {
    /// Takes room to tell `n` entries more. It fails only for want of memory.
    fn reserve(&mut self, n: u64) -> Result<(), Memory>
        ensures room { OnOk result (n ≤ (Self.seen self.new).spare) }
        ensures rest { OnlyRoom (Self.seen self.old) (Self.seen self.new) };

    /// Spawns a child of this name for a job.
    fn spawn(
        &mut self,
        child: u64,
        job: Id,
        what: Spawnable,
        tag: SpawnTag,
    ) -> Result<(), HostFault>
        requires { 1 ≤ (Self.seen self.old).spare }
        ensures { Tells (Entry.Spawn child job tag what result) (is_err result) (Self.seen self.old) (Self.seen self.new) };

    /// Sends the signal of this number to a child.
    fn signal(&mut self, child: u64, number: i32) -> Result<(), HostFault>
        requires { 1 ≤ (Self.seen self.old).spare }
        ensures { Tells (Entry.Signal child number result) (is_err result) (Self.seen self.old) (Self.seen self.new) };

    /// Kills a child.
    fn kill(&mut self, child: u64) -> Result<(), HostFault>
        requires { 1 ≤ (Self.seen self.old).spare }
        ensures { Tells (Entry.Kill child result) (is_err result) (Self.seen self.old) (Self.seen self.new) };

    /// Waits for a child, and answers how it ended.
    fn wait(&mut self, child: u64) -> Result<ProcessEnd, HostFault>
        requires { 1 ≤ (Self.seen self.old).spare }
        ensures { Tells (Entry.Wait child result) (is_err result) (Self.seen self.old) (Self.seen self.new) };

    /// Lets go of a child that still runs.
    fn drop_child(&mut self, child: u64)
        requires { 1 ≤ (Self.seen self.old).spare }
        ensures { Tells (Entry.Dropped child) false (Self.seen self.old) (Self.seen self.new) };

    /// Raises the flag of a ticket, whose control was done.
    fn raise(&mut self, ticket: u64, flag: &Flag)
        requires { 1 ≤ (Self.seen self.old).spare }
        ensures { Tells (Entry.Raise ticket) false (Self.seen self.old) (Self.seen self.new) };

    /// Raises the flag of a job that is gone.
    fn gone(&mut self, job: Id, flag: &Flag)
        requires { 1 ≤ (Self.seen self.old).spare }
        ensures { Tells (Entry.Gone job) false (Self.seen self.old) (Self.seen self.new) };
}

/// What jobs call. It has a plan, which no call changes, and a rule: whether a call on it may come after a journal.
/// It stands for the journals whose calls leave just this object. It is short once it was refused memory for what it
/// was to do.
pub trait JobHooks {
    /// The type of the plan.
    ghost Plan: { Type 0 };

    /// What contracts see of them.
    ghost seen: { Self → Hooked Plan };

    /// Whether an entry, which is a call on these hooks, may come after these.
    ghost rule: { Plan → List Entry → Entry → Type 0 };

    /// The rule of spawn hooks, said of what they were given to be spawned: whether a call that was given this, told as this
    /// entry, may come after these.
    ghost spawn_rule: { Plan → List Entry → Spawnable → Entry → Type 0 };

    /// Whether the calls in this journal left just this object. One that doesn't say so stands for each.
    ghost stands: { Self → List Entry → Type 0 } = { λ _ _. Unit {0} };

    /// Takes room to tell `n` entries more. It fails only for want of memory.
    fn reserve(&mut self, n: u64) -> Result<(), Memory>
        ensures room { OnOk result (n ≤ (seen self.new).spare) }
        ensures rest { OnlyHooksRoom seen stands self.old self.new };

    /// Calls the function of this number.
    fn run(&mut self, job: Id, n: u32, cx: &JobTaskContext<'_>)
        requires { 1 ≤ (seen self.old).spare }
        ensures told { TellsHooks (Entry.Run job n) (seen self.old) (seen self.new) }
        ensures keeps { (p : List AnEntry) → Keeps seen rule stands self.old p (Entry.Run job n) self.new };

    /// Begins the function of this number, which is then polled until it is ready.
    fn begin(&mut self, job: Id, n: u32, cx: &JobTaskContext<'_>)
        requires { 1 ≤ (seen self.old).spare }
        ensures told { TellsHooks (Entry.Begun job n) (seen self.old) (seen self.new) }
        ensures keeps { (p : List AnEntry) → Keeps seen rule stands self.old p (Entry.Begun job n) self.new };

    /// Polls the begun function of this number: whether it is ready.
    fn poll(&mut self, job: Id, n: u32) -> bool
        requires { 1 ≤ (seen self.old).spare }
        ensures told { TellsHooks (Entry.Poll job n result) (seen self.old) (seen self.new) }
        ensures keeps { (p : List AnEntry) → Keeps seen rule stands self.old p (Entry.Poll job n result) self.new };

    /// Shows the fault of a call on the child of a job to the error handler of this number.
    fn job_error(&mut self, job: Id, n: u32, fault: HostFault)
        requires { 1 ≤ (seen self.old).spare }
        ensures told { TellsHooks (Entry.JobError job n fault.0) (seen self.old) (seen self.new) }
        ensures keeps { (p : List AnEntry) → Keeps seen rule stands self.old p (Entry.JobError job n fault.0) self.new };

    /// Lets the spawn hook of this number change what a job is about to spawn, which is what its command spawns. Where
    /// it has no memory that is as it was. The call keeps the rule of spawn hooks, whatever a journal says of the job.
    fn spawn_hook(
        &mut self,
        job: Id,
        n: u32,
        what: &mut Spawnable,
        cx: &JobTaskContext<'_>,
    ) -> Result<(), Memory>
        requires room { 1 ≤ (seen self.old).spare }
        requires given { what.old ≡ spawnable_of cx.now.command.now }
        ensures same { OnErr result (what.new ≡ what.old) }
        ensures told { TellsHooks (Entry.Hook job n (left_by result what.new)) (seen self.old) (seen self.new) }
        ensures keeps { (p : List AnEntry) → Keeps seen (λ plan q e. spawn_rule plan q what.old e) stands self.old p (Entry.Hook job n (left_by result what.new)) self.new };

    /// Where a journal says of the job that it was created to run this command, if it says so at all, and a hook was given
    /// what this spawns, the rule of spawn hooks is the rule.
    ghost spawn_rule_is_rule: { (plan : Plan) (p : List Entry) (job : Id) (n : ℕ) (left : Result Spawnable Memory) (command : Command) → RunsOnly job command p → spawn_rule plan p (spawnable_of command) (AnEntry.Hook job n left) → rule plan p (AnEntry.Hook job n left) };

    /// What is no call on it leaves what it stands for.
    ghost stands_other: { (x : Self) (p : List Entry) (e : Entry) → NamesItsOwn p → is_hooks e ≡ false → stands x p → stands x (e ∷ p) };
}
