// What the tests run jobs over: a host that fails at a call of their choice, hooks that add words, and a journal.
ghost use Rattle.std.specs.Prelude.{◌≡◌, ◌≤◌, ◌+◌, ◌^◌, [], false, Some, None, OnOk, IfOk, is_err};
ghost use Rattle.wx_journal.specs.Names.{moment};
ghost use Rattle.wx_journal.specs.Told.{Counts};
ghost use Rattle.wx_job.specs.Stands.{TaskStands, parked_count};

use std::alloc::Global;
use wx_command::{Command, Program, SpawnOptions, Spawnable};
use wx_control::{Flag, Id, Job};
use wx_events::ProcessEnd;
use wx_job::{Host, JobHooks, JobTask, JobTaskContext, Outside, start_job};
use wx_journal::{Act, Entry, HostFault, Journal, SpawnTag, Turn, TurnKind};
use wx_machine::{CommandState, Stepped};
use wx_text::{Copies, List, Memory, Text};

/// A host that tells its entries. Of its calls to spawn, signal, kill and wait, counted from 0, the one of the number `bad` fails
/// with code 7. Children end as the last of `ends` says, or else with success.
#[derive(Drop)]
pub(crate) struct TestHost {
    told: Journal,
    calls: u64,
    bad: Option<u64>,
    pub(crate) ends: Vec<ProcessEnd>,
    faults: u64,
}

impl TestHost {
    /// A host before its first call.
    fn new(alloc: Global) -> Result<TestHost, Memory> {
        let told = Journal::new(alloc)?;
        Ok(TestHost {
            told,
            calls: 0,
            bad: None,
            ends: Vec::new(alloc),
            faults: 0,
        })
    }

    /// Of the calls from here on, the one of this number fails, counted from 0.
    pub(crate) fn fail_at(&mut self, number: u64) {
        self.bad = Some(self.calls.saturating_add(number));
    }

    /// What the next call answers.
    fn call(&mut self) -> Result<(), HostFault>
        ensures told { self.new.told ≡ self.old.told }
        ensures faults { Counts (is_err result) self.old.faults self.new.faults }
    {
        let call = self.calls;
        self.calls = call.saturating_add(1);
        if self.bad == Some(call) {
            self.faults = self.faults.saturating_add(1);
            return Err(HostFault(7));
        }
        Ok(())
    }

    /// What the next call answers, where that is the end of a child.
    fn call_end(&mut self) -> Result<ProcessEnd, HostFault>
        ensures told { self.new.told ≡ self.old.told }
        ensures faults { Counts (is_err result) self.old.faults self.new.faults }
    {
        self.call()?;
        Ok(self.ends.pop().unwrap_or(ProcessEnd::Success))
    }
}

impl Outside for TestHost {
    ghost use Rattle.std.specs.Prelude.{ℕ};

    ghost Plan = { ℕ };

    ghost seen = { λ s. record { plan = 0; shown = record { told = Some s.told.past; faults = s.faults }; spare = s.told.spare; progress = record { turns = None; left = 0; moment = 0; turn_faults = 0; maker_faults = 0 }; place = []; looked = record { tree = None; stamps = λ _. 0; shape = None; exact = false; looks = 0; faults = 0 } } };
}

impl Host for TestHost {
    fn reserve(&mut self, n: u64) -> Result<(), Memory> {
        self.told.reserve(n)
    }

    fn spawn(
        &mut self,
        child: u64,
        job: Id,
        what: Spawnable,
        tag: SpawnTag,
    ) -> Result<(), HostFault> {
        let answer = self.call();
        self.told.push(Entry::Spawn {
            child,
            job,
            tag,
            what,
            answer,
        });
        answer
    }

    fn signal(&mut self, child: u64, number: i32) -> Result<(), HostFault> {
        let answer = self.call();
        self.told.push(Entry::Signal {
            child,
            number,
            answer,
        });
        answer
    }

    fn kill(&mut self, child: u64) -> Result<(), HostFault> {
        let answer = self.call();
        self.told.push(Entry::Kill { child, answer });
        answer
    }

    fn wait(&mut self, child: u64) -> Result<ProcessEnd, HostFault> {
        let answer = self.call_end();
        self.told.push(Entry::Wait { child, answer });
        answer
    }

    fn drop_child(&mut self, child: u64) {
        self.told.push(Entry::Dropped(child));
    }

    fn raise(&mut self, ticket: u64, flag: &Flag) {
        flag.raise();
        self.told.push(Entry::Raise(ticket));
    }

    fn gone(&mut self, job: Id, flag: &Flag) {
        flag.raise();
        self.told.push(Entry::Gone(job));
    }
}

/// What a context showed: the first letter of the program, the state and the one before.
pub(crate) type Shown = (char, CommandState, Option<CommandState>);

/// Hooks that tell nothing. A spawn hook adds the last of these words to what is spawned, but the one of the number 9 has
/// no memory. A poll answers the first of `polls`, or else that the function is ready. What the last context showed is kept.
#[derive(Drop)]
pub(crate) struct TestHooks {
    pub(crate) words: Vec<Text>,
    pub(crate) polls: Vec<bool>,
    pub(crate) shown: Option<Shown>,
}

impl TestHooks {
    /// Hooks before their first call.
    fn new(alloc: Global) -> TestHooks {
        TestHooks {
            words: Vec::new(alloc),
            polls: Vec::new(alloc),
            shown: None,
        }
    }

    /// Keeps what a context shows.
    fn keep(&mut self, cx: &JobTaskContext<'_>) {
        let first = match &cx.command.program {
            Program::Exec { prog, .. } => prog.as_slice().first(),
            Program::Shell { .. } => None,
        };
        let letter = *first.unwrap_or(&b'?') as char;
        self.shown = Some((letter, *cx.current, cx.previous.copied()));
    }
}

impl JobHooks for TestHooks {
    ghost use Rattle.std.specs.Prelude.{ℕ};

    ghost Plan = { ℕ };

    ghost seen = { λ _. record { plan = 0; told = None; spare = 2 ^ 64; short = false; place = [] } };

    ghost rule = { λ _ _ _. Unit {0} };

    ghost spawn_rule = { λ _ _ _ _. Unit {0} };

    ghost stands = { λ _ _. Unit {0} };

    fn reserve(&mut self, _n: u64) -> Result<(), Memory> {
        Ok(())
    }

    fn run(&mut self, _job: Id, _n: u32, cx: &JobTaskContext<'_>) {
        self.keep(cx);
    }

    fn begin(&mut self, _job: Id, _n: u32, cx: &JobTaskContext<'_>) {
        self.keep(cx);
    }

    fn poll(&mut self, _job: Id, _n: u32) -> bool {
        if self.polls.is_empty() {
            return true;
        }
        self.polls.remove(0)
    }

    fn job_error(&mut self, _job: Id, _n: u32, _fault: HostFault) {}

    fn spawn_hook(
        &mut self,
        _job: Id,
        n: u32,
        what: &mut Spawnable,
        cx: &JobTaskContext<'_>,
    ) -> Result<(), Memory> {
        self.keep(cx);
        if n == 9 {
            return Err(Memory);
        }
        match self.words.pop() {
            Some(word) => what.words.push(word),
            None => Ok(()),
        }
    }

    ghost spawn_rule_is_rule = { λ _ _ _ _ _ _ _ _. tt };

    ghost stands_other = { λ _ _ _ _ _ h. h };
}

/// A host, hooks and the journal of a run.
pub(crate) struct World {
    pub(crate) host: TestHost,
    pub(crate) hooks: TestHooks,
    pub(crate) journal: Journal,
}

// Its parts are dropped by one call: docs/DESIGN.md, "What proofs cost".
impl Drop for World {
    fn drop(self) {
        let World {
            host: _,
            hooks: _,
            journal: _,
        } = self;
    }
}

/// The world of a run before its first entry.
pub(crate) fn new_world(alloc: Global) -> Result<World, Memory> {
    let host = TestHost::new(alloc)?;
    match Journal::new(alloc) {
        Ok(journal) => Ok(World {
            host,
            hooks: TestHooks::new(alloc),
            journal,
        }),
        Err(want) => {
            drop(host);
            Err(want)
        }
    }
}

/// The command that runs the program `a`.
pub(crate) fn command_a(alloc: Global) -> Result<Command, Memory> {
    let prog = Text::from_slice(alloc, b"a")?;
    let args = List::new(alloc);
    Ok(Command {
        program: Program::Exec { prog, args },
        options: SpawnOptions::default(),
    })
}

/// A job of this name is created, which runs the program `a`, and made. It answers a handle on it too.
pub(crate) fn make_job(alloc: Global, id: Id, world: &mut World) -> Result<(Job, JobTask), Memory>
    ensures stands { IfOk result (λ made. TaskStands made.1 world.new.journal.past) }
{
    world.journal.reserve(2)?;
    let command = command_a(alloc)?;
    let acts = vec![in alloc; Act::Create(id, command.copy(alloc)?)]?;
    let (handle, task) = start_job(alloc, id, command)?;
    world.journal.push(Entry::Hand {
        n: 0,
        names: List::new(alloc),
        acts: List::from_vec(acts),
    });
    world.journal.push(Entry::Made(id));
    Ok((handle, task))
}

/// Room for one move of this job.
fn make_room(task: &JobTask, world: &mut World) -> Result<(), Memory>
    ensures past { world.new.journal.past ≡ world.old.journal.past }
    ensures journal_room { OnOk result (17 + parked_count task.now ≤ world.new.journal.spare) }
    ensures host_room { OnOk result (17 + parked_count task.now ≤ world.new.host.told.spare) }
{
    let room = task.parked().checked_add(17).ok_or(Memory)?;
    world.journal.reserve(room)?;
    world.host.reserve(room)?;
    world.hooks.reserve(16)
}

/// A step of the job in the turn that was given.
fn step_now(
    task: &mut JobTask,
    alloc: Global,
    at: u64,
    world: &mut World,
) -> Result<Stepped, Memory>
    requires stands { TaskStands task.old world.old.journal.past }
    requires at { moment world.old.journal.past ≡ at }
    requires journal_room { 16 + parked_count task.old ≤ world.old.journal.spare }
    requires host_room { 16 + parked_count task.old ≤ world.old.host.told.spare }
    ensures stands { TaskStands task.new world.new.journal.past }
{
    let World {
        host,
        hooks,
        journal,
    } = world;
    task.step(alloc, at, host, hooks, journal)
}

/// A turn in which the job, which has this id, takes a step.
#[tactic(auto, using(crate::proofs::Turns::stands_turn))]
pub(crate) fn step(
    task: &mut JobTask,
    id: Id,
    alloc: Global,
    at: u64,
    world: &mut World,
) -> Result<Stepped, Memory>
    requires stands { TaskStands task.old world.old.journal.past }
    ensures stands { TaskStands task.new world.new.journal.past }
{
    make_room(task, world)?;
    let kind = TurnKind::Job(id);
    world.journal.push(Entry::Turn(Turn { at, kind }));
    step_now(task, alloc, at, world)
}

/// A turn that tells the end of the child that runs. Where none does there is no turn.
#[tactic(auto, using(crate::proofs::Turns::is_ending))]
pub(crate) fn end_child(
    task: &mut JobTask,
    alloc: Global,
    at: u64,
    world: &mut World,
) -> Result<Stepped, Memory>
    requires stands { TaskStands task.old world.old.journal.past }
    ensures stands { TaskStands task.new world.new.journal.past }
{
    let Some(child) = task.running_child() else {
        return Ok(Stepped::Idle);
    };
    make_room(task, world)?;
    let kind = TurnKind::Ended(child);
    world.journal.push(Entry::Turn(Turn { at, kind }));
    task.ended(
        alloc,
        child,
        at,
        &mut world.host,
        &mut world.hooks,
        &mut world.journal,
    )
}

/// The end of the job.
pub(crate) fn end_job(task: &mut JobTask, world: &mut World) -> Result<(), Memory>
    requires stands { TaskStands task.old world.old.journal.past }
    ensures stands { TaskStands task.new world.new.journal.past }
{
    world.journal.reserve(2)?;
    world.host.reserve(2)?;
    task.end(&mut world.host, &mut world.journal);
    Ok(())
}
