// The script of a flood.
ghost use Rattle.std.specs.Prelude.{◌≡◌, ◌+◌, ◌≤◌, ◌<◌, ◌^◌, IfOk, OnOk};
ghost use Rattle.wx_script.specs.Follows.{IsScript};
ghost use Rattle.wx_flood.specs.Draws.{next, number};
ghost use Rattle.wx_flood.specs.Floods.{priority_of, ask_of, event_of, program, creating, asking, given, arrives, acting, works, steps_job, ends_child, comes, stepped, begun, flood_script};

use crate::drawing::draw;
use std::alloc::Global;
use wx_command::{Command, Program, SpawnOptions};
use wx_control::{Ask, Control, Id};
use wx_events::{Event, Priority, Signal, Tag};
use wx_journal::{Act, Turn, TurnKind};
use wx_script::{Script, ScriptAct, ScriptTurn, Wanted};
use wx_text::{List, Memory, Text};

/// How many steps a flood has at most.
pub const MOST: u64 = 100_000;

/// How much later a step comes than the one before it, at most, in nanoseconds, and one more.
const LONGEST: u64 = 20_000_000;

/// How long a child has to end, in nanoseconds.
const GRACE: u64 = 5_000_000;

/// A flood so far: the state of its draws, and its script.
#[derive(Drop)]
struct Flood {
    state: u64,
    script: Script,
}

/// The priority for a drawn number.
fn priority_of(n: u64) -> Priority
    ensures { result ≡ priority_of n }
{
    match n {
        0 => Priority::Low,
        1 => Priority::Normal,
        2 => Priority::High,
        _ => Priority::Urgent,
    }
}

/// What a drawn number asks of a job.
fn ask_of(n: u64) -> Ask
    ensures { result ≡ ask_of n }
{
    match n {
        0 => Ask::Restart,
        1 => Ask::One(Control::GracefulStop {
            signal: Signal::Terminate,
            grace: GRACE,
        }),
        2 => Ask::One(Control::TryGracefulRestart {
            signal: Signal::User1,
            grace: GRACE,
        }),
        _ => Ask::One(Control::Start),
    }
}

/// An event of the process of this id.
fn event_of(alloc: Global, process: u32) -> Result<Event, Memory>
    ensures { IfOk result (λ event. event ≡ event_of process) }
{
    let mut tags = List::new(alloc);
    tags.push(Tag::Process(process))?;
    Ok(Event { tags })
}

/// The program `p`, without arguments.
fn program(alloc: Global) -> Result<Command, Memory>
    ensures { IfOk result (λ command. command ≡ program) }
{
    Ok(Command {
        program: Program::Exec {
            prog: Text::from_slice(alloc, b"p")?,
            args: List::new(alloc),
        },
        options: SpawnOptions {
            grouped: false,
            session: false,
            reset_sigmask: false,
            grant_foreground: false,
        },
    })
}

/// The acts that create this job, and start it.
fn creating(alloc: Global, job: u32) -> Result<List<ScriptAct>, Memory>
    ensures { IfOk result (λ acts. acts ≡ creating job) }
{
    let mut acts = List::new(alloc);
    acts.push(ScriptAct::One(Act::Create(Wanted::New, program(alloc)?)))?;
    acts.push(ScriptAct::One(Act::Ask(Id(job), Ask::One(Control::Start))))?;
    Ok(acts)
}

/// The acts that ask this of this job.
fn asking(alloc: Global, job: u32, ask: Ask) -> Result<List<ScriptAct>, Memory>
    ensures { IfOk result (λ acts. acts ≡ asking job ask) }
{
    let mut acts = List::new(alloc);
    acts.push(ScriptAct::One(Act::Ask(Id(job), ask)))?;
    Ok(acts)
}

impl Flood {
    /// No step yet of a flood that has so many.
    fn new(alloc: Global, steps: u64, seed: u64) -> Result<Flood, Memory>
        ensures { IfOk result (λ flood. (flood.state ≡ seed) × (flood.script ≡ begun steps)) }
    {
        let mut script = Script::new(alloc);
        script.size = 64;
        if steps != 0 {
            let event = Event {
                tags: List::new(alloc),
            };
            script.sends.push((event, Priority::Urgent))?;
        }
        Ok(Flood {
            state: seed,
            script,
        })
    }

    /// Draws a number below the limit.
    #[tactic(auto, using(std::proofs::lemmas::Nat::mod_below))]
    fn draw(&mut self, limit: u64) -> u64
        requires { 0 < limit }
        ensures goes_on { self.new ≡ record self.old { state = next self.old.state } }
        ensures drawn { result ≡ number limit (next self.old.state) }
        ensures below { result < limit }
    {
        draw(&mut self.state, limit)
    }

    /// Gives a turn at this moment. It fails only for want of memory.
    fn give(&mut self, alloc: Global, at: u64, kind: TurnKind) -> Result<(), Memory>
        ensures { OnOk result (self.new ≡ record self.old { script = given at kind self.old.script }) }
    {
        self.script.last = at;
        self.script.give(alloc, ScriptTurn::Turn(Turn { at, kind }))
    }

    /// An event of a drawn process arrives, with a drawn priority.
    fn arrive(&mut self, alloc: Global, at: u64) -> Result<(), Memory>
        ensures { OnOk result (self.new ≡ arrives at self.old) }
    {
        let priority = priority_of(self.draw(4));
        let event = event_of(alloc, self.draw(1000) as u32)?;
        self.give(alloc, at, TurnKind::Arrive(event, priority))
    }

    /// The worker acts, and these acts are a line more. It fails only for want of memory.
    fn act(&mut self, alloc: Global, at: u64, acts: List<ScriptAct>) -> Result<(), Memory>
        ensures { OnOk result (self.new ≡ record self.old { script = acting at acts self.old.script }) }
    {
        self.script.actions.push(acts)?;
        self.give(alloc, at, TurnKind::Work)
    }

    /// The worker acts: the first four times a job is created and started, and later something drawn is asked of one of them.
    fn work(&mut self, alloc: Global, at: u64) -> Result<(), Memory>
        ensures { OnOk result (self.new ≡ works at self.old) }
    {
        let lines = self.script.actions.len();
        if lines < 4 {
            let acts = creating(alloc, lines as u32)?;
            return self.act(alloc, at, acts);
        }
        let job = self.draw(4) as u32;
        let ask = ask_of(self.draw(4));
        let acts = asking(alloc, job, ask)?;
        self.act(alloc, at, acts)
    }

    /// A drawn job takes a step.
    fn step_job(&mut self, alloc: Global, at: u64) -> Result<(), Memory>
        ensures { OnOk result (self.new ≡ steps_job at self.old) }
    {
        let job = Id(self.draw(4) as u32);
        self.give(alloc, at, TurnKind::Job(job))
    }

    /// A drawn child has ended.
    fn end_child(&mut self, alloc: Global, at: u64) -> Result<(), Memory>
        ensures { OnOk result (self.new ≡ ends_child at self.old) }
    {
        let child = self.draw(64);
        self.give(alloc, at, TurnKind::Ended(child))
    }

    /// What comes at this moment, by a number below 8.
    fn come(&mut self, alloc: Global, choice: u64, at: u64) -> Result<(), Memory>
        ensures { OnOk result (self.new ≡ comes choice at self.old) }
    {
        if choice < 3 {
            self.arrive(alloc, at)
        } else if choice < 5 {
            self.work(alloc, at)
        } else if choice < 7 {
            self.step_job(alloc, at)
        } else {
            self.end_child(alloc, at)
        }
    }

    /// Takes a step: a drawn time later, something drawn comes.
    fn step(&mut self, alloc: Global) -> Result<(), Memory>
        requires { self.old.script.last + 20000000 < 2 ^ 64 }
        ensures { OnOk result (self.new ≡ stepped self.old) }
    {
        let at = self.script.last + self.draw(LONGEST);
        let choice = self.draw(8);
        self.come(alloc, choice, at)
    }
}

/// The script of a flood of so many steps, drawn from this seed on. It fails only for want of memory.
#[tactic(auto, using(crate::proofs::FloodLaws::one_more, crate::proofs::FloodLaws::room_for_more, crate::proofs::FloodLaws::script_is))]
pub fn flood_script(alloc: Global, steps: u64, seed: u64) -> Result<Script, Memory>
    requires { steps ≤ 100000 }
    ensures exact { IfOk result (λ script. script ≡ flood_script steps seed) }
    ensures lawful { IfOk result IsScript }
{
    let mut flood = Flood::new(alloc, steps, seed)?;
    for _ in 0..steps {
        flood.step(alloc)?;
    }
    let Flood { state: _, script } = flood;
    Ok(script)
}
