// A world that follows a script, asked for turns, looks, calls on children and backends: the expected values are worked out by hand.
//
// A run is a text. Each line asks the world or one of its backends for something, with what it answers behind ` = `.
ghost use Rattle.std.specs.Prelude.{◌≤◌};

use std::alloc::Global;
use std::process::Abort;
use std::test::Fail;
use wx_command::{SpawnOptions, Spawnable};
use wx_control::{Flag, Id};
use wx_events::ProcessEnd;
use wx_follow::{ScriptBackend, ScriptWorld};
use wx_follow_trial::world_of;
use wx_hooks::World;
use wx_job::Host;
use wx_journal::SpawnTag;
use wx_notify::Notify;
use wx_scan::{Backend, EntryKind, ScanError, Scanner};
use wx_text::{List, Memory, Text};
use wx_watch::{NotifyFault, Watcher};
use wx_words::{Spelled, TextPath};

/// A world, and the backend that it made last.
struct Trial {
    alloc: Global,
    world: ScriptWorld,
    back: Option<ScriptBackend>,
}

// Its parts are dropped by one call: docs/DESIGN.md, "What proofs cost".
impl Drop for Trial {
    fn drop(self) {
        let Trial {
            alloc: _,
            world: _,
            back: _,
        } = self;
    }
}

fn path(alloc: Global, bytes: &str) -> Result<TextPath, Memory> {
    Ok(TextPath::new(Text::from_slice(alloc, bytes.as_bytes())?))
}

/// A world that follows the script of these lines.
fn make_trial(alloc: Global, lines: &str) -> Result<Trial, Fail> {
    Ok(Trial {
        alloc,
        world: world_of(alloc, lines.as_bytes())?,
        back: None,
    })
}

fn shown_fault(alloc: Global, fault: &NotifyFault) -> Result<Text, Memory> {
    let mut shown = Text::new(alloc);
    fault.put(&mut shown)?;
    Ok(shown)
}

/// What a call answered, as words.
fn shown_call(alloc: Global, answer: Result<(), NotifyFault>) -> Result<Text, Memory> {
    match answer {
        Ok(()) => Text::from_slice(alloc, b"ok"),
        Err(fault) => shown_fault(alloc, &fault),
    }
}

/// What was brought, as words.
fn shown_brought(
    alloc: Global,
    answer: Option<Result<Notify, NotifyFault>>,
) -> Result<Text, Memory> {
    match answer {
        None => Text::from_slice(alloc, b"none"),
        Some(Err(fault)) => shown_fault(alloc, &fault),
        Some(Ok(event)) => {
            let mut shown = Text::new(alloc);
            event.put(&mut shown)?;
            Ok(shown)
        }
    }
}

/// What a look answered, as words.
fn shown_look(alloc: Global, answer: Result<EntryKind, ScanError>) -> Result<Text, Memory> {
    let mut shown = Text::new(alloc);
    match answer {
        Ok(kind) => kind.put(&mut shown)?,
        Err(ScanError::NotFound) => shown.append(b"none")?,
        Err(ScanError::Io(code)) => {
            shown.append(b"io ")?;
            shown.append_number(u64::from(code))?;
        }
        Err(ScanError::Memory) => shown.append(b"memory")?,
    }
    Ok(shown)
}

/// Spawns child 0 for job 1, kills it and waits for it, and answers whether each call went well.
fn child_ends<W: Host>(world: &mut W, what: Spawnable) -> bool
    requires { 3 ≤ (W.seen world.old).spare }
{
    let spawned = world.spawn(0, Id(1), what, SpawnTag::Default);
    let killed = world.kill(0);
    let end = world.wait(0);
    spawned == Ok(()) && killed == Ok(()) && end == Ok(ProcessEnd::Success)
}

/// Lets go of child 0, raises the flag as that of ticket 0, and then as that of job 1.
fn let_go<W: Host>(world: &mut W, flag: &Flag)
    requires { 3 ≤ (W.seen world.old).spare }
{
    world.drop_child(0);
    world.raise(0, flag);
    world.gone(Id(1), flag);
}

impl Trial {
    /// Asks for a turn.
    fn turn(&mut self) -> Result<Text, Memory> {
        self.world.reserve(1)?;
        let mut shown = Text::new(self.alloc);
        match self.world.turn() {
            Ok(turned) => turned.turn.put(&mut shown)?,
            Err(fault) => {
                shown.append(b"fault ")?;
                shown.append_number(u64::from(fault.0))?;
            }
        }
        Ok(shown)
    }

    /// Asks for a backend, and keeps it.
    fn make(&mut self) -> Result<Text, Memory> {
        self.world.reserve(1)?;
        match self.world.make_backend(0, Watcher::Native, false) {
            Ok(backend) => {
                self.back = Some(backend);
                Text::from_slice(self.alloc, b"ok")
            }
            Err(fault) => shown_fault(self.alloc, &fault),
        }
    }

    /// Spawns a child, kills it and waits for it.
    fn child(&mut self) -> Result<Text, Memory> {
        let what = Spawnable {
            words: List::new(self.alloc),
            options: SpawnOptions::default(),
        };
        self.world.reserve(3)?;
        let ends = child_ends(&mut self.world, what);
        Text::from_slice(self.alloc, if ends { b"ends" } else { b"fails" })
    }

    /// Lets go of the child, and raises what waits for it and for its job.
    fn leave(&mut self) -> Result<Text, Memory> {
        self.world.reserve(3)?;
        let_go(&mut self.world, &Flag::new(self.alloc, false)?);
        Text::from_slice(self.alloc, b"ok")
    }

    /// Asks the backend that was made last.
    fn asked_back(&mut self, call: &str, at: &TextPath) -> Result<Text, Memory> {
        let Some(back) = &mut self.back else {
            return Text::from_slice(self.alloc, b"no backend");
        };
        match call {
            "watch" => {
                let answer = back.watch(&mut self.world, at);
                shown_call(self.alloc, answer)
            }
            "unwatch" => {
                let answer = back.unwatch(&mut self.world, at);
                shown_call(self.alloc, answer)
            }
            _ => {
                let answer = back.next(&mut self.world);
                shown_brought(self.alloc, answer)
            }
        }
    }

    /// Asks for what a line says.
    fn asked(&mut self, call: &str, at: &TextPath) -> Result<Text, Memory> {
        match call {
            "turn" => self.turn(),
            "make" => self.make(),
            "child" => self.child(),
            "letgo" => self.leave(),
            "look" => {
                let answer = self.world.classify(at, false);
                shown_look(self.alloc, answer)
            }
            _ => self.asked_back(call, at),
        }
    }

    /// Whether a line of a run holds.
    fn holds(&mut self, line: &str) -> Result<bool, Memory> {
        let Some((asked, wanted)) = line.split_once(" = ") else {
            return Ok(false);
        };
        let Some((call, at)) = asked.split_once(" ") else {
            return Ok(false);
        };
        let at = path(self.alloc, at)?;
        let given = self.asked(call, &at)?;
        Ok(given.as_slice() == wanted.as_bytes())
    }
}

/// Ends the test where a line of a run doesn't hold.
fn each_line_holds(rt: &impl Abort, trial: &mut Trial, run: &str) {
    for line in run.lines() {
        assert!(rt; trial.holds(line) == Ok(true), "at {line}");
    }
    assert!(rt; !trial.world.short());
}

// Two turns with a fault between them. Behind them the last turn comes again and again.
const TURNS: &str = "\
set throttle 10
set size 4
action quit
turn 5 arrive high 0
turnfault 3
turn 8 work
";

const GIVEN: &str = "\
turn - = 5 arrive high 0
turn - = fault 3
turn - = 8 work
turn - = 8 last
turn - = 8 last
";

// Calls on a child go well, and take no turn.
const CALLED: &str = "\
child - = ends
letgo - = ok
turn - = 5 arrive high 0
";

// Changes before the first turn, before a turn, before a fault, and behind all of them. Two before one turn are made in order.
const EDITS: &str = "\
node dir /
node dir /w
turn 0 file
node file /w/f 1
node link /w/f /
turn 1 work
gone /w
turnfault 5
node dir /v
";

const EDITED: &str = "\
look / = none
turn - = 0 file
look /w = dir /w
look /w/f = none
turn - = 1 work
look /w/f = link
look /w = dir /w
turn - = fault 5
look /w = none
look /w/f = none
look /v = none
turn - = 1 last
look /v = dir /v
turn - = 1 last
look /v = dir /v
";

// Of two lines for one look the first stands.
const FAILING_LOOKS: &str = "\
fail scan 3 7
fail scan 1 5
node dir /
turn 0 file
fail scan 1 6
";

const FAILED_LOOKS: &str = "\
turn - = 0 file
look / = dir /
look / = io 5
look / = dir /
look / = io 7
look / = dir /
";

// `watch`, `unwatch` and `next` are counted together, and of each backend from its make.
const FAILING_WATCHES: &str = "\
fail watch 1 5
fail watch 1 9
fail watch 3 6
node dir /
node dir /w
turn 0 file
node file /w/a 1
turn 1 file
";

const FAILED_WATCHES: &str = "\
turn - = 0 file
make - = ok
watch /w = ok
next - = io 5 0
next - = none
unwatch /w = io 6 0
turn - = 1 file
next - = create.file 1 /w/a file - -
unwatch /w = ok
make - = ok
next - = none
watch /w = io 5 0
watch /w = ok
next - = io 6 0
next - = none
unwatch /w = ok
";

// A makers' answer for each line, in order, and behind them a backend.
const MAKING: &str = "\
make fail nopath 1 /w
make ok
make fail memory 0
";

const MADE: &str = "\
make - = nopath 1 /w
next - = no backend
make - = ok
next - = none
make - = memory 0
make - = ok
next - = none
";

/// Each line of this run holds in a world that follows this script, one after the other, and nothing is refused.
fn each_holds(rt: &impl Abort, alloc: Global, script: &str, run: &str) -> Result<(), Fail> {
    let mut trial = make_trial(alloc, script)?;
    each_line_holds(rt, &mut trial, run);
    drop(trial);
    Ok(())
}

/// Scripts, and runs of the worlds that follow them.
const RUNS: [(&str, &str); 6] = [
    (TURNS, GIVEN),
    (TURNS, CALLED),
    (EDITS, EDITED),
    (FAILING_LOOKS, FAILED_LOOKS),
    (FAILING_WATCHES, FAILED_WATCHES),
    (MAKING, MADE),
];

#[test]
fn a_world_answers_as_its_script_says(rt: HostRuntime) -> Result<(), Fail> {
    for (script, run) in &RUNS {
        each_holds(&rt, rt.alloc(), script, run)?;
    }
    Ok(())
}
