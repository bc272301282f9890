// What is written down for a run.
ghost use Rattle.std.specs.Prelude.{◌≡◌, IfOk, OnOk};
ghost use Rattle.wx_script.specs.Follows.{folder_of};
ghost use Rattle.wx_script.specs.Scripts.{start, with_turn};

use crate::answers::Answers;
use std::alloc::Global;
use std::mem;
use wx_command::Command;
use wx_control::Id;
use wx_error::RuntimeError;
use wx_events::{Event, Priority};
use wx_journal::{Act, Turn, Wish};
use wx_text::{Copies, List, Memory, Text};
use wx_tree::Node;
use wx_watch::{WatchedPath, Watcher};
use wx_words::{Spelled, TextPath, Words, put_row, read_rows};

/// What the world is to do when it is asked for a turn.
#[derive(Drop)]
pub enum ScriptTurn {
    /// It gives this turn.
    Turn(Turn),
    /// It has none to give, and this is the code of the fault.
    Fault(u32),
}

impl Copies for ScriptTurn {
    fn copy(&self, alloc: Global) -> Result<ScriptTurn, Memory> {
        match self {
            ScriptTurn::Turn(turn) => Ok(ScriptTurn::Turn(turn.copy(alloc)?)),
            ScriptTurn::Fault(code) => Ok(ScriptTurn::Fault(*code)),
        }
    }
}

/// A change of the tree of files.
#[derive(Drop)]
pub enum TreeEdit {
    /// This stands at the path, in the place of what stood there.
    Node(TextPath, Node),
    /// The path is gone, and all below it.
    Gone(TextPath),
}

impl Copies for TreeEdit {
    fn copy(&self, alloc: Global) -> Result<TreeEdit, Memory> {
        match self {
            TreeEdit::Node(path, node) => {
                let path = path.copy(alloc)?;
                Ok(TreeEdit::Node(path, copied_node(alloc, node)?))
            }
            TreeEdit::Gone(path) => Ok(TreeEdit::Gone(path.copy(alloc)?)),
        }
    }
}

/// The same node once more. It fails only for want of memory.
fn copied_node(alloc: Global, node: &Node) -> Result<Node, Memory>
    ensures { IfOk result (λ copied. copied ≡ node.now) }
{
    match node {
        Node::Dir => Ok(Node::Dir),
        Node::File(stamp) => Ok(Node::File(*stamp)),
        Node::Link(target) => Ok(Node::Link(target.copy(alloc)?)),
    }
}

/// A call that is to fail: which one, counted from 0, and with which code.
#[derive(Clone, Copy)]
pub struct FailingCall {
    pub call: u64,
    pub code: u32,
}

/// Which job is created by an act of a script.
#[derive(Clone, Copy)]
pub enum Wanted {
    /// A new one. It gets its name in the run.
    New,
}

#[tactic(auto, using(wx_words::specs::LineLaws::behinds))]
impl Spelled for Wanted {
    ghost use Rattle.wx_script.specs.Wishes.{wanted};

    ghost spelling = { wanted };

    fn put_after(&self, _out: &mut Text) -> Result<(), Memory> {
        Ok(())
    }

    fn read(_alloc: Global, _line: &mut Words) -> Result<Option<Wanted>, Memory> {
        Ok(Some(Wanted::New))
    }
}

/// An act of a script.
pub enum ScriptAct {
    /// The handler asks for this.
    One(Act<Wanted>),
    /// The job of this id is asked for, and where it isn't there it is made again and runs this command.
    GetOrCreate(Id, Command),
}

// Its parts are dropped by one call: docs/DESIGN.md, "What proofs cost".
impl Drop for ScriptAct {
    fn drop(self) {
        match self {
            ScriptAct::One(_) => {}
            ScriptAct::GetOrCreate(_, _) => {}
        }
    }
}

impl Copies for ScriptAct {
    fn copy(&self, alloc: Global) -> Result<ScriptAct, Memory> {
        match self {
            ScriptAct::One(act) => Ok(ScriptAct::One(act.copy(alloc)?)),
            ScriptAct::GetOrCreate(id, command) => {
                Ok(ScriptAct::GetOrCreate(*id, command.copy(alloc)?))
            }
        }
    }
}

#[tactic(auto, unfolding(crate::specs::Wishes::script_act, wx_words::specs::Parts::both))]
impl Spelled for ScriptAct {
    ghost use Rattle.wx_script.specs.Wishes.{script_act};

    ghost spelling = { script_act };

    fn put_after(&self, out: &mut Text) -> Result<(), Memory> {
        match self {
            ScriptAct::One(act) => act.put_after(out),
            ScriptAct::GetOrCreate(id, command) => put_row(b"getcreate", &(id, command), out),
        }
    }

    fn read(alloc: Global, line: &mut Words) -> Result<Option<ScriptAct>, Memory> {
        let mut ahead = line.fork();
        if let Some(act) = Act::read(alloc, &mut ahead)? {
            *line = ahead;
            return Ok(Some(ScriptAct::One(act)));
        }
        read_rows!(alloc, line;
            b"getcreate" (id, command) => ScriptAct::GetOrCreate(id, command),
        )
    }
}

/// A run written down in advance: what the engine starts from, and what its world and its hooks do.
pub struct Script {
    /// How long events are collected, in nanoseconds.
    pub throttle: u64,
    /// How many events the queue holds.
    pub size: u32,
    /// The size of the channel of errors in the settings.
    pub error_size: u32,
    /// Whether keys are heard.
    pub keyboard: bool,
    /// Whether links are followed.
    pub follow: bool,
    /// Whether a stop and a continue of the terminal are heard.
    pub job_signals: bool,
    /// How files are watched.
    pub watcher: Watcher,
    /// The folder of the engine, where it isn't the topmost one.
    pub folder: Option<TextPath>,
    /// The paths that are watched.
    pub paths: List<WatchedPath>,
    /// The events that are sent before the run.
    pub sends: List<(Event, Priority)>,
    /// The turns, in order. Those after them are last turns.
    pub turns: List<ScriptTurn>,
    /// The changes of the tree that are made when the first turn is asked for, the second, and so on.
    pub edits: List<List<TreeEdit>>,
    /// Those that are made when the turn after them is asked for.
    pub pending: List<TreeEdit>,
    /// What the action handler asks for: the acts of its first call, of its second, and so on.
    pub actions: List<List<ScriptAct>>,
    /// What the filter answers about events: to its first call about one, to its second, and so on.
    pub filters: List<Result<bool, RuntimeError>>,
    /// What the filter answers about directories: to its first call about one, to its second, and so on.
    pub dirs: List<Result<bool, RuntimeError>>,
    /// Patterns of paths below the folder. The filter ignores what they say where no answer is left.
    pub ignores: List<Text>,
    /// What the error handler wishes: in its first call, in its second, and so on.
    pub errors: List<Wish>,
    /// Whether a begun function is ready: in the first poll of one, in the second, and so on.
    pub polls: List<bool>,
    /// What spawn hooks append to the words of what is spawned: in their first call, in the second, and so on.
    pub hooks: List<List<Text>>,
    /// What the host and the maker of backends answer.
    pub answers: Answers,
    /// The calls on the scanner that fail.
    pub failing_looks: List<FailingCall>,
    /// The calls on each backend that fail, counted from its make.
    pub failing_watches: List<FailingCall>,
    /// The moment of the last turn that is written down, in nanoseconds, 0 where there is none.
    pub last: u64,
}

// Its parts are dropped by one call: docs/DESIGN.md, "What proofs cost".
impl Drop for Script {
    fn drop(self) {
        let Script {
            throttle: _,
            size: _,
            error_size: _,
            keyboard: _,
            follow: _,
            job_signals: _,
            watcher: _,
            folder: _,
            paths: _,
            sends: _,
            turns: _,
            edits: _,
            pending: _,
            actions: _,
            filters: _,
            dirs: _,
            ignores: _,
            errors: _,
            polls: _,
            hooks: _,
            answers: _,
            failing_looks: _,
            failing_watches: _,
            last: _,
        } = self;
    }
}

impl Script {
    /// The script of no lines: the settings are the usual ones, and nothing is sent or given.
    pub fn new(alloc: Global) -> Script
        ensures { result ≡ start }
    {
        Script {
            throttle: 50_000_000,
            size: 4096,
            error_size: 64,
            keyboard: false,
            follow: true,
            job_signals: false,
            watcher: Watcher::Native,
            folder: None,
            paths: List::new(alloc),
            sends: List::new(alloc),
            turns: List::new(alloc),
            edits: List::new(alloc),
            pending: List::new(alloc),
            actions: List::new(alloc),
            filters: List::new(alloc),
            dirs: List::new(alloc),
            ignores: List::new(alloc),
            errors: List::new(alloc),
            polls: List::new(alloc),
            hooks: List::new(alloc),
            answers: Answers::new(alloc),
            failing_looks: List::new(alloc),
            failing_watches: List::new(alloc),
            last: 0,
        }
    }

    /// The folder that it states, or the topmost one. It fails only for want of memory.
    pub fn folder_or_top(&self, alloc: Global) -> Result<TextPath, Memory>
        ensures { IfOk result (λ folder. folder ≡ folder_of self.now) }
    {
        match &self.folder {
            Some(folder) => folder.copy(alloc),
            None => Ok(TextPath::new(Text::from_slice(alloc, b"/")?)),
        }
    }

    /// Adds a turn, before which what pends is edited. It fails only for want of memory.
    pub fn give(&mut self, alloc: Global, turn: ScriptTurn) -> Result<(), Memory>
        ensures { OnOk result (self.new ≡ with_turn self.old turn) }
    {
        let edits = mem::replace(&mut self.pending, List::new(alloc));
        self.edits.push(edits)?;
        self.turns.push(turn)
    }
}
