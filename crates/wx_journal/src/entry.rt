// The entries of a journal.
ghost use Rattle.std.specs.Prelude.{◌≡◌};

use crate::beginning::Beginning;
use crate::bytes::copy_bytes;
use crate::child::{HostFault, SpawnTag};
use crate::wish::Wish;
use std::alloc::Global;
use wx_command::{Command, Spawnable};
use wx_config::Change;
use wx_control::{Ask, Control, Id, Level};
use wx_error::RuntimeError;
use wx_events::{Event, Priority, ProcessEnd, Signal};
use wx_notify::Notify;
use wx_text::{Copies, List, Memory};
use wx_watch::{NotifyFault, Watcher};
use wx_words::TextPath;

/// What a turn brings.
#[derive(Drop, Debug)]
pub enum TurnKind {
    /// An event arrives.
    Arrive(Event, Priority),
    /// This signal was sent to the program.
    Signal(Signal),
    /// These bytes were read from the keyboard.
    Keys(List<u8>),
    /// The worker acts.
    Work,
    /// The job of this name takes a step.
    Job(Id),
    /// The child of this name has ended.
    Ended(u64),
    /// This is asked of the job of this name.
    Ask(Id, Ask),
    /// The settings are changed.
    Change(Change),
    /// What watches files is asked what happened.
    Listen,
    /// What keeps watches on files acts.
    File,
    /// There is no further turn.
    Last,
}

/// One turn: its moment in nanoseconds, and what it brings.
#[derive(Debug)]
pub struct Turn {
    pub at: u64,
    pub kind: TurnKind,
}

// Its parts are dropped by one call: docs/DESIGN.md, "What proofs cost".
impl Drop for Turn {
    fn drop(self) {
        let Turn { at: _, kind: _ } = self;
    }
}

/// What became of an event that was offered to the queue.
#[derive(Clone, Copy, Debug, PartialEq, Eq)]
pub enum Offered {
    Queued,
    Full,
    Closed,
}

/// What the engine says of a turn, or of an act that a handler asked for, that does nothing else.
#[derive(Clone, Copy, Debug, PartialEq, Eq)]
pub enum Word {
    /// There was nothing to do.
    Idle,
    /// What the turn or the act is about isn't there.
    Ignored,
    /// The run is to end once no job lives, and takes no event any more.
    Quitting,
    /// The begun function isn't ready.
    Later,
    /// There was nothing to do about files, or what watches them brought nothing.
    Quiet,
    /// A step was done of what keeps watches on files.
    Stepped,
}

/// Why an event that a backend brought isn't offered.
#[derive(Clone, Copy, Debug, PartialEq, Eq)]
pub enum LetGoCause {
    /// As many events waited as may.
    Full,
    /// Its backend was replaced since, for other settings.
    Obsolete,
    /// No path that is watched covers it.
    Uncovered,
}

/// What a handler asks of the engine. A `J` says which job is to be created: in a journal that is its name.
#[derive(Debug)]
pub enum Act<J = Id> {
    /// This job is to be made, which runs this command.
    Create(J, Command),
    /// This is to be asked of the job of this name.
    Ask(Id, Ask),
    /// The settings are to be changed.
    Change(Change),
    /// The run is to end at once.
    Quit,
    /// Each job that lives is to stop and to be deleted: its child is sent this signal, and has this many nanoseconds to end. The
    /// run ends once no job lives.
    QuitGracefully { signal: Signal, grace: u64 },
}

// Its parts are dropped by one call: docs/DESIGN.md, "What proofs cost".
impl<J: Drop> Drop for Act<J> {
    fn drop(self) {
        match self {
            Act::Create(_, _) => {}
            Act::Ask(_, _) => {}
            Act::Change(_) => {}
            Act::Quit => {}
            Act::QuitGracefully {
                signal: _,
                grace: _,
            } => {}
        }
    }
}

/// An event with its name, which is its place in the order of the entries that list events.
#[derive(Drop, Debug)]
pub struct Named {
    pub name: u64,
    pub event: Event,
}

/// What happened in a run.
#[derive(Debug)]
pub enum Entry {
    /// The run begins with these settings.
    Begin(Beginning),
    /// An event was sent before the run.
    Sent {
        name: u64,
        event: Event,
        priority: Priority,
    },
    /// The world gave a turn.
    Turn(Turn),
    /// The world had no turn to give, and this is the code of its fault.
    TurnFault(u32),
    /// An event was offered to the queue. The item is what a backend brought, where the event was made of that.
    Offer {
        name: u64,
        item: Option<u64>,
        result: Offered,
        event: Event,
        priority: Priority,
    },
    /// There was nothing to do but to say so.
    Word(Word),
    /// An event was taken from the queue.
    Take(u64),
    /// The event of this name was shown to the filter of this number: whether it passes, or why that isn't known.
    Filter {
        n: u32,
        name: u64,
        answer: Result<bool, RuntimeError>,
    },
    /// This error was shown to the error handler of this number, which wishes this.
    Show {
        n: u32,
        error: RuntimeError,
        wish: Wish,
    },
    /// A batch was handed to the action handler of this number, which asked for these acts.
    Hand {
        n: u32,
        names: List<u64>,
        acts: List<Act>,
    },
    /// A job of this name was made.
    Made(Id),
    /// A control was asked of a job, and has this ticket.
    Asked {
        ticket: u64,
        job: Id,
        level: Level,
        control: Control,
    },
    /// The settings were changed, and this is their revision since then.
    Changed(u64),
    /// A job picked the control of this ticket.
    Pick {
        job: Id,
        ticket: u64,
    },
    /// The grace of a job is over.
    GraceOver(Id),
    /// A job spawned a child, or failed to.
    Spawn {
        child: u64,
        job: Id,
        tag: SpawnTag,
        what: Spawnable,
        answer: Result<(), HostFault>,
    },
    /// The signal of this number was sent to a child, or could not be.
    Signal {
        child: u64,
        number: i32,
        answer: Result<(), HostFault>,
    },
    /// A child was killed, or could not be.
    Kill {
        child: u64,
        answer: Result<(), HostFault>,
    },
    /// A child was waited for: how it ended, or why that isn't known.
    Wait {
        child: u64,
        answer: Result<ProcessEnd, HostFault>,
    },
    /// A child that still ran was let go.
    Dropped(u64),
    /// The control of this ticket was done.
    Raise(u64),
    /// The job of this name is gone.
    Gone(Id),
    /// The function of this number was called for a job.
    Run {
        job: Id,
        n: u32,
    },
    /// The function of this number was begun for a job, which polls it until it is ready.
    Begun {
        job: Id,
        n: u32,
    },
    /// The begun function of this number was polled: whether it is ready.
    Poll {
        job: Id,
        n: u32,
        ready: bool,
    },
    /// The spawn hook of this number was called before a job spawned: what it left to be spawned, or that it had no
    /// memory.
    Hook {
        job: Id,
        n: u32,
        answer: Result<Spawnable, Memory>,
    },
    /// The fault of a call on a child, of this code, was shown to the error handler of this number.
    JobError {
        job: Id,
        n: u32,
        code: u32,
    },
    /// A directory was shown to the filter of this number: whether it is to be watched, or why that isn't known.
    Dir {
        n: u32,
        path: TextPath,
        answer: Result<bool, RuntimeError>,
    },
    /// A backend of this name was made, which watches files by this watcher and follows links or doesn't, or could not be.
    Make {
        back: u64,
        watcher: Watcher,
        follow: bool,
        answer: Result<(), NotifyFault>,
    },
    /// The settings of this revision were applied to what is watched.
    Applied(u64),
    /// What the item of this name says of the tree of files was heard, or its fault.
    Heard(u64),
    /// A backend brought an item, which has this name: what happened to files, or why that isn't known.
    Brought {
        item: u64,
        back: u64,
        answer: Result<Notify, NotifyFault>,
    },
    /// The event of the item of this name isn't offered, for this cause.
    LetGo {
        item: u64,
        cause: LetGoCause,
    },
    /// The world was told that what the settings of this revision ask for is watched.
    Ready(u64),
}

// Its parts are dropped by one call: docs/DESIGN.md, "What proofs cost".
impl Drop for Entry {
    fn drop(self) {
        match self {
            Entry::Begin(_) => {}
            Entry::Sent {
                name: _,
                event: _,
                priority: _,
            } => {}
            Entry::Turn(_) => {}
            Entry::TurnFault(_) => {}
            Entry::Offer {
                name: _,
                item: _,
                result: _,
                event: _,
                priority: _,
            } => {}
            Entry::Word(_) => {}
            Entry::Take(_) => {}
            Entry::Filter {
                n: _,
                name: _,
                answer: _,
            } => {}
            Entry::Show {
                n: _,
                error: _,
                wish: _,
            } => {}
            Entry::Hand {
                n: _,
                names: _,
                acts: _,
            } => {}
            Entry::Made(_) => {}
            Entry::Asked {
                ticket: _,
                job: _,
                level: _,
                control: _,
            } => {}
            Entry::Changed(_) => {}
            Entry::Pick { job: _, ticket: _ } => {}
            Entry::GraceOver(_) => {}
            Entry::Spawn {
                child: _,
                job: _,
                tag: _,
                what: _,
                answer: _,
            } => {}
            Entry::Signal {
                child: _,
                number: _,
                answer: _,
            } => {}
            Entry::Kill {
                child: _,
                answer: _,
            } => {}
            Entry::Wait {
                child: _,
                answer: _,
            } => {}
            Entry::Dropped(_) => {}
            Entry::Raise(_) => {}
            Entry::Gone(_) => {}
            Entry::Run { job: _, n: _ } => {}
            Entry::Begun { job: _, n: _ } => {}
            Entry::Poll {
                job: _,
                n: _,
                ready: _,
            } => {}
            Entry::Hook {
                job: _,
                n: _,
                answer: _,
            } => {}
            Entry::JobError {
                job: _,
                n: _,
                code: _,
            } => {}
            Entry::Dir {
                n: _,
                path: _,
                answer: _,
            } => {}
            Entry::Make {
                back: _,
                watcher: _,
                follow: _,
                answer: _,
            } => {}
            Entry::Applied(_) => {}
            Entry::Heard(_) => {}
            Entry::Brought {
                item: _,
                back: _,
                answer: _,
            } => {}
            Entry::LetGo { item: _, cause: _ } => {}
            Entry::Ready(_) => {}
        }
    }
}

impl Copies for TurnKind {
    fn copy(&self, alloc: Global) -> Result<TurnKind, Memory> {
        match self {
            TurnKind::Arrive(event, priority) => {
                Ok(TurnKind::Arrive(event.copy(alloc)?, *priority))
            }
            TurnKind::Signal(signal) => Ok(TurnKind::Signal(*signal)),
            TurnKind::Keys(bytes) => Ok(TurnKind::Keys(copy_bytes(alloc, bytes.as_slice())?)),
            TurnKind::Work => Ok(TurnKind::Work),
            TurnKind::Job(job) => Ok(TurnKind::Job(*job)),
            TurnKind::Ended(child) => Ok(TurnKind::Ended(*child)),
            TurnKind::Ask(job, ask) => Ok(TurnKind::Ask(*job, ask.copy(alloc)?)),
            TurnKind::Change(change) => Ok(TurnKind::Change(change.copy(alloc)?)),
            TurnKind::Listen => Ok(TurnKind::Listen),
            TurnKind::File => Ok(TurnKind::File),
            TurnKind::Last => Ok(TurnKind::Last),
        }
    }
}

impl Copies for Turn {
    fn copy(&self, alloc: Global) -> Result<Turn, Memory> {
        Ok(Turn {
            at: self.at,
            kind: self.kind.copy(alloc)?,
        })
    }
}

impl<J: Copy + Drop> Copies for Act<J> {
    fn copy(&self, alloc: Global) -> Result<Act<J>, Memory> {
        match self {
            Act::Create(job, command) => Ok(Act::Create(*job, command.copy(alloc)?)),
            Act::Ask(job, ask) => Ok(Act::Ask(*job, ask.copy(alloc)?)),
            Act::Change(change) => Ok(Act::Change(change.copy(alloc)?)),
            Act::Quit => Ok(Act::Quit),
            Act::QuitGracefully { signal, grace } => Ok(Act::QuitGracefully {
                signal: *signal,
                grace: *grace,
            }),
        }
    }
}
