// Errors that a run may go on after.
ghost use Rattle.std.specs.Prelude.{◌≡◌};

use std::alloc::Global;
use std::fmt;
use thiserror::Error;
use wx_events::{Event, Priority, Signal};
use wx_text::{Boxed, Copies, Memory, Text};
use wx_watch::{FsWatcherError, KeyboardWatcherError, Watcher};
use wx_words::{Escaped, Spelled, Words, put_row, put_word, read_rows};

/// An error that a run may go on after. It is shown by its words.
#[derive(Debug, Error)]
pub enum RuntimeError {
    /// No error: the run is to end.
    #[error("exit")]
    Exit,
    /// An error of the user's own.
    #[error("external {text}", text = Escaped(.0))]
    External(Text),
    /// A call on the outside failed: what it was about, and the code.
    #[error("io {about} {err}", about = Escaped(.about))]
    IoError {
        about: Text,
        err: u32,
    },
    /// The watching of files failed. What failed stands in a box, since it is larger than what other errors hold.
    #[error("fswatcher {kind} {err}")]
    FsWatcher {
        kind: Watcher,
        err: Boxed<FsWatcherError>,
    },
    /// The reading of keys failed.
    #[error("keyboard {err}")]
    KeyboardWatcher {
        err: KeyboardWatcherError,
    },
    /// What runs the commands failed.
    #[error("internal {text}", text = Escaped(.0))]
    InternalSupervisor(Text),
    /// An event couldn't be sent: where, and the event.
    #[error("send {ctx} {priority} {event}", ctx = Escaped(.ctx))]
    EventChannelSend {
        ctx: Text,
        event: Event,
        priority: Priority,
    },
    /// An event couldn't be sent at once: where, why, and the event.
    #[error("trysend {ctx} {fault} {priority} {event}", ctx = Escaped(.ctx))]
    EventChannelTrySend {
        ctx: Text,
        fault: TrySendFault,
        event: Event,
        priority: Priority,
    },
    /// A handler failed: where, and its message.
    #[error("handler {ctx} {err}", ctx = Escaped(.ctx), err = Escaped(.err))]
    Handler {
        ctx: Text,
        err: Text,
    },
    /// This handler ended while it held a lock.
    #[error("lockheld {text}", text = Escaped(.0))]
    HandlerLockHeld(Text),
    /// A call on a process failed, with this code.
    #[error("process {0}")]
    Process(u32),
    /// A process ended before it was seen.
    #[error("deadonarrival")]
    ProcessDeadOnArrival,
    /// This signal can't be sent.
    #[error("unsupported {0}")]
    UnsupportedSignal(Signal),
    /// There is nothing to run.
    #[error("nocommands")]
    NoCommands,
    /// A shell has no command.
    #[error("emptycommand")]
    CommandShellEmptyCommand,
    /// A shell has no program.
    #[error("emptyshell")]
    CommandShellEmptyShell,
    /// A filter failed: which sort of filter, and its message.
    #[error("filterer {kind} {err}", kind = Escaped(.kind), err = Escaped(.err))]
    Filterer {
        kind: Text,
        err: Text,
    },
    /// There was no memory.
    #[error("memory")]
    Memory,
}

// Its parts are dropped by one call: docs/DESIGN.md, "What proofs cost".
impl Drop for RuntimeError {
    fn drop(self) {
        match self {
            RuntimeError::Exit => {}
            RuntimeError::External(_) => {}
            RuntimeError::IoError { about: _, err: _ } => {}
            RuntimeError::FsWatcher { kind: _, err: _ } => {}
            RuntimeError::KeyboardWatcher { err: _ } => {}
            RuntimeError::InternalSupervisor(_) => {}
            RuntimeError::EventChannelSend {
                ctx: _,
                event: _,
                priority: _,
            } => {}
            RuntimeError::EventChannelTrySend {
                ctx: _,
                fault: _,
                event: _,
                priority: _,
            } => {}
            RuntimeError::Handler { ctx: _, err: _ } => {}
            RuntimeError::HandlerLockHeld(_) => {}
            RuntimeError::Process(_) => {}
            RuntimeError::ProcessDeadOnArrival => {}
            RuntimeError::UnsupportedSignal(_) => {}
            RuntimeError::NoCommands => {}
            RuntimeError::CommandShellEmptyCommand => {}
            RuntimeError::CommandShellEmptyShell => {}
            RuntimeError::Filterer { kind: _, err: _ } => {}
            RuntimeError::Memory => {}
        }
    }
}

/// Why an event wasn't sent at once.
#[derive(Clone, Copy, Debug)]
pub enum TrySendFault {
    Full,
    Closed,
}

impl From<Memory> for RuntimeError {
    ghost use Rattle.wx_error.specs.declared.runtime.RuntimeError.TheVariants.{Memory as WantOfMemory};

    ghost from_gives = { λ _ e. e ≡ WantOfMemory };

    fn from(_memory: Memory) -> Self {
        RuntimeError::Memory
    }
}

impl fmt::Display for TrySendFault {
    fn fmt<W: fmt::Write>(&self, f: &mut fmt::Formatter<W>) -> fmt::Result {
        match self {
            TrySendFault::Full => f.write_str("full"),
            TrySendFault::Closed => f.write_str("closed"),
        }
    }
}

impl Copies for RuntimeError {
    fn copy(&self, alloc: Global) -> Result<RuntimeError, Memory> {
        Ok(match self {
            RuntimeError::Exit => RuntimeError::Exit,
            RuntimeError::External(text) => RuntimeError::External(text.copy(alloc)?),
            RuntimeError::IoError { about, err } => RuntimeError::IoError {
                about: about.copy(alloc)?,
                err: *err,
            },
            RuntimeError::FsWatcher { kind, err } => RuntimeError::FsWatcher {
                kind: *kind,
                err: err.copy(alloc)?,
            },
            RuntimeError::KeyboardWatcher { err } => RuntimeError::KeyboardWatcher { err: *err },
            RuntimeError::InternalSupervisor(text) => {
                RuntimeError::InternalSupervisor(text.copy(alloc)?)
            }
            RuntimeError::EventChannelSend {
                ctx,
                event,
                priority,
            } => {
                let ctx = ctx.copy(alloc)?;
                let event = event.copy(alloc)?;
                RuntimeError::EventChannelSend {
                    ctx,
                    event,
                    priority: *priority,
                }
            }
            RuntimeError::EventChannelTrySend {
                ctx,
                fault,
                event,
                priority,
            } => {
                let ctx = ctx.copy(alloc)?;
                let event = event.copy(alloc)?;
                RuntimeError::EventChannelTrySend {
                    ctx,
                    fault: *fault,
                    event,
                    priority: *priority,
                }
            }
            RuntimeError::Handler { ctx, err } => {
                let ctx = ctx.copy(alloc)?;
                let err = err.copy(alloc)?;
                RuntimeError::Handler { ctx, err }
            }
            RuntimeError::HandlerLockHeld(text) => RuntimeError::HandlerLockHeld(text.copy(alloc)?),
            RuntimeError::Process(code) => RuntimeError::Process(*code),
            RuntimeError::ProcessDeadOnArrival => RuntimeError::ProcessDeadOnArrival,
            RuntimeError::UnsupportedSignal(signal) => RuntimeError::UnsupportedSignal(*signal),
            RuntimeError::NoCommands => RuntimeError::NoCommands,
            RuntimeError::CommandShellEmptyCommand => RuntimeError::CommandShellEmptyCommand,
            RuntimeError::CommandShellEmptyShell => RuntimeError::CommandShellEmptyShell,
            RuntimeError::Filterer { kind, err } => {
                let kind = kind.copy(alloc)?;
                let err = err.copy(alloc)?;
                RuntimeError::Filterer { kind, err }
            }
            RuntimeError::Memory => RuntimeError::Memory,
        })
    }
}

#[tactic(auto, unfolding(crate::specs::Runtime::try_send_fault))]
impl Spelled for TrySendFault {
    ghost use Rattle.wx_error.specs.Runtime.{try_send_fault};

    ghost spelling = { try_send_fault };

    fn put_after(&self, out: &mut Text) -> Result<(), Memory> {
        match self {
            TrySendFault::Full => put_word(b"full", out),
            TrySendFault::Closed => put_word(b"closed", out),
        }
    }

    fn read(alloc: Global, line: &mut Words) -> Result<Option<TrySendFault>, Memory> {
        read_rows!(alloc, line;
            b"full" => TrySendFault::Full,
            b"closed" => TrySendFault::Closed,
        )
    }
}

#[tactic(auto, using(wx_words::specs::LineLaws::behinds), unfolding(crate::specs::Runtime::runtime, wx_words::specs::Parts::both))]
impl Spelled for RuntimeError {
    ghost use Rattle.wx_error.specs.Runtime.{runtime};

    ghost spelling = { runtime };

    fn put_after(&self, out: &mut Text) -> Result<(), Memory> {
        match self {
            RuntimeError::Exit => put_word(b"exit", out),
            RuntimeError::External(text) => put_row(b"external", &text, out),
            RuntimeError::IoError { about, err } => put_row(b"io", &(about, err), out),
            RuntimeError::FsWatcher { kind, err } => put_row(b"fswatcher", &(kind, err), out),
            RuntimeError::KeyboardWatcher { err } => put_row(b"keyboard", &err, out),
            RuntimeError::InternalSupervisor(text) => put_row(b"internal", &text, out),
            RuntimeError::EventChannelSend {
                ctx,
                event,
                priority,
            } => put_row(b"send", &(ctx, (priority, event)), out),
            RuntimeError::EventChannelTrySend {
                ctx,
                fault,
                event,
                priority,
            } => put_row(b"trysend", &(ctx, (fault, (priority, event))), out),
            RuntimeError::Handler { ctx, err } => put_row(b"handler", &(ctx, err), out),
            RuntimeError::HandlerLockHeld(text) => put_row(b"lockheld", &text, out),
            RuntimeError::Process(code) => put_row(b"process", &code, out),
            RuntimeError::ProcessDeadOnArrival => put_word(b"deadonarrival", out),
            RuntimeError::UnsupportedSignal(signal) => put_row(b"unsupported", &signal, out),
            RuntimeError::NoCommands => put_word(b"nocommands", out),
            RuntimeError::CommandShellEmptyCommand => put_word(b"emptycommand", out),
            RuntimeError::CommandShellEmptyShell => put_word(b"emptyshell", out),
            RuntimeError::Filterer { kind, err } => put_row(b"filterer", &(kind, err), out),
            RuntimeError::Memory => put_word(b"memory", out),
        }
    }

    fn read(alloc: Global, line: &mut Words) -> Result<Option<RuntimeError>, Memory> {
        read_rows!(alloc, line;
            b"exit" => RuntimeError::Exit,
            b"external" (text) => RuntimeError::External(text),
            b"io" (about, err) => RuntimeError::IoError { about, err },
            b"fswatcher" (kind, err) => RuntimeError::FsWatcher { kind, err },
            b"keyboard" (err) => RuntimeError::KeyboardWatcher { err },
            b"internal" (text) => RuntimeError::InternalSupervisor(text),
            b"send" (ctx, (priority, event)) => RuntimeError::EventChannelSend { ctx, event, priority },
            b"trysend" (ctx, (fault, (priority, event))) => RuntimeError::EventChannelTrySend { ctx, fault, event, priority },
            b"handler" (ctx, err) => RuntimeError::Handler { ctx, err },
            b"lockheld" (text) => RuntimeError::HandlerLockHeld(text),
            b"process" (code) => RuntimeError::Process(code),
            b"deadonarrival" => RuntimeError::ProcessDeadOnArrival,
            b"unsupported" (signal) => RuntimeError::UnsupportedSignal(signal),
            b"nocommands" => RuntimeError::NoCommands,
            b"emptycommand" => RuntimeError::CommandShellEmptyCommand,
            b"emptyshell" => RuntimeError::CommandShellEmptyShell,
            b"filterer" (kind, err) => RuntimeError::Filterer { kind, err },
            b"memory" => RuntimeError::Memory,
        )
    }
}
