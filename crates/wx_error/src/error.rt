// Why a run ends before its last turn.
ghost use Rattle.std.specs.Prelude.{◌≡◌, IfOk};
ghost use Rattle.wx_words.specs.Line.{Reads};
ghost use Rattle.wx_words.specs.Combine.{read_as};
ghost use Rattle.wx_error.specs.Critical.{help, elevated, make_elevated};

use crate::runtime::RuntimeError;
use std::alloc::Global;
use std::fmt;
use thiserror::Error;
use wx_events::{Event, Priority};
use wx_text::{Copies, Memory, Text};
use wx_watch::{FsWatcherError, Watcher};
use wx_words::{Escaped, Fields, Spelled, Words, put_row, put_word, read_rows};

/// An error that ends a run. It is shown by its words.
#[derive(Drop, Debug, Error)]
pub enum CriticalError {
    /// No error: the run is to end.
    #[error("exit")]
    Exit,
    /// An error of the user's own.
    #[error("external {text}", text = Escaped(.0))]
    External(Text),
    /// An error that the run may not go on after, and maybe a word to the user.
    #[error("elevated {err} {help}", help = Help(.help))]
    Elevated {
        err: RuntimeError,
        help: Option<Text>,
    },
    /// A call on the outside failed: what it was about, and the code.
    #[error("io {about} {err}", about = Escaped(.about))]
    IoError {
        about: Text,
        err: u32,
    },
    /// This event couldn't be sent.
    #[error("send {priority} {event}")]
    EventChannelSend {
        event: Event,
        priority: Priority,
    },
    /// The watching of files can't begin.
    #[error("init {kind} {err}")]
    FsWatcherInit {
        kind: Watcher,
        err: FsWatcherError,
    },
    /// There was no memory.
    #[error("memory")]
    Memory,
}

impl From<Memory> for CriticalError {
    ghost use Rattle.wx_error.specs.declared.error.CriticalError.TheVariants.{Memory as WantOfMemory};

    ghost from_gives = { λ _ e. e ≡ WantOfMemory };

    fn from(_memory: Memory) -> Self {
        CriticalError::Memory
    }
}

impl Copies for CriticalError {
    fn copy(&self, alloc: Global) -> Result<CriticalError, Memory> {
        Ok(match self {
            CriticalError::Exit => CriticalError::Exit,
            CriticalError::External(text) => CriticalError::External(text.copy(alloc)?),
            CriticalError::Elevated { err, help } => {
                // copied first: a drop of an option is quicker to prove than that of a long enum
                let help = match help {
                    Some(text) => Some(text.copy(alloc)?),
                    None => None,
                };
                CriticalError::Elevated {
                    err: err.copy(alloc)?,
                    help,
                }
            }
            CriticalError::IoError { about, err } => CriticalError::IoError {
                about: about.copy(alloc)?,
                err: *err,
            },
            CriticalError::EventChannelSend { event, priority } => {
                CriticalError::EventChannelSend {
                    event: event.copy(alloc)?,
                    priority: *priority,
                }
            }
            CriticalError::FsWatcherInit { kind, err } => CriticalError::FsWatcherInit {
                kind: *kind,
                err: err.copy(alloc)?,
            },
            CriticalError::Memory => CriticalError::Memory,
        })
    }
}

/// A word to the user, which may be absent, lent to be written.
#[derive(Clone, Copy)]
struct Help<'a>(&'a Option<Text>);

impl<'a> Fields for Help<'a> {
    ghost use Rattle.wx_error.specs.Critical.{help};

    ghost fits = { λ lent. help.fits lent.0.now };

    ghost words = { λ lent. help.words lent.0.now };

    fn put_fields(&self, out: &mut Text) -> Result<(), Memory> {
        match self.0 {
            Some(text) => put_row(b"some", &text, out),
            None => put_word(b"none", out),
        }
    }
}

impl<'a> fmt::Display for Help<'a> {
    fn fmt<W: fmt::Write>(&self, f: &mut fmt::Formatter<W>) -> fmt::Result {
        match self.0 {
            Some(text) => write!(f, "some {}", Escaped(text)),
            None => f.write_str("none"),
        }
    }
}

/// Takes the word to the user at the front, or that there is none, or loses the place.
fn read_help(alloc: Global, line: &mut Words) -> Result<Option<Option<Text>>, Memory>
    ensures { IfOk result (λ x. Reads line.new x (help.read line.old)) }
{
    read_rows!(alloc, line;
        b"none" => None,
        b"some" (text) => Some(text),
    )
}

/// Takes the error at the front that is elevated, and the word to the user, or loses the place.
#[tactic(auto, unfolding(wx_words::specs::Parts::both))]
fn read_elevated(alloc: Global, line: &mut Words) -> Result<Option<CriticalError>, Memory>
    ensures { IfOk result (λ x. Reads line.new x (read_as make_elevated elevated.read line.old)) }
{
    let Some(err) = RuntimeError::read(alloc, line)? else {
        return Ok(None);
    };
    match with_help(alloc, line, err)? {
        Some((err, help)) => Ok(Some(CriticalError::Elevated { err, help })),
        None => Ok(None),
    }
}

/// Takes the word to the user behind this error, or loses the place. It may be of any type: a drop of a long enum by
/// name is slow to prove.
fn with_help<E: Drop>(
    alloc: Global,
    line: &mut Words,
    err: E,
) -> Result<Option<(E, Option<Text>)>, Memory>
    ensures { IfOk result (λ x. Reads line.new x (read_as (λ h. (err, h)) help.read line.old)) }
{
    match read_help(alloc, line)? {
        Some(help) => Ok(Some((err, help))),
        None => Ok(None),
    }
}

#[tactic(auto, using(wx_words::specs::LineLaws::behinds), unfolding(crate::specs::Critical::critical, wx_words::specs::Parts::both))]
impl Spelled for CriticalError {
    ghost use Rattle.wx_error.specs.Critical.{critical};

    ghost spelling = { critical };

    fn put_after(&self, out: &mut Text) -> Result<(), Memory> {
        match self {
            CriticalError::Exit => put_word(b"exit", out),
            CriticalError::External(text) => put_row(b"external", &text, out),
            CriticalError::Elevated { err, help } => put_row(b"elevated", &(err, Help(help)), out),
            CriticalError::IoError { about, err } => put_row(b"io", &(about, err), out),
            CriticalError::EventChannelSend { event, priority } => {
                put_row(b"send", &(priority, event), out)
            }
            CriticalError::FsWatcherInit { kind, err } => put_row(b"init", &(kind, err), out),
            CriticalError::Memory => put_word(b"memory", out),
        }
    }

    fn read(alloc: Global, line: &mut Words) -> Result<Option<CriticalError>, Memory> {
        read_rows!(alloc, line;
            b"exit" => CriticalError::Exit,
            b"external" (text) => CriticalError::External(text),
            b"elevated" (error = read_elevated) => error,
            b"io" (about, err) => CriticalError::IoError { about, err },
            b"send" (priority, event) => CriticalError::EventChannelSend { event, priority },
            b"init" (kind, err) => CriticalError::FsWatcherInit { kind, err },
            b"memory" => CriticalError::Memory,
        )
    }
}
