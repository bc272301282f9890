// Signals, and the ends of processes.
ghost use Rattle.std.specs.Prelude.{◌≡◌, ◌++◌, OnOk};
ghost use Rattle.wx_words.specs.Dotted.{dotted};
ghost use Rattle.wx_events.specs.Ends.{signal_word, signal_parts, end_parts};
ghost use Rattle.wx_events.specs.Natives.{native};

use crate::showing::show;
use std::alloc::Global;
use std::fmt;
use std::num::{NonZeroI32, NonZeroI64};
use wx_text::{Copies, Memory, Text};
use wx_words::{Dotted, Spelled, Words, read_dotted, read_rows};

/// A signal to a process.
#[derive(Clone, Copy, Debug, PartialEq, Eq)]
pub enum Signal {
    Hangup,
    ForceStop,
    Interrupt,
    Quit,
    Terminate,
    User1,
    User2,
    Continue,
    TerminalSuspend,
    /// A signal by its number.
    Custom(i32),
}

/// How a process ended.
#[derive(Clone, Copy, Debug, PartialEq, Eq)]
pub enum ProcessEnd {
    Success,
    /// It ended by itself, with this exit code.
    ExitError(NonZeroI64),
    /// It was ended by this signal.
    ExitSignal(Signal),
    /// It was stopped, by this number.
    ExitStop(NonZeroI32),
    /// It was ended by an exception of this number.
    Exception(NonZeroI32),
    /// It was continued.
    Continued,
}

impl Copies for Signal {
    fn copy(&self, _alloc: Global) -> Result<Signal, Memory> {
        Ok(*self)
    }
}

impl Copies for ProcessEnd {
    fn copy(&self, _alloc: Global) -> Result<ProcessEnd, Memory> {
        Ok(*self)
    }
}

impl Signal {
    /// The number of this signal on the system. One by its number has none where that is not from 1 to 31.
    pub fn native(&self) -> Option<i32>
        ensures { result ≡ native self.now }
    {
        match self {
            Signal::Hangup => Some(1),
            Signal::Interrupt => Some(2),
            Signal::Quit => Some(3),
            Signal::ForceStop => Some(9),
            Signal::User1 => Some(10),
            Signal::User2 => Some(12),
            Signal::Terminate => Some(15),
            Signal::Continue => Some(18),
            Signal::TerminalSuspend => Some(20),
            Signal::Custom(n) if 1 <= *n && *n <= 31 => Some(*n),
            Signal::Custom(_) => None,
        }
    }

    /// The first part of the word of this signal.
    fn word(self) -> &'static str
        ensures { result.now ≡ signal_word self }
    {
        match self {
            Signal::Hangup => "hangup",
            Signal::ForceStop => "forcestop",
            Signal::Interrupt => "interrupt",
            Signal::Quit => "quit",
            Signal::Terminate => "terminate",
            Signal::User1 => "user1",
            Signal::User2 => "user2",
            Signal::Continue => "continue",
            Signal::TerminalSuspend => "suspend",
            Signal::Custom(_) => "custom",
        }
    }
}

/// Appends the parts of a signal with a dot between them.
fn put_signal(signal: Signal, out: &mut Text) -> Result<(), Memory>
    ensures text { OnOk result (out.new ≡ out.old ++ dotted (signal_parts.words signal)) }
    ensures fits { OnOk result (signal_parts.fits signal) }
{
    match signal {
        Signal::Custom(n) => {
            out.append(b"custom.")?;
            out.append_signed(n as i64)
        }
        _ => out.append(signal.word().as_bytes()),
    }
}

impl fmt::Display for Signal {
    fn fmt<W: fmt::Write>(&self, f: &mut fmt::Formatter<W>) -> fmt::Result {
        match self {
            Signal::Custom(n) => show(f, "custom.", n),
            _ => f.write_str(self.word()),
        }
    }
}

impl fmt::Display for ProcessEnd {
    fn fmt<W: fmt::Write>(&self, f: &mut fmt::Formatter<W>) -> fmt::Result {
        match self {
            ProcessEnd::Success => f.write_str("success"),
            ProcessEnd::ExitError(n) => show(f, "error.", &n.get()),
            ProcessEnd::ExitSignal(signal) => show(f, "signal.", signal),
            ProcessEnd::ExitStop(n) => show(f, "stop.", &n.get()),
            ProcessEnd::Exception(n) => show(f, "exception.", &n.get()),
            ProcessEnd::Continued => f.write_str("continued"),
        }
    }
}

impl Dotted for Signal {
    ghost read_parts = { signal_parts.read };

    fn read_parts(alloc: Global, parts: &mut Words) -> Result<Option<Signal>, Memory> {
        read_rows!(alloc, parts;
            b"hangup" => Signal::Hangup,
            b"forcestop" => Signal::ForceStop,
            b"interrupt" => Signal::Interrupt,
            b"quit" => Signal::Quit,
            b"terminate" => Signal::Terminate,
            b"user1" => Signal::User1,
            b"user2" => Signal::User2,
            b"continue" => Signal::Continue,
            b"suspend" => Signal::TerminalSuspend,
            b"custom" (n) => Signal::Custom(n),
        )
    }
}

#[tactic(auto, unfolding(crate::specs::Ends::signal, wx_words::specs::Line::behind))]
impl Spelled for Signal {
    ghost use Rattle.wx_events.specs.Ends.{signal};

    ghost spelling = { signal };

    fn put_after(&self, out: &mut Text) -> Result<(), Memory> {
        out.push(32)?;
        put_signal(*self, out)
    }

    fn read(alloc: Global, line: &mut Words) -> Result<Option<Signal>, Memory> {
        read_dotted(alloc, line)
    }
}

impl Dotted for ProcessEnd {
    ghost read_parts = { end_parts.read };

    fn read_parts(alloc: Global, parts: &mut Words) -> Result<Option<ProcessEnd>, Memory> {
        read_rows!(alloc, parts;
            b"success" => ProcessEnd::Success,
            b"error" (n) => ProcessEnd::ExitError(n),
            b"signal" (signal = Signal::read_parts) => ProcessEnd::ExitSignal(signal),
            b"stop" (n) => ProcessEnd::ExitStop(n),
            b"exception" (n) => ProcessEnd::Exception(n),
            b"continued" => ProcessEnd::Continued,
        )
    }
}

#[tactic(auto, unfolding(crate::specs::Ends::end, wx_words::specs::Line::behind))]
impl Spelled for ProcessEnd {
    ghost use Rattle.wx_events.specs.Ends.{end};

    ghost spelling = { end };

    fn put_after(&self, out: &mut Text) -> Result<(), Memory> {
        match self {
            ProcessEnd::Success => out.append(b" success"),
            ProcessEnd::ExitError(n) => {
                out.append(b" error.")?;
                out.append_signed(n.get())
            }
            ProcessEnd::ExitSignal(signal) => {
                out.append(b" signal.")?;
                put_signal(*signal, out)
            }
            ProcessEnd::ExitStop(n) => {
                out.append(b" stop.")?;
                out.append_signed(n.get() as i64)
            }
            ProcessEnd::Exception(n) => {
                out.append(b" exception.")?;
                out.append_signed(n.get() as i64)
            }
            ProcessEnd::Continued => out.append(b" continued"),
        }
    }

    fn read(alloc: Global, line: &mut Words) -> Result<Option<ProcessEnd>, Memory> {
        read_dotted(alloc, line)
    }
}
