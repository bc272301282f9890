// How children ended.
ghost use Rattle.std.specs.Prelude.{◌≡◌, Some, true};
ghost use Rattle.wx_events.specs.Natives.{is_native, native};

use std::num::NonZeroI64;
use std::os::unix::process::ExitStatusExt;
use std::process::ExitStatus;
use wx_events::{ProcessEnd, Signal};

/// The signal of this number.
fn signal_of(number: i32) -> Signal
    ensures { is_native number ≡ true → native result ≡ Some number }
{
    match number {
        1 => Signal::Hangup,
        2 => Signal::Interrupt,
        3 => Signal::Quit,
        9 => Signal::ForceStop,
        10 => Signal::User1,
        12 => Signal::User2,
        15 => Signal::Terminate,
        18 => Signal::Continue,
        20 => Signal::TerminalSuspend,
        _ => Signal::Custom(number),
    }
}

/// How a child with this status ended.
pub fn end_of(status: ExitStatus) -> ProcessEnd {
    if let Some(number) = status.signal() {
        return ProcessEnd::ExitSignal(signal_of(number));
    }
    match NonZeroI64::new(i64::from(status.code().unwrap_or(0))) {
        Some(code) => ProcessEnd::ExitError(code),
        None => ProcessEnd::Success,
    }
}
