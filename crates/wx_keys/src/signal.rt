// Signals as events.
ghost use Rattle.std.specs.Prelude.{◌≡◌, [], ◌∷◌, IfOk};
ghost use Rattle.wx_keys.specs.Keys.{signal_source, signal_priority, signal_event, hears_signal};

use std::alloc::Global;
use wx_events::{Event, Priority, Signal, Source, Tag};
use wx_text::{List, Memory};

/// The event that has these two tags.
pub fn event_of(alloc: Global, first: Tag, second: Tag) -> Result<Event, Memory>
    ensures { IfOk result (λ event. event.tags ≡ first ∷ second ∷ []) }
{
    let mut tags = List::new(alloc);
    tags.push(first)?;
    tags.push(second)?;
    Ok(Event { tags })
}

/// Where a signal comes from.
fn source_of(signal: Signal) -> Source
    ensures { result ≡ signal_source signal }
{
    match signal {
        Signal::Interrupt => Source::Keyboard,
        _ => Source::Os,
    }
}

/// How pressing a signal is.
fn priority_of(signal: Signal) -> Priority
    ensures { result ≡ signal_priority signal }
{
    match signal {
        Signal::Interrupt | Signal::Terminate => Priority::Urgent,
        _ => Priority::High,
    }
}

/// The event of a signal to this program, and its priority. Its tags are where it came from, which is the keyboard for
/// an interrupt and else the system, and the signal. Interrupt and Terminate are urgent, all others high. It fails only
/// for want of memory.
pub fn signal_event(alloc: Global, signal: Signal) -> Result<(Event, Priority), Memory>
    ensures { IfOk result (λ event. event ≡ signal_event signal) }
{
    let source = Tag::Source(source_of(signal));
    let event = event_of(alloc, source, Tag::Signal(signal))?;
    Ok((event, priority_of(signal)))
}

/// Whether a signal to this program is heard. ForceStop and Custom never are, TerminalSuspend and Continue only where job
/// control is on, and all others always.
pub fn hears_signal(signal: Signal, job_control: bool) -> bool
    ensures { result ≡ hears_signal job_control signal }
{
    match signal {
        Signal::ForceStop | Signal::Custom(_) => false,
        Signal::TerminalSuspend | Signal::Continue => job_control,
        _ => true,
    }
}
