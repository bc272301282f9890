// What a filter answers, in words.
ghost use Rattle.std.specs.Prelude.{◌≡◌, ◌≤◌};
ghost use Rattle.wx_journal.specs.Told.{tell};
ghost use Rattle.wx_journal.specs.declared.entry.Entry.TheVariants.{Dir};

use std::alloc::Global;
use wx_error::RuntimeError;
use wx_events::{Event, Priority};
use wx_hooks::Hooks;
use wx_text::{List, Memory, Text};
use wx_words::{Spelled, TextPath};

/// Shows a directory to the filter of this number. The hooks tell just that.
fn check_and_tell<H: Hooks>(hooks: &mut H, n: u32, path: TextPath) -> Result<bool, RuntimeError>
    requires { 1 ≤ (H.seen hooks.old).spare }
    ensures { (H.seen hooks.new).told ≡ tell (Dir n path result) (H.seen hooks.old).told }
{
    hooks.check_dir(n, path)
}

/// Appends what a filter answered, in words.
fn put_verdict(answer: &Result<bool, RuntimeError>, words: &mut Text) -> Result<(), Memory> {
    match answer {
        Ok(true) => words.append(b"pass"),
        Ok(false) => words.append(b"reject"),
        Err(error) => {
            words.append(b"fail ")?;
            error.put(words)
        }
    }
}

/// What a filter answered, in words.
fn verdict(alloc: Global, answer: Result<bool, RuntimeError>) -> Result<Text, Memory> {
    let mut words = Text::new(alloc);
    let put = put_verdict(&answer, &mut words);
    drop(answer);
    put?;
    Ok(words)
}

/// What the filter of this number answers about this directory, in words.
pub fn dir_verdict<H: Hooks>(
    alloc: Global,
    hooks: &mut H,
    n: u32,
    path: &[u8],
) -> Result<Text, Memory> {
    let path = TextPath::new(Text::from_slice(alloc, path)?);
    hooks.reserve(1)?;
    verdict(alloc, check_and_tell(hooks, n, path))
}

/// What the filter answers about the event of this name, which has no tags, in words.
pub fn event_verdict<H: Hooks>(alloc: Global, hooks: &mut H, name: u64) -> Result<Text, Memory> {
    let event = Event {
        tags: List::new(alloc),
    };
    hooks.reserve(1)?;
    verdict(alloc, hooks.check_event(0, name, &event, Priority::Low))
}
