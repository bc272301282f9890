// What a filter answers: as a script says, and where it says nothing more as its patterns do.
ghost use Rattle.std.specs.Prelude.{◌≡◌, false, true, not, get_or, Ok, IfOk, MatchResult};
ghost use Rattle.wx_patterns.specs.Ignoring.{ignored, passes};
ghost use Rattle.wx_script.specs.Follows.{ignores_of};
ghost use Rattle.wx_follow.specs.Filtering.{ignores_by};

use std::alloc::Global;
use wx_config::Filterer;
use wx_error::RuntimeError;
use wx_events::{Event, Priority};
use wx_patterns::Patterns;
use wx_script::Script;
use wx_text::{List, Memory, copy_twice};
use wx_words::TextPath;

/// What a filter answers.
pub(crate) type Verdict = Result<bool, RuntimeError>;

/// The patterns of a script, below its folder. It fails only for want of memory.
pub(crate) fn patterns_of(alloc: Global, script: &Script) -> Result<Patterns, Memory>
    ensures { IfOk result (λ patterns. ignores_by patterns ≡ ignores_of script.now) }
{
    let mut patterns = Patterns::new(alloc, script.folder_or_top(alloc)?)?;
    match patterns.add_all(script.ignores.as_slice()) {
        Ok(()) => Ok(patterns),
        Err(memory) => {
            drop(patterns);
            Err(memory)
        }
    }
}

/// The answer of a filter twice, to be given and to be told, or that there was no memory, and that this was so.
fn answer_and_told(alloc: Global, answer: &Verdict) -> (Verdict, Verdict, bool)
    ensures told { result.1 ≡ result.0 }
    ensures answer { result.2 ≡ false → result.0 ≡ answer.now }
{
    match copy_twice(alloc, answer) {
        Ok((given, told)) => (given, told, false),
        Err(_) => (Err(RuntimeError::Memory), Err(RuntimeError::Memory), true),
    }
}

/// What patterns answered, twice, and whether there was no memory for it, which is their only error.
fn answered_and_told(answer: Verdict) -> (Verdict, Verdict, bool)
    ensures told { result.1 ≡ result.0 }
    ensures answer { MatchResult answer (λ passes. result.0 ≡ Ok passes) (λ error. result.2 ≡ true) }
{
    match answer {
        Ok(passes) => (Ok(passes), Ok(passes), false),
        Err(error) => {
            drop(error);
            (Err(RuntimeError::Memory), Err(RuntimeError::Memory), true)
        }
    }
}

/// The answer of the next of these lines about an event, and that of the patterns where none is left; twice, as `answer_and_told`.
pub(crate) fn verdict_on_event(
    alloc: Global,
    lines: &List<Verdict>,
    used: usize,
    patterns: &Patterns,
    event: &Event,
    priority: Priority,
) -> (Verdict, Verdict, bool)
    ensures told { result.1 ≡ result.0 }
    ensures answer { result.2 ≡ false → result.0 ≡ get_or lines.now used (Ok (passes patterns.now.base patterns.now.patterns event.now)) }
{
    if used < lines.len() {
        answer_and_told(alloc, &lines.as_slice()[used])
    } else {
        answered_and_told(patterns.check_event(event, priority))
    }
}

/// The answer of the next of these lines about a directory, and that of the patterns where none is left; twice, as `answer_and_told`.
pub(crate) fn verdict_on_dir(
    alloc: Global,
    lines: &List<Verdict>,
    used: usize,
    patterns: &Patterns,
    path: &TextPath,
) -> (Verdict, Verdict, bool)
    ensures told { result.1 ≡ result.0 }
    ensures answer { result.2 ≡ false → result.0 ≡ get_or lines.now used (Ok (not (ignored patterns.now.base patterns.now.patterns path.now))) }
{
    if used < lines.len() {
        answer_and_told(alloc, &lines.as_slice()[used])
    } else {
        answered_and_told(patterns.check_dir(path))
    }
}
