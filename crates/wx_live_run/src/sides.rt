// The two sides that run beside each other.
ghost use Rattle.std.specs.Prelude.{◌≡◌, [], false, true, IfOk};
ghost use Rattle.wx_machine.specs.Start.{is_absolute};
ghost use Rattle.wx_paths.specs.Paths.{components};
ghost use Rattle.wx_patterns.specs.Lines.{patterns_of};
ghost use Rattle.wx_live_run.specs.Sides.{IsRunSide};
ghost use Rattle.wx_reader.specs.Reads.{HasRead, is_end};

use crate::starting::engine_of;
use std::alloc::Global;
use std::sync::Wait;
use std::thread::{Threads, join_mut};
use wx_bytes::Source;
use wx_command::Command;
use wx_error::CriticalError;
use wx_hooks::World;
use wx_job::Outside;
use wx_journal::Journal;
use wx_live_action::LiveAction;
use wx_pass::HandlePass;
use wx_patterns::Patterns;
use wx_plain::PlainHooks;
use wx_reader::read_keys;
use wx_text::{Copies, Memory, Text};
use wx_words::TextPath;

/// What a run answered whose hooks weren't short.
fn unless_short(
    short: bool,
    answer: Result<(), CriticalError>,
) -> Result<Result<(), CriticalError>, Memory>
    ensures { IfOk result (λ answered. (short ≡ false) × (answered ≡ answer)) }
{
    if short {
        return Err(Memory);
    }
    Ok(answer)
}

/// The patterns of these lines, below this folder. It fails only for want of memory.
fn patterns_of(alloc: Global, folder: &TextPath, ignores: &[Text]) -> Result<Patterns, Memory>
    ensures base { IfOk result (λ patterns. patterns.base ≡ components folder.now) }
    ensures patterns { IfOk result (λ patterns. patterns.patterns ≡ patterns_of ignores.now) }
{
    let mut patterns = Patterns::new(alloc, folder.copy(alloc)?)?;
    match patterns.add_all(ignores) {
        Ok(()) => Ok(patterns),
        Err(memory) => {
            drop(patterns);
            Err(memory)
        }
    }
}

/// Runs the command over the turns of this world. It fails only for want of memory of the engine and its hooks: what the run answered is
/// told.
fn run_side<W: World>(
    alloc: Global,
    folder: &TextPath,
    ignores: &[Text],
    command: &Command,
    world: &mut W,
    journal: &mut Journal,
) -> Result<Result<(), CriticalError>, Memory>
    requires absolute { is_absolute folder.now ≡ true }
    requires empty { journal.old.past ≡ [] }
    ensures plan { (W.seen world.new).plan ≡ (W.seen world.old).plan }
    ensures place { (W.seen world.new).place ≡ (W.seen world.old).place }
    ensures ran { IfOk result (λ answer. IsRunSide folder.now ignores.now command.now (W.seen world.old) (W.seen world.new) journal.new.past answer) }
{
    let patterns = patterns_of(alloc, folder, ignores)?;
    let engine = engine_of(alloc, folder)?;
    let chooser = LiveAction::new(alloc, command.copy(alloc)?);
    let mut hooks = PlainHooks::new(chooser, patterns);
    let answer = engine.main(alloc, world, &mut hooks, journal);
    let short = hooks.short();
    drop(hooks);
    unless_short(short, answer)
}

/// Both sides, of which the first, in another thread, reads the keyboard. The answers are those of the sides.
pub(crate) fn both_sides<R: Threads + Wait + Copy + Send + Sync, S: Source + Send, W: World>(
    rt: &R,
    alloc: Global,
    source: &mut S,
    pass: &mut HandlePass<R>,
    folder: &TextPath,
    ignores: &[Text],
    command: &Command,
    world: &mut W,
    journal: &mut Journal,
) -> (
    Result<(), Memory>,
    Result<Result<(), CriticalError>, Memory>,
)
    requires absolute { is_absolute folder.now ≡ true }
    requires empty { journal.old.past ≡ [] }
    ensures read { HasRead S.left S.faults source.old source.new pass.old pass.new (is_end result.0) }
    ensures plan { (W.seen world.new).plan ≡ (W.seen world.old).plan }
    ensures place { (W.seen world.new).place ≡ (W.seen world.old).place }
    ensures ran { IfOk result.1 (λ answer. IsRunSide folder.now ignores.now command.now (W.seen world.old) (W.seen world.new) journal.new.past answer) }
{
    let waits = *rt;
    join_mut(
        rt,
        &mut || read_keys(waits, alloc, source, pass),
        &mut || run_side(alloc, folder, ignores, command, world, journal),
    )
}
