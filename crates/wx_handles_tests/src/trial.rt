// What the tests share.
ghost use Rattle.std.specs.Prelude.{◌≡◌, ◌≤◌, ◌∷◌, [], IfOk};

use std::alloc::Global;
use std::sync::Wait;
use wx_command::{Command, Program, SharedCommand, SpawnOptions, Spawnable};
use wx_control::{Flag, Id, Job, Mirror, Refused};
use wx_handles::{Given, HandlePass, ThreadWorld};
use wx_hooks::{Turned, World};
use wx_job::{Host, Outside};
use wx_journal::{Journal, SpawnTag, put_lines};
use wx_mem_live::{EndingLive, MemLive};
use wx_text::{List, Memory, Text};

/// A command without arguments.
fn command(alloc: Global) -> Result<Command, Memory> {
    Ok(Command {
        program: Program::Exec {
            prog: Text::from_slice(alloc, b"a")?,
            args: List::new(alloc),
        },
        options: SpawnOptions::default(),
    })
}

/// What the command spawns.
fn spawnable(alloc: Global) -> Result<Spawnable, Memory> {
    command(alloc)?.to_spawnable(alloc)
}

/// A handle on the job of this name.
pub(crate) fn job_of(alloc: Global, id: Id) -> Result<Job, Memory> {
    let shared = SharedCommand::new(alloc, command(alloc)?)?;
    let gone = Flag::new(alloc, false)?;
    let running = Mirror::new(alloc)?;
    Ok(Job::new(id, shared, gone, running))
}

/// A world over an outside in memory, and its first handle. It gives so many turns, with so many jobs in its round and room for so many
/// items.
pub(crate) fn in_memory<R: Wait + Copy>(
    rt: R,
    alloc: Global,
    turns: u64,
    jobs: u32,
    size: u32,
) -> Result<(ThreadWorld<R, MemLive>, HandlePass<R>), Memory>
    requires size { (1 ≤ size) × (size ≤ 65536) }
    ensures own { IfOk result (λ made. made.1.pass.queue ≡ (⟦<ThreadWorld<R, MemLive> as Outside>⟧.seen made.0).plan.queue) }
{
    let live = MemLive::new(alloc)?;
    ThreadWorld::<R, MemLive>::new(rt, alloc, live, turns, jobs, size)
}

/// A world whose children end by themselves, and its first handle. It waits for nothing.
pub(crate) fn with_ends<R: Wait + Copy>(
    rt: R,
    alloc: Global,
    turns: u64,
    size: u32,
) -> Result<(ThreadWorld<R, EndingLive>, HandlePass<R>), Memory>
    requires size { (1 ≤ size) × (size ≤ 65536) }
    ensures own { IfOk result (λ made. made.1.pass.queue ≡ (⟦<ThreadWorld<R, EndingLive> as Outside>⟧.seen made.0).plan.queue) }
{
    let live = EndingLive::new(alloc, List::new(alloc))?;
    ThreadWorld::<R, EndingLive>::new(rt, alloc, live, turns, 1, size)
}

/// The next turn, in room that is taken for it, where it is one.
pub(crate) fn next_turn<W: World>(world: &mut W) -> Option<Turned>
    ensures { (W.seen world.new).plan ≡ (W.seen world.old).plan }
{
    if world.reserve(1).is_err() {
        return None;
    }
    world.turn().ok()
}

/// Takes so many turns. False where one failed.
pub(crate) fn take_turns<W: World>(world: &mut W, turns: u32) -> bool
    ensures { (W.seen world.new).plan ≡ (W.seen world.old).plan }
{
    for _ in 0..turns {
        if next_turn(world).is_none() {
            return false;
        }
    }
    true
}

/// Spawns a child of this name, in room that is taken for it. False where that failed.
pub(crate) fn spawn<W: World>(alloc: Global, world: &mut W, child: u64) -> bool
    ensures { (W.seen world.new).plan ≡ (W.seen world.old).plan }
{
    let Ok(what) = spawnable(alloc) else {
        return false;
    };
    if world.reserve(1).is_err() {
        drop(what);
        return false;
    }
    world.spawn(child, Id(0), what, SpawnTag::Default).is_ok()
}

/// Asks for a start, and lets the ticket go.
pub(crate) fn start<R: Wait + Copy>(
    alloc: Global,
    job: &Job,
    pass: &mut HandlePass<R>,
) -> Result<(), Refused>
    ensures kept { pass.new.pass.queue ≡ pass.old.pass.queue }
{
    match job.start(alloc, pass) {
        Ok(_) => Ok(()),
        Err(refused) => Err(refused),
    }
}

/// A list of one handle.
pub(crate) fn one<R: Wait + Copy>(
    alloc: Global,
    pass: HandlePass<R>,
) -> Result<List<HandlePass<R>>, Memory>
    ensures { IfOk result (λ passes. passes ≡ pass ∷ []) }
{
    let mut passes = List::new(alloc);
    passes.push(pass)?;
    Ok(passes)
}

/// A list of two handles.
fn two<R: Wait + Copy>(
    alloc: Global,
    first: HandlePass<R>,
    second: HandlePass<R>,
) -> Result<List<HandlePass<R>>, Memory>
    ensures { IfOk result (λ passes. passes ≡ first ∷ second ∷ []) }
{
    let mut passes = List::new(alloc);
    passes.push(first)?;
    passes.push(second)?;
    Ok(passes)
}

/// What was given and is left in a world of one handle.
pub(crate) fn finish_one<R: Wait + Copy>(
    alloc: Global,
    world: ThreadWorld<R, MemLive>,
    pass: HandlePass<R>,
) -> Option<Given>
    requires own { pass.pass.queue ≡ (⟦<ThreadWorld<R, MemLive> as Outside>⟧.seen world).plan.queue }
{
    let passes = one(alloc, pass).ok()?;
    world.finish(passes).ok()
}

/// What was given and is left in a world of two handles.
pub(crate) fn finish_two<R: Wait + Copy>(
    alloc: Global,
    world: ThreadWorld<R, MemLive>,
    first: HandlePass<R>,
    second: HandlePass<R>,
) -> Option<Given>
    requires first { first.pass.queue ≡ (⟦<ThreadWorld<R, MemLive> as Outside>⟧.seen world).plan.queue }
    requires second { second.pass.queue ≡ (⟦<ThreadWorld<R, MemLive> as Outside>⟧.seen world).plan.queue }
{
    let passes = two(alloc, first, second).ok()?;
    world.finish(passes).ok()
}

/// The lines of a journal.
pub(crate) fn lines_of(alloc: Global, journal: &Journal) -> Result<Text, Memory> {
    let mut text = Text::new(alloc);
    put_lines(journal.as_slice(), &mut text)?;
    Ok(text)
}
