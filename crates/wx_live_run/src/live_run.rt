// The run of the program, and what is written of it.
ghost use Rattle.std.specs.Prelude.{◌≡◌, ◌≢◌, ◌++◌, ◌≤◌, [], true, List as Listed, Ok, IfOk, vec_capacity};
ghost use Rattle.wx_queue.specs.declared.parcel.Sent.{Sent};
ghost use Rattle.wx_pass.specs.declared.item.Item.{Item as AnItem};
ghost use Rattle.wx_live_run.specs.LiveRuns.{IsLive, IsLiveRun};
ghost use Rattle.wx_reader.specs.Reads.{is_end};
ghost use Rattle.wx_replay.specs.Writes.{Writes};

use crate::sides::both_sides;
use std::alloc::Global;
use std::sync::Wait;
use std::thread::Threads;
use wx_bytes::{Sink, Source};
use wx_command::Command;
use wx_error::CriticalError;
use wx_handles::{HandlePass, Items, Lent, Live, Parts, ThreadWorld};
use wx_job::Outside;
use wx_journal::Journal;
use wx_live::is_back;
use wx_replay::{Ran, Status, shown, write_out};
use wx_text::{List, Memory, Text};

/// How many items the queue of the handles holds.
const SIZE: u32 = 1024;

/// How many jobs are in the round.
const JOBS: u32 = 1;

/// Takes the one handle in, in room that was taken for it. What the queue gave is a front of what the handle sent.
fn take_in<R: Wait + Copy>(items: Items<R>, pass: HandlePass<R>, room: Vec<HandlePass<R>>)
    requires one { (items.made ≡ 1) × (pass.pass.number ≡ 0) × (pass.pass.queue ≡ items.queue) }
    requires room { (room.items ≡ []) × (1 ≤ vec_capacity room) }
    ensures { (left : Listed (Sent AnItem)) × (pass.pass.sent ≡ items.given ++ left) }
{
    let mut passes = room;
    passes.push_reserved(pass);
    match items.finish(List::from_vec(passes)) {
        Ok(given) => drop(given),
        Err(_) => unreachable!(),
    }
}

/// What the run left, where no side failed.
fn unless_failed(
    read: Result<(), Memory>,
    ran: Result<Result<(), CriticalError>, Memory>,
    journal: Journal,
) -> Result<Ran, Memory>
    ensures { IfOk result (λ left. (is_end read ≡ true) × (ran ≡ Ok left.answer) × (left.journal ≡ journal)) }
{
    if read.is_err() {
        return Err(Memory);
    }
    match ran {
        Ok(answer) => Ok(Ran { journal, answer }),
        Err(Memory) => Err(Memory),
    }
}

/// Runs the command at each change of the folder of this outside, and gives that back with what the run left. It fails only for want of
/// memory.
fn run_world<R: Threads + Wait + Copy + Send + Sync, S: Source + Send, L: Live + Drop>(
    rt: &R,
    alloc: Global,
    turns: u64,
    ignores: &[Text],
    command: &Command,
    source: &mut S,
    mut outside: L,
) -> Result<(L, Result<Ran, Memory>), Memory>
    ensures place { IfOk result (λ back. (L.seen back.0).place ≡ (L.seen outside).place) }
    ensures ran { IfOk result (λ back. IfOk back.1 (λ ran. IsLiveRun turns ignores.now command.now S.left S.faults source.old source.new (L.seen outside).shown.told (L.seen back.0).shown.told (L.drawn outside) (L.drawn back.0) ran.journal.past ran.answer)) }
{
    let folder = outside.folder()?;
    let mut journal = Journal::new(alloc)?;
    let room = Vec::with_capacity(alloc, 1)?;
    let (mut world, mut pass) = ThreadWorld::new(*rt, alloc, outside, turns, JOBS, SIZE)?;
    let (read, ran) = both_sides(
        rt,
        alloc,
        source,
        &mut pass,
        &folder,
        ignores,
        command,
        &mut world,
        &mut journal,
    );
    let Parts { live, items } = world.into_parts();
    take_in(items, pass, room);
    Ok((live, unless_failed(read, ran, journal)))
}

/// Runs the command at each change of the folder, and tells what the run left. It fails only for want of memory.
fn run_live<R: Threads + Wait + Copy + Send + Sync, S: Source + Send, L: Live>(
    rt: &R,
    alloc: Global,
    turns: u64,
    ignores: &[Text],
    command: &Command,
    source: &mut S,
    live: &mut L,
) -> Result<Ran, Memory>
    ensures { IfOk result (λ ran. IsLiveRun turns ignores.now command.now S.left S.faults source.old source.new (L.seen live.old).shown.told (L.seen live.new).shown.told (L.drawn live.old) (L.drawn live.new) ran.journal.past ran.answer) }
{
    let (back, ran) = run_world(rt, alloc, turns, ignores, command, source, Lent::new(live))?;
    is_back(back.into_live());
    ran
}

/// The text of the journal of a run, and its status. It fails only for want of memory.
fn reply<R: Threads + Wait + Copy + Send + Sync, S: Source + Send, L: Live>(
    rt: &R,
    alloc: Global,
    turns: u64,
    ignores: &[Text],
    command: &Command,
    source: &mut S,
    live: &mut L,
) -> Result<(Text, Status), Memory>
    ensures { IfOk result (λ r. IsLive turns ignores.now command.now S.left S.faults source.old source.new (L.seen live.old).shown.told (L.seen live.new).shown.told (L.drawn live.old) (L.drawn live.new) r.0 r.1) }
{
    let ran = run_live(rt, alloc, turns, ignores, command, source, live)?;
    let out = shown(alloc, &ran);
    drop(ran);
    out
}

/// Watches the folder of a live outside, runs a command there and again at each change, and writes the journal of the run when it has
/// ended. Paths below the folder are ignored by those of the lines `ignores` that are patterns, as `Patterns` does. The keys are the
/// bytes of the source, which a second thread reads; the run goes on for so many turns, or until a `q` ends it, and this call until
/// the reader has stopped too.
///
/// `Done` comes where all of it was written, `Critical` where that is of a run that ended with an error, `WriteFault` where a write failed,
/// which leaves a front part of the text, and `Memory` where there was none, and then nothing was written. No other status comes.
pub fn live<R: Threads + Wait + Copy + Send + Sync, S: Source + Send, K: Sink, L: Live>(
    rt: &R,
    alloc: Global,
    turns: u64,
    ignores: &[Text],
    command: &Command,
    source: &mut S,
    sink: &mut K,
    live: &mut L,
) -> Status
    ensures usage { result ≢ Status.Usage }
    ensures unread { result ≢ Status.ReadFault }
    ensures written { Writes (IsLive turns ignores.now command.now S.left S.faults source.old source.new (L.seen live.old).shown.told (L.seen live.new).shown.told (L.drawn live.old) (L.drawn live.new)) K.held K.faults sink.old sink.new result }
{
    match reply(rt, alloc, turns, ignores, command, source, live) {
        Ok((text, status)) => write_out(sink, text.as_slice(), status),
        Err(Memory) => Status::Memory,
    }
}
