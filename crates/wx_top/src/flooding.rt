// What is done for a flood.
ghost use Rattle.std.specs.Prelude.{◌≡◌, ◌≢◌, ◌≤◌, Ok, IfOk};
ghost use Rattle.wx_engine.specs.Completes.{IsOkOrMemory};
ghost use Rattle.wx_flood.specs.Summaries.{summary};
ghost use Rattle.wx_top.specs.Floods.{IsFlood};
ghost use Rattle.wx_replay.specs.Writes.{Writes};
ghost use Rattle.wx_replay.specs.declared.status.Status.TheVariants.{Done};

use std::alloc::Global;
use wx_bytes::Sink;
use wx_error::CriticalError;
use wx_flood::{flood_script, summary_of};
use wx_replay::{Ran, Status, run_script, write_out};
use wx_text::{Memory, Text};

/// The summary of what a run left that could want nothing but memory.
fn summary_of_run(alloc: Global, ran: &Ran) -> Result<Text, Memory>
    requires { IsOkOrMemory ran.now.answer }
    ensures { IfOk result (λ text. (ran.now.answer ≡ Ok tt) × (text ≡ summary ran.now.journal.past)) }
{
    match &ran.answer {
        Ok(()) => summary_of(alloc, &ran.journal),
        Err(CriticalError::Memory) => Err(Memory),
        Err(_) => unreachable!(),
    }
}

/// The summary of a run of the script that is drawn. It fails only for want of memory.
fn summary(alloc: Global, steps: u64, seed: u64) -> Result<Text, Memory>
    requires { steps ≤ 100000 }
    ensures { IfOk result (λ text. IsFlood steps seed text Done) }
{
    let script = flood_script(alloc, steps, seed)?;
    let ran = run_script(alloc, script)?;
    let text = summary_of_run(alloc, &ran);
    drop(ran);
    text
}

/// Runs the script of so many steps that are drawn from this seed on, and writes the summary of its run.
///
/// `Done` comes where all of it was written, `WriteFault` where a write failed, which leaves a front part of the summary, and `Memory` where
/// there was none, and then nothing was written. No other status comes.
pub(crate) fn flood<K: Sink>(alloc: Global, steps: u64, seed: u64, sink: &mut K) -> Status
    requires { steps ≤ 100000 }
    ensures usage { result ≢ Status.Usage }
    ensures unread { result ≢ Status.ReadFault }
    ensures written { Writes (IsFlood steps seed) K.held K.faults sink.old sink.new result }
{
    match summary(alloc, steps, seed) {
        Ok(text) => write_out(sink, text.as_slice(), Status::Done),
        Err(_) => Status::Memory,
    }
}
