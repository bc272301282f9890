// A script from its bytes to the journal of its run.
ghost use Rattle.std.specs.Prelude.{◌≡◌, ◌≢◌, ◌++◌, ◌∷◌, [], IfOk, codes, decimal};
ghost use Rattle.wx_script.specs.Follows.{IsScript};
ghost use Rattle.wx_replay.specs.Replays.{status_of, IsShown, IsReplay, ReplaysRead, ReplaysKnown, HasRead};
ghost use Rattle.wx_replay.specs.Writes.{IsWritten, Writes};

use crate::running::{Ran, run_script};
use crate::status::Status;
use crate::writing::write_out;
use std::alloc::Global;
use wx_bytes::{LIMIT, Sink, Source, Unread, read_all};
use wx_error::CriticalError;
use wx_print::print_journal;
use wx_script::{Script, read_script};
use wx_text::{Memory, Text};

/// The status of a run that answered this. It fails where memory was wanted.
fn status_of(answer: &Result<(), CriticalError>) -> Result<Status, Memory>
    ensures status { IfOk result (λ status. status ≡ status_of answer.now) }
    ensures written { IfOk result (λ status. IsWritten status) }
{
    match answer {
        Ok(()) => Ok(Status::Done),
        Err(CriticalError::Memory) => Err(Memory),
        Err(_) => Ok(Status::Critical),
    }
}

/// The text of the journal of a run with its end line, and the status of the run. It fails for want of memory, also where the run did.
pub fn shown(alloc: Global, ran: &Ran) -> Result<(Text, Status), Memory>
    ensures { IfOk result (λ r. IsShown ran.now.journal.past ran.now.answer r.0 r.1) }
{
    let status = status_of(&ran.answer)?;
    Ok((print_journal(alloc, &ran.journal, &ran.answer)?, status))
}

/// Runs a script. The text is the journal of the run with its end line.
fn play(alloc: Global, script: Script) -> Result<(Text, Status), Memory>
    requires { IsScript script }
    ensures text { IfOk result (λ r. IsReplay script r.0 r.1) }
    ensures status { IfOk result (λ r. IsWritten r.1) }
{
    let ran = run_script(alloc, script)?;
    let out = shown(alloc, &ran);
    drop(ran);
    out
}

/// The text about a bad line.
fn about_line(alloc: Global, number: u64) -> Result<Text, Memory>
    ensures { IfOk result (λ text. text ≡ codes "bad line " ++ decimal number ++ 10 ∷ []) }
{
    let mut out = Text::new(alloc);
    out.append(b"bad line ")?;
    out.append_number(number)?;
    out.push(10)?;
    Ok(out)
}

/// The text and the status that are due for these bytes.
fn reply(alloc: Global, bytes: &[u8]) -> Result<(Text, Status), Memory>
    ensures text { IfOk result (λ r. ReplaysRead bytes.now r.0 r.1) }
    ensures status { IfOk result (λ r. IsWritten r.1) }
{
    match read_script(alloc, bytes)? {
        Ok(script) => play(alloc, script),
        Err(bad) => Ok((about_line(alloc, bad.0)?, Status::NoScript)),
    }
}

/// Reads a script to its end, runs it, and writes the journal of the run.
pub fn replay<S: Source, K: Sink>(alloc: Global, source: &mut S, sink: &mut K) -> Status
    ensures usage { result ≢ Status.Usage }
    ensures read { HasRead LIMIT S.left S.faults source.old source.new result }
    ensures written { Writes (ReplaysKnown LIMIT (S.left source.old)) K.held K.faults sink.old sink.new result }
{
    let text = match read_all(alloc, source) {
        Ok(text) => text,
        Err(Unread::Fault) => return Status::ReadFault,
        Err(Unread::Memory) => return Status::Memory,
        Err(Unread::TooLong) => return write_out(sink, b"too long\n", Status::NoScript),
    };
    match reply(alloc, text.as_slice()) {
        Ok((out, status)) => write_out(sink, out.as_slice(), status),
        Err(_) => Status::Memory,
    }
}
