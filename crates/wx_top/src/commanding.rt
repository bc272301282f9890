// What is done for a command.
ghost use Rattle.std.specs.Prelude.{◌≡◌, ◌≢◌, ◌≤◌, IfOk, length};
ghost use Rattle.wx_live_run.specs.LiveRuns.{IsLive};
ghost use Rattle.wx_replay.specs.Writes.{Writes};
ghost use Rattle.wx_top.specs.Requests.{ignores_in};
ghost use Rattle.wx_top.specs.Serves.{command_of};

use std::alloc::Global;
use std::sync::Wait;
use std::thread::Threads;
use wx_bytes::{Sink, Source};
use wx_command::{Command, Program, SpawnOptions};
use wx_live::Live;
use wx_live_run::live;
use wx_replay::Status;
use wx_text::{Copies, List, Memory, Text};

/// These words, copied. It fails only for want of memory.
fn copies_of(alloc: Global, words: &[Text]) -> Result<List<Text>, Memory>
    ensures { IfOk result (λ copied. copied ≡ words.now) }
{
    let mut copied = List::new(alloc);
    for word in words {
        copied.push(word.copy(alloc)?)?;
    }
    Ok(copied)
}

/// The lines that these words, up to the dashes, say are ignored. It fails only for want of memory.
fn ignores_in(alloc: Global, words: &[Text]) -> Result<List<Text>, Memory>
    ensures { IfOk result (λ lines. lines ≡ ignores_in words.now) }
{
    let mut lines = List::new(alloc);
    let mut rest = words;
    while let [word, next, behind @ ..] = rest {
        if word.as_slice() != b"--ignore".as_slice() {
            return Ok(lines);
        }
        lines.push(next.copy(alloc)?)?;
        rest = behind;
    }
    Ok(lines)
}

/// The command of these words. It fails only for want of memory.
fn command_of(alloc: Global, words: &[Text]) -> Result<Command, Memory>
    requires { 1 ≤ length words.now }
    ensures { IfOk result (λ command. command ≡ command_of words.now) }
{
    let prog = words[0].copy(alloc)?;
    let args = copies_of(alloc, &words[1..])?;
    Ok(Command {
        program: Program::Exec { prog, args },
        options: SpawnOptions {
            grouped: false,
            session: false,
            reset_sigmask: false,
            grant_foreground: false,
        },
    })
}

/// What the words of a live run say.
struct Said {
    ignores: List<Text>,
    command: Command,
}

/// What these words say is ignored, and the command of those. It fails only for want of memory.
fn words_of(alloc: Global, ignoring: &[Text], words: &[Text]) -> Result<Said, Memory>
    requires { 1 ≤ length words.now }
    ensures ignores { IfOk result (λ said. said.ignores ≡ ignores_in ignoring.now) }
    ensures command { IfOk result (λ said. said.command ≡ command_of words.now) }
{
    let ignores = ignores_in(alloc, ignoring)?;
    let command = command_of(alloc, words)?;
    Ok(Said { ignores, command })
}

/// Runs the command of these words for so many turns, while what other words say is ignored, and writes the journal of the run.
///
/// `Done` comes where all of it was written, `Critical` where that is of a run that ended with an error, `WriteFault` where a write failed,
/// which leaves a front part of the text, and `Memory` where there was none, and then nothing was written. No other status comes.
pub(crate) fn command<R: Threads + Wait + Copy + Send + Sync, S: Source + Send, K: Sink, L: Live>(
    rt: &R,
    alloc: Global,
    turns: u64,
    ignoring: &[Text],
    words: &[Text],
    source: &mut S,
    sink: &mut K,
    outside: &mut L,
) -> Status
    requires { 1 ≤ length words.now }
    ensures usage { result ≢ Status.Usage }
    ensures unread { result ≢ Status.ReadFault }
    ensures written { Writes (IsLive turns (ignores_in ignoring.now) (command_of words.now) S.left S.faults source.old source.new (L.seen outside.old).shown.told (L.seen outside.new).shown.told (L.drawn outside.old) (L.drawn outside.new)) K.held K.faults sink.old sink.new result }
{
    match words_of(alloc, ignoring, words) {
        Ok(Said { ignores, command }) => {
            let lines = ignores.as_slice();
            let status = live(rt, alloc, turns, lines, &command, source, sink, outside);
            drop(command);
            drop(ignores);
            status
        }
        Err(Memory) => Status::Memory,
    }
}
