//! Runs a command at each change of the folder, or a script of events, and writes the journal of the run.
#![tactic(auto)]

ghost use Rattle.std.specs.Prelude.{◌≡◌, true, IfOk, IfSome};
ghost use Rattle.wx_paths.specs.Paths.{is_absolute};

use log::{Log, warn};
use std::alloc::{AllocGlobal, Global};
use std::io::ErrorKind;
use std::process::{ExitCode, Processes};
use std::rt::{Clock, Env, Files};
use std::sync::Wait;
use std::thread::Threads;
use std::{env, io};
use wx_bytes::{Sink, Source, StdSink, StdSource};
use wx_live_parts::{LiveParts, current_folder};
use wx_refusal::{Front, KeepingSource, Reason, Refusal, refusal};
use wx_replay::Status;
use wx_scan::ScanError;
use wx_text::{Memory, Text};
use wx_top::{bad_pattern, wx_main};
use wx_words::TextPath;

/// The words of the command line, without the program's name. There are none where one of them is no text.
fn words<R: Env + AllocGlobal>(rt: &R) -> Result<Vec<Text>, Memory> {
    let mut words = Vec::new(rt.alloc());
    let args = match env::args(rt) {
        Ok(args) => args,
        Err(error) if error.kind() == ErrorKind::OutOfMemory => return Err(Memory),
        Err(_) => return Ok(words),
    };
    for arg in args.skip(1) {
        words.push(Text::from_slice(rt.alloc(), arg.as_bytes())?)?;
    }
    Ok(words)
}

/// Why what was read is no script. `None` where it is one, or where there was no memory to keep it or to say why.
fn why_refused<'a>(alloc: Global, status: Status, kept: Option<&'a [u8]>) -> Option<Refusal<'a>> {
    if status != Status::NoScript {
        return None;
    }
    refusal(alloc, kept?).ok()?
}

/// Says on standard error, in one line, why what was read is no script, or where that isn't known, where to look.
fn warn_of_script(rt: &impl Log, why: Option<Refusal<'_>>) {
    match why {
        Some(why) => warn!(rt; "status 3: standard input is no script: {why}"),
        None => {
            warn!(rt; "status 3: standard input is no script; standard output has its first bad line, or that it is too long")
        }
    }
}

/// Says on standard error, in one line, what is wrong with these words.
fn warn_of_usage(rt: &impl Log, words: &[Text]) {
    match bad_pattern(words) {
        Some(line) => {
            let (line, why) = (Front(line.as_slice()), Reason::Pattern);
            warn!(rt; "status 2: --ignore `{line}`: {why}")
        }
        None =>
            warn!(rt; "status 2: call it so: wx_run live [--turns N] [--ignore PATTERN].. -- PROG ARGS.., wx_run replay < SCRIPT, or wx_run flood N SEED; N is at most 4194304 turns or 100000 steps, and there are at most 64 patterns"),
    }
}

/// Names a status other than `Done` on standard error, in one line, and says where to look, or why words or a script are refused.
fn warn_of(rt: &impl Log, status: Status, words: &[Text], why: Option<Refusal<'_>>) {
    match status {
        Status::Done => {}
        Status::Critical => {
            warn!(rt; "status 1: the run ended with an error, which the end line on standard output tells")
        }
        Status::Usage => warn_of_usage(rt, words),
        Status::NoScript => warn_of_script(rt, why),
        Status::ReadFault => warn!(rt; "status 4: standard input could not be read"),
        Status::WriteFault => warn!(rt; "status 5: standard output could not be written whole"),
        Status::Memory => warn!(rt; "status 6: there is not enough memory; nothing was written"),
    }
}

/// Whether the words are those of a live run.
fn is_live(words: &[Text]) -> bool {
    match words.first() {
        Some(word) => word.as_slice() == b"live".as_slice(),
        None => false,
    }
}

/// The folder of a live run, and for other words the root, at which nothing looks then. `None` where the folder is gone, or its path isn't
/// UTF-8.
fn folder<R: Env + AllocGlobal>(rt: &R, words: &[Text]) -> Result<Option<TextPath>, Memory>
    ensures { IfOk result (λ found. IfSome found (λ path. is_absolute path ≡ true)) }
{
    if !is_live(words) {
        return Ok(Some(TextPath::new(Text::from_slice(rt.alloc(), b"/")?)));
    }
    match current_folder(rt) {
        Ok(path) => Ok(Some(path)),
        Err(ScanError::Memory) => Err(Memory),
        Err(_) => Ok(None),
    }
}

/// Does what the words of the command line ask for. `None` where a live run has no folder.
fn serve<
    R: Threads + Wait + Processes + Files + Clock + Env + AllocGlobal + Copy + Drop + Send + Sync,
    S: Source + Send,
    K: Sink,
>(rt: R, words: &[Text], source: &mut S, sink: &mut K) -> Result<Option<Status>, Memory> {
    let Some(folder) = folder(&rt, words)? else {
        return Ok(None);
    };
    let mut live = LiveParts::new(rt, folder);
    let alloc = rt.alloc();
    Ok(Some(wx_main(&rt, alloc, words, source, sink, &mut live)))
}

fn main(rt: HostRuntime) -> ExitCode {
    let mut source = KeepingSource::new(rt.alloc(), StdSource::new(rt.reader()));
    let mut sink = StdSink::new(io::writer(&rt));
    let Ok(words) = words(&rt) else {
        warn_of(&rt, Status::Memory, &[], None);
        return ExitCode::from(Status::Memory.code());
    };
    let status = match serve(rt, words.as_slice(), &mut source, &mut sink) {
        Ok(Some(status)) => status,
        Ok(None) => {
            warn!(rt; "status 2: the current folder is gone, or its path is not UTF-8");
            return ExitCode::from(Status::Usage.code());
        }
        Err(Memory) => Status::Memory,
    };
    let why = why_refused(rt.alloc(), status, source.kept());
    warn_of(&rt, status, words.as_slice(), why);
    ExitCode::from(status.code())
}
