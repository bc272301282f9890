// A trial, and the look at its journal.
ghost use Rattle.std.specs.Prelude.{◌≡◌, true, IfOk, IfSome};
ghost use Rattle.wx_paths.specs.Paths.{is_absolute};

use crate::places::{Places, make_folder};
use crate::trials::Trial;
use std::alloc::{AllocGlobal, Global};
use std::io::{self, Error, ErrorKind};
use std::process::Processes;
use std::rt::{Clock, Files};
use std::sync::Wait;
use std::thread::Threads;
use wx_bytes::{MemSink, Source};
use wx_command::{Command, Program, SpawnOptions};
use wx_live_parts::LiveParts;
use wx_live_run::live;
use wx_replay::Status;
use wx_text::{List, Memory, Text};
use wx_words::TextPath;

/// The error that stands for want of memory.
fn no_memory(_want: Memory) -> Error {
    Error::from(ErrorKind::OutOfMemory)
}

/// These words as texts.
fn texts(alloc: Global, words: &[&str]) -> Result<List<Text>, Memory> {
    let mut texts = List::new(alloc);
    for word in words {
        texts.push(Text::from_slice(alloc, word.as_bytes())?)?;
    }
    Ok(texts)
}

/// What a shell is given: what it does, the name by which it knows that, and its argument.
fn args_of(alloc: Global, script: &str, name: &str, arg: &str) -> Result<List<Text>, Memory> {
    let mut args = List::new(alloc);
    args.push(Text::from_slice(alloc, b"-c")?)?;
    args.push(Text::from_slice(alloc, script.as_bytes())?)?;
    args.push(Text::from_slice(alloc, name.as_bytes())?)?;
    args.push(Text::from_slice(alloc, arg.as_bytes())?)?;
    Ok(args)
}

/// The command of a trial.
fn command_of(alloc: Global, trial: &Trial, places: &Places) -> Result<Command, Memory> {
    let (mark, folder) = (places.mark.as_str(), places.folder.as_str());
    let args = args_of(alloc, trial.script, mark, folder)?;
    Ok(Command {
        program: Program::Exec {
            prog: Text::from_slice(alloc, trial.program.as_bytes())?,
            args,
        },
        options: SpawnOptions::default(),
    })
}

fn begins_with_slash(path: &[u8]) -> bool
    ensures { result ≡ is_absolute path.now }
{
    matches!(path, [b'/', ..])
}

/// The path of these bytes, where it is absolute.
fn absolute(alloc: Global, path: &[u8]) -> Result<Option<TextPath>, Memory>
    ensures { IfOk result (λ found. IfSome found (λ path. is_absolute path ≡ true)) }
{
    let text = Text::from_slice(alloc, path)?;
    if begins_with_slash(text.as_slice()) {
        Ok(Some(TextPath::new(text)))
    } else {
        Ok(None)
    }
}

/// How many lines of a journal begin and end so.
fn count(journal: &str, begin: &str, end: &str) -> usize {
    journal
        .lines()
        .filter(|line| line.starts_with(begin) && line.ends_with(end))
        .count()
}

/// Whether some line of a journal begins so and has this part.
fn has_line(journal: &str, begin: &str, part: &str) -> bool {
    journal
        .lines()
        .any(|line| line.starts_with(begin) && line.contains(part))
}

/// Whether a journal is as the trial says.
fn is_so(journal: &str, trial: &Trial) -> bool {
    for (begin, part) in trial.lines {
        if !has_line(journal, begin, part) {
            return false;
        }
    }
    let last = journal.lines().last().unwrap_or("");
    let runs = count(journal, "spawn ", " ok");
    last.starts_with("end ok ")
        && (trial.runs <= runs && runs <= trial.most)
        && (trial.runs == 0 || !has_line(journal, "", " fault "))
}

/// Runs the command of a trial over its folder, with this keyboard, and answers what is written where that isn't as it should be.
pub fn fails<
    R: Threads + Wait + Processes + Files + Clock + AllocGlobal + Copy + Send + Sync + Drop,
    S: Source + Send,
>(rt: &R, places: &Places, trial: &Trial, source: &mut S) -> io::Result<Option<MemSink>> {
    let alloc = rt.alloc();
    make_folder(rt, places.folder.as_str())?;
    let command = command_of(alloc, trial, places).map_err(no_memory)?;
    let ignores = texts(alloc, trial.ignores).map_err(no_memory)?;
    let Some(folder) = absolute(alloc, places.folder.as_bytes()).map_err(no_memory)? else {
        return Err(Error::from(ErrorKind::InvalidFilename));
    };
    let mut outside = LiveParts::new(*rt, folder);
    let mut sink = MemSink::new(alloc);
    let status = live(
        rt,
        alloc,
        trial.turns,
        ignores.as_slice(),
        &command,
        source,
        &mut sink,
        &mut outside,
    );
    let journal = std::str::from_utf8(sink.text().as_slice()).unwrap_or("");
    if status == Status::Done && is_so(journal, trial) {
        return Ok(None);
    }
    Ok(Some(sink))
}
