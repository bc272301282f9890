// What the tests share: a live outside over the system, and shells that it runs.
use std::alloc::Global;
use std::rt::HostRuntime;
use wx_command::{SpawnOptions, Spawnable};
use wx_control::Id;
use wx_events::ProcessEnd;
use wx_job::Host;
use wx_journal::SpawnTag;
use wx_live_parts::{LiveParts, current_folder};
use wx_scan::ScanError;
use wx_text::{List, Memory, Text};

/// The live outside of the tests.
pub(crate) type Parts = LiveParts<HostRuntime>;

/// A live outside in the folder of the program, where that is known.
pub(crate) fn new_parts(rt: HostRuntime) -> Result<Parts, ScanError> {
    let folder = current_folder(&rt)?;
    Ok(LiveParts::new(rt, folder))
}

/// What spawns these words.
pub(crate) fn spawnable(alloc: Global, words: &[&[u8]]) -> Result<Spawnable, Memory> {
    let mut texts = List::new(alloc);
    for word in words {
        texts.push(Text::from_slice(alloc, word)?)?;
    }
    Ok(Spawnable {
        words: texts,
        options: SpawnOptions::default(),
    })
}

/// Spawns a shell of this name that runs a script. No signal is ignored there: `nohup`, and a shell that starts the tests in the background,
/// hand that on.
pub(crate) fn spawn_shell(
    alloc: Global,
    parts: &mut Parts,
    child: u64,
    script: &str,
) -> Result<bool, Memory> {
    let words: [&[u8]; 5] = [b"env", b"--default-signal", b"sh", b"-c", script.as_bytes()];
    let what = spawnable(alloc, &words)?;
    Ok(parts.spawn(child, Id(0), what, SpawnTag::Default).is_ok())
}

/// Runs a script to its end, and answers how it ended.
pub(crate) fn run_shell(
    alloc: Global,
    parts: &mut Parts,
    script: &str,
) -> Result<Option<ProcessEnd>, Memory> {
    if !spawn_shell(alloc, parts, 1_000_000, script)? {
        return Ok(None);
    }
    Ok(parts.wait(1_000_000).ok())
}
