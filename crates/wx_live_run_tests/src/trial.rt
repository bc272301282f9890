// What the tests share.
use std::alloc::Global;
use wx_command::{Command, Program, SpawnOptions};
use wx_text::{List, Memory, Text};

/// The command `a`, without arguments.
pub(crate) fn command(alloc: Global) -> Result<Command, Memory> {
    Ok(Command {
        program: Program::Exec {
            prog: Text::from_slice(alloc, b"a")?,
            args: List::new(alloc),
        },
        options: SpawnOptions::default(),
    })
}

/// How many lines of a text begin and end so.
pub(crate) fn count(text: &Text, front: &[u8], back: &[u8]) -> u64 {
    let mut found: u64 = 0;
    for line in text.as_slice().split(|byte| *byte == 10) {
        if line.starts_with(front) && line.ends_with(back) {
            found = found.saturating_add(1);
        }
    }
    found
}
