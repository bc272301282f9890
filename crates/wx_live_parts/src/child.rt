// One child.
use crate::codes::{NO_TEXT, NOT_DONE, NOT_PERMITTED, SENSELESS, code_of, code_of_memory};
use crate::ends::end_of;
use std::alloc::{AllocError, Global};
use std::process::{Child, Command, Processes, Stdio};
use wx_command::{SpawnOptions, Spawnable};
use wx_events::ProcessEnd;
use wx_text::Text;

/// A child under its name, and whether its end was told.
pub struct NamedChild<R: Processes> {
    pub name: u64,
    child: Child<R::Started>,
    is_told: bool,
}

// Its parts are dropped by one call: docs/DESIGN.md, "What proofs cost".
impl<R: Processes> Drop for NamedChild<R> {
    fn drop(self) {
        let NamedChild {
            name: _,
            child: _,
            is_told: _,
        } = self;
    }
}

/// The text as a word of a command, or the code of a fault where it isn't UTF-8.
fn word_of(text: &Text) -> Result<&str, u32> {
    match std::str::from_utf8(text.as_slice()) {
        Ok(word) => Ok(word),
        Err(_) => Err(NO_TEXT),
    }
}

/// Adds these words to a command, or answers the code of a fault.
fn put_words(words: &[Text], command: &mut Command) -> Result<(), u32> {
    for word in words {
        if let Err(error) = command.arg(word_of(word)?) {
            return Err(code_of_memory(error));
        }
    }
    Ok(())
}

/// The command of these words, which reads nothing, or the code of a fault.
fn command_of(alloc: Global, words: &[Text]) -> Result<Command, u32> {
    let [program, args @ ..] = words else {
        return Err(SENSELESS);
    };
    match Command::new(alloc, word_of(program)?) {
        Ok(mut command) => {
            put_words(args, &mut command)?;
            command.stdin(Stdio::null());
            Ok(command)
        }
        Err(error) => Err(code_of_memory(error)),
    }
}

/// Whether a signal has this number.
fn is_signal(number: i32) -> bool {
    matches!(number, 1..=64)
}

/// A command by which a shell sends the signal of this number to a process.
fn kill_command(alloc: Global, number: i32, process: u32) -> Result<Command, AllocError> {
    let line = format!(in alloc; "kill -{number} {process}")?;
    let mut command = Command::new(alloc, "sh")?;
    command.arg("-c")?;
    command.arg(line.as_str())?;
    command.stdin(Stdio::null());
    command.stdout(Stdio::null());
    command.stderr(Stdio::null());
    Ok(command)
}

impl<R: Processes> NamedChild<R> {
    /// Starts a child of this name, which reads nothing and writes where its parent does. It answers the code of a fault where that fails,
    /// where a word isn't UTF-8, and where an option is set, since std has none of them.
    pub fn start(rt: &R, alloc: Global, name: u64, what: &Spawnable) -> Result<NamedChild<R>, u32> {
        if what.options != SpawnOptions::default() {
            return Err(NOT_DONE);
        }
        let mut command = command_of(alloc, what.words.as_slice())?;
        match command.spawn(rt) {
            Ok(child) => Ok(NamedChild {
                name,
                child,
                is_told: false,
            }),
            Err(error) => Err(code_of(&error)),
        }
    }

    /// Whether it has ended. One of which the system says nothing any more has.
    fn has_ended(&mut self) -> bool {
        !matches!(self.child.try_wait(), Ok(None))
    }

    /// Whether it has ended, and this is the first that tells it.
    pub fn tells_end(&mut self) -> bool {
        if self.is_told || !self.has_ended() {
            return false;
        }
        self.is_told = true;
        true
    }

    /// Whether it has ended, and that wasn't told yet.
    pub fn has_end_to_tell(&mut self) -> bool {
        !self.is_told && self.has_ended()
    }

    /// Whether its end was told.
    pub fn is_told(&self) -> bool {
        self.is_told
    }

    /// Sends the signal of this number. One that has ended takes none. It answers the code of a fault.
    pub fn signal(&mut self, rt: &R, alloc: Global, number: i32) -> Result<(), u32> {
        if !is_signal(number) {
            return Err(SENSELESS);
        }
        if self.has_ended() {
            return Ok(());
        }
        let mut command = match kill_command(alloc, number, self.child.id()) {
            Ok(command) => command,
            Err(error) => return Err(code_of_memory(error)),
        };
        match command.status(rt) {
            Ok(status) if status.success() => Ok(()),
            // it wasn't waited for, so it is there
            Ok(_) => Err(NOT_PERMITTED),
            Err(error) => Err(code_of(&error)),
        }
    }

    /// Kills it. It answers the code of a fault.
    pub fn kill(&mut self) -> Result<(), u32> {
        match self.child.kill() {
            Ok(()) => Ok(()),
            Err(error) => Err(code_of(&error)),
        }
    }

    /// Waits until it ends, and answers how. It answers the code of a fault.
    pub fn wait(&mut self) -> Result<ProcessEnd, u32> {
        match self.child.wait() {
            Ok(status) => Ok(end_of(status)),
            Err(error) => Err(code_of(&error)),
        }
    }
}
