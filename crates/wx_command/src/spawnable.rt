// What a command spawns.
ghost use Rattle.std.specs.Prelude.{◌≡◌, ◌++◌, OnOk, IfOk};
ghost use Rattle.wx_command.specs.Spawnables.{shell_text, shell_call, spawnable_of};

use crate::command::{Command, SpawnOptions};
use crate::execable::is_execable;
use crate::program::Program;
use crate::shell::Shell;
use std::alloc::Global;
use wx_text::{Copies, List, Memory, Text};
use wx_words::{Fields, Spelled, Words};

/// What is spawned: the program and then its arguments, and how.
#[derive(Drop, Debug, PartialEq, Eq)]
pub struct Spawnable {
    pub words: List<Text>,
    pub options: SpawnOptions,
}

/// Appends a copy of each text.
fn push_copies(alloc: Global, texts: &[Text], words: &mut List<Text>) -> Result<(), Memory>
    ensures { OnOk result (words.new ≡ words.old ++ texts.now) }
{
    for text in texts {
        words.push(text.copy(alloc)?)?;
    }
    Ok(())
}

/// Appends a shell, its options, and the option before its text where there is one.
fn push_shell(alloc: Global, shell: &Shell, words: &mut List<Text>) -> Result<(), Memory>
    ensures { OnOk result (words.new ≡ words.old ++ shell_call shell.now) }
{
    words.push(shell.prog.copy(alloc)?)?;
    push_copies(alloc, shell.options.as_slice(), words)?;
    if let Some(option) = &shell.program_option {
        words.push(option.copy(alloc)?)?;
    }
    Ok(())
}

/// The text that a shell runs.
fn shell_text(alloc: Global, command: &Text) -> Result<Text, Memory>
    ensures { IfOk result (λ text. text ≡ shell_text command.now) }
{
    let mut text = Text::new(alloc);
    if is_execable(command) {
        text.append(b"exec ")?;
    }
    text.append(command.as_slice())?;
    Ok(text)
}

impl Command {
    /// What this command spawns, with the options of the command. A program is spawned with its arguments. A shell is
    /// spawned with its options, its program option where it has one, the text of the command, with `exec ` before it
    /// where it is execable, and then the arguments. It fails only for want of memory.
    pub fn to_spawnable(&self, alloc: Global) -> Result<Spawnable, Memory>
        ensures { IfOk result (λ spawnable. spawnable ≡ spawnable_of self.now) }
    {
        let mut words = List::new(alloc);
        let args = match &self.program {
            Program::Exec { prog, args } => {
                words.push(prog.copy(alloc)?)?;
                args
            }
            Program::Shell {
                shell,
                command,
                args,
            } => {
                push_shell(alloc, shell, &mut words)?;
                words.push(shell_text(alloc, command)?)?;
                args
            }
        };
        push_copies(alloc, args.as_slice(), &mut words)?;
        Ok(Spawnable {
            words,
            options: self.options,
        })
    }
}

impl Copies for Spawnable {
    fn copy(&self, alloc: Global) -> Result<Spawnable, Memory> {
        Ok(Spawnable {
            words: self.words.copy(alloc)?,
            options: self.options,
        })
    }
}

#[tactic(auto, unfolding(crate::specs::Commands::spawnable, wx_words::specs::Parts::both))]
impl Spelled for Spawnable {
    ghost use Rattle.wx_command.specs.Commands.{spawnable};

    ghost spelling = { spawnable };

    fn put_after(&self, out: &mut Text) -> Result<(), Memory> {
        (&self.options, &self.words).put_fields(out)
    }

    fn read(alloc: Global, line: &mut Words) -> Result<Option<Spawnable>, Memory> {
        let Some((options, words)) = Spelled::read(alloc, line)? else {
            return Ok(None);
        };
        Ok(Some(Spawnable { words, options }))
    }
}
