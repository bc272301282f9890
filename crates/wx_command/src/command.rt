// Commands.
ghost use Rattle.std.specs.Prelude.{◌≡◌};

use crate::argv::{Argv, ArgvRef};
use crate::program::Program;
use std::alloc::Global;
use wx_text::{Copies, Memory, Text};
use wx_words::{Spelled, Words, put_row, read_rows};

/// How a program is spawned.
#[derive(Clone, Copy, Debug, Default, PartialEq, Eq, Hash)]
pub struct SpawnOptions {
    /// In a process group of its own.
    pub grouped: bool,
    /// In a session of its own.
    pub session: bool,
    /// With no signal masked.
    pub reset_sigmask: bool,
    /// With leave to take the foreground.
    pub grant_foreground: bool,
}

/// A program, and how it is spawned.
#[derive(Drop, Debug, PartialEq, Eq, Hash)]
pub struct Command {
    pub program: Program,
    pub options: SpawnOptions,
}

impl Copies for Command {
    fn copy(&self, alloc: Global) -> Result<Command, Memory> {
        Ok(Command {
            program: self.program.copy(alloc)?,
            options: self.options,
        })
    }
}

#[tactic(auto, unfolding(crate::specs::Commands::command, wx_words::specs::Parts::both))]
impl Spelled for Command {
    ghost use Rattle.wx_command.specs.Commands.{command};

    ghost spelling = { command };

    fn put_after(&self, out: &mut Text) -> Result<(), Memory> {
        match &self.program {
            Program::Exec { prog, args } => {
                put_row(b"exec", &(&self.options, ArgvRef { prog, args }), out)
            }
            Program::Shell {
                shell,
                command,
                args,
            } => put_row(b"shell", &(&self.options, (shell, (command, args))), out),
        }
    }

    fn read(alloc: Global, line: &mut Words) -> Result<Option<Command>, Memory> {
        read_rows!(alloc, line;
            b"exec" (options, Argv { prog, args }) => Command {
                program: Program::Exec { prog, args },
                options,
            },
            b"shell" (options, (shell, (command, args))) => Command {
                program: Program::Shell {
                    shell,
                    command,
                    args,
                },
                options,
            },
        )
    }
}
