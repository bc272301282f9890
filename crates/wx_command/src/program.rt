// Programs.
use crate::shell::Shell;
use std::alloc::Global;
use wx_text::{Copies, List, Memory, Text};

/// What a command runs.
#[derive(Drop, Debug, PartialEq, Eq, Hash)]
pub enum Program {
    /// A program with its arguments, and no shell.
    Exec {
        prog: Text,
        args: List<Text>,
    },
    /// A shell that runs the text of the command, with the arguments behind it.
    Shell {
        shell: Shell,
        command: Text,
        args: List<Text>,
    },
}

impl Copies for Program {
    fn copy(&self, alloc: Global) -> Result<Program, Memory> {
        match self {
            Program::Exec { prog, args } => {
                let prog = prog.copy(alloc)?;
                let args = args.copy(alloc)?;
                Ok(Program::Exec { prog, args })
            }
            Program::Shell {
                shell,
                command,
                args,
            } => {
                let shell = shell.copy(alloc)?;
                let command = command.copy(alloc)?;
                let args = args.copy(alloc)?;
                Ok(Program::Shell {
                    shell,
                    command,
                    args,
                })
            }
        }
    }
}
