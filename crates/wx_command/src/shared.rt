// Commands that several hold.
ghost use Rattle.std.specs.Prelude.{◌≡◌, IfOk};

use crate::command::Command;
use std::alloc::Global;
use std::marker::Model;
use std::sync::Arc;
use wx_text::{Copies, Memory};

/// A command that several hold, none with a copy of its own: a job, its handles and its task.
#[derive(Drop, Debug)]
pub struct SharedCommand {
    held: Arc<Command>,
}

impl Model for SharedCommand {
    ghost use Rattle.std.specs.Arc.{arc_value};
    ghost use Rattle.wx_command.specs.declared.command.Command.{Command as the-Command};

    ghost Value = { the-Command };

    ghost view = { λ s. arc_value s.held };
}

impl SharedCommand {
    /// This command, to be shared. It fails only for want of memory.
    pub fn new(alloc: Global, command: Command) -> Result<SharedCommand, Memory>
        ensures { IfOk result (λ shared. shared ≡ command) }
    {
        Ok(SharedCommand {
            held: Arc::new(alloc, command)?,
        })
    }

    /// The command.
    pub fn get(&self) -> &Command
        ensures { result.now ≡ self.now }
    {
        &self.held
    }
}

impl Copies for SharedCommand {
    /// One more that holds the same command, which isn't copied.
    fn copy(&self, _alloc: Global) -> Result<SharedCommand, Memory> {
        Ok(SharedCommand {
            held: Arc::try_clone(&self.held)?,
        })
    }
}
