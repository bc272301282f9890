// Handles on jobs.
ghost use Rattle.std.specs.Prelude.{◌≡◌};
ghost use Rattle.wx_control.specs.Flags.{Looks};

use crate::flag::Flag;
use crate::id::Id;
use crate::mirror::Mirror;
use std::alloc::Global;
use wx_command::{Command, SharedCommand};
use wx_text::{Copies, Memory};

/// A handle on a job: its name, what it runs, which all handles share, the flag that tells that it is gone, and the
/// mirror of whether its child runs.
#[derive(Debug)]
pub struct Job {
    id: Id,
    command: SharedCommand,
    gone: Flag,
    running: Mirror,
}

// Its parts are dropped by one call: docs/DESIGN.md, "What proofs cost".
impl Drop for Job {
    fn drop(self) {
        let Job {
            id: _,
            command: _,
            gone: _,
            running: _,
        } = self;
    }
}

impl Job {
    /// A handle on the job of this name.
    pub fn new(id: Id, command: SharedCommand, gone: Flag, running: Mirror) -> Job
        ensures { result ≡ record { id = id; command = command; gone = gone; running = running } }
    {
        Job {
            id,
            command,
            gone,
            running,
        }
    }

    /// The name of the job.
    pub fn id(&self) -> Id
        ensures { result ≡ self.now.id }
    {
        self.id
    }

    /// What the job runs.
    pub fn command(&self) -> &Command
        ensures { result.now ≡ self.now.command }
    {
        self.command.get()
    }

    /// The flag that tells that the job is gone.
    pub fn gone(&self) -> &Flag
        ensures { result.now ≡ self.now.gone }
    {
        &self.gone
    }

    /// Looks whether the job is gone, where this handle didn't see that before, and keeps what it saw.
    pub fn is_dead(&mut self) -> bool
        ensures answer { result ≡ self.new.gone.seen }
        ensures looks { Looks self.old.gone self.new.gone }
        ensures rest { self.new ≡ record self.old { gone = self.new.gone } }
    {
        self.gone.look()
    }

    /// Whether its child runs, as was told last. That may be late, and no clause speaks of it.
    pub fn is_running(&self) -> bool {
        self.running.told()
    }
}

impl Copies for Job {
    fn copy(&self, alloc: Global) -> Result<Job, Memory> {
        let command = self.command.copy(alloc)?;
        let gone = self.gone.copy(alloc)?;
        let running = self.running.copy(alloc)?;
        Ok(Job {
            id: self.id,
            command,
            gone,
            running,
        })
    }
}
