// How far the command of a job is.
ghost use Rattle.std.specs.Prelude.{◌≡◌};
ghost use Rattle.wx_machine.specs.States.{is_pending, is_running, is_finished, child_of};

use wx_events::ProcessEnd;

/// How far the command of a job is. Moments are in nanoseconds.
#[derive(Clone, Copy, Debug, PartialEq, Eq)]
pub enum CommandState {
    /// No child was spawned yet, or the last spawn failed.
    Pending,
    /// A child was spawned, and its end isn't known.
    Running {
        child: u64,
        started: u64,
    },
    /// The child has ended.
    Finished {
        status: ProcessEnd,
        started: u64,
        finished: u64,
    },
}

impl CommandState {
    /// Whether no child was spawned, or the last spawn failed.
    pub fn is_pending(&self) -> bool
        ensures { result ≡ is_pending self.now }
    {
        matches!(self, CommandState::Pending)
    }

    /// Whether a child was spawned whose end isn't known.
    pub fn is_running(&self) -> bool
        ensures { result ≡ is_running self.now }
    {
        matches!(self, CommandState::Running { .. })
    }

    /// Whether the child has ended.
    pub fn is_finished(&self) -> bool
        ensures { result ≡ is_finished self.now }
    {
        matches!(self, CommandState::Finished { .. })
    }
}

/// The child that runs, where one does.
pub fn child_of(state: CommandState) -> Option<u64>
    ensures { result ≡ child_of state }
{
    match state {
        CommandState::Running { child, .. } => Some(child),
        CommandState::Pending | CommandState::Finished { .. } => None,
    }
}
