// What is held of a job.
ghost use Rattle.std.specs.Prelude.{◌≡◌};
ghost use Rattle.wx_hooks.specs.HeldJobs.{is_here, runs_child};

use wx_control::Job;
use wx_job::JobTask;

/// What is held of a job: a handle on it, for the action handler, and its task.
pub struct Held {
    pub handle: Job,
    pub task: JobTask,
}

// Its parts are dropped by one call: docs/DESIGN.md, "What proofs cost".
impl Drop for Held {
    fn drop(self) {
        let Held { handle: _, task: _ } = self;
    }
}

impl Held {
    /// Whether the job isn't gone.
    pub(crate) fn is_here(&self) -> bool
        ensures { result ≡ is_here self.now }
    {
        !self.task.is_gone()
    }

    /// Whether this child runs.
    pub(crate) fn runs(&self, child: u64) -> bool
        ensures { result ≡ runs_child child self.now }
    {
        match self.task.running_child() {
            Some(running) => running == child,
            None => false,
        }
    }
}
