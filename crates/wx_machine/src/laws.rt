// Laws of every job.
ghost use Rattle.wx_machine.specs.JobLaws.{ChildrenAreReaped};

/// In the life of a job, since it was last made, each child is reaped before the next spawn, save a last one, and no child
/// runs once the job is gone.
#[tactic(auto, using(crate::proofs::LifeLaws::children_are_reaped))]
pub fn children_are_reaped()
    ensures { ChildrenAreReaped }
{}
