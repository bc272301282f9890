// What a script says that the host and the maker of backends answer, a field for each kind of calls.
ghost use Rattle.std.specs.Prelude.{◌≡◌, IfOk};
ghost use Rattle.wx_script.specs.HostCalls.{no_answers};

use std::alloc::Global;
use wx_events::ProcessEnd;
use wx_journal::HostFault;
use wx_text::{Copies, List, Memory};
use wx_watch::NotifyFault;

/// The answers to the calls of each kind, in order.
pub struct Answers {
    /// To the spawns of children.
    pub spawns: List<Result<(), HostFault>>,
    /// To the signals that are sent to them.
    pub signals: List<Result<(), HostFault>>,
    /// To their kills.
    pub kills: List<Result<(), HostFault>>,
    /// To the waits for them.
    pub waits: List<Result<ProcessEnd, HostFault>>,
    /// To the makes of backends.
    pub makes: List<Result<(), NotifyFault>>,
}

// Its parts are dropped by one call: docs/DESIGN.md, "What proofs cost".
impl Drop for Answers {
    fn drop(self) {
        let Answers {
            spawns: _,
            signals: _,
            kills: _,
            waits: _,
            makes: _,
        } = self;
    }
}

impl Answers {
    /// No answer of any kind.
    pub fn new(alloc: Global) -> Answers
        ensures { result ≡ no_answers }
    {
        Answers {
            spawns: List::new(alloc),
            signals: List::new(alloc),
            kills: List::new(alloc),
            waits: List::new(alloc),
            makes: List::new(alloc),
        }
    }
}

impl Copies for Answers {
    fn copy(&self, alloc: Global) -> Result<Answers, Memory> {
        let spawns = copied(alloc, &self.spawns)?;
        let signals = copied(alloc, &self.signals)?;
        let kills = copied(alloc, &self.kills)?;
        let waits = copied(alloc, &self.waits)?;
        let makes = copied_makes(alloc, self.makes.as_slice())?;
        Ok(Answers {
            spawns,
            signals,
            kills,
            waits,
            makes,
        })
    }
}

/// These answers once more. It fails only for want of memory.
fn copied<T: Copy>(alloc: Global, answers: &List<T>) -> Result<List<T>, Memory>
    ensures { IfOk result (λ copied. copied ≡ answers.now) }
{
    Ok(List::from_vec(Vec::from_slice(alloc, answers.as_slice())?))
}

/// The answers to makes once more. It fails only for want of memory.
fn copied_makes(
    alloc: Global,
    answers: &[Result<(), NotifyFault>],
) -> Result<List<Result<(), NotifyFault>>, Memory>
    ensures { IfOk result (λ copied. copied ≡ answers.now) }
{
    let mut copied = List::new(alloc);
    for answer in answers {
        copied.push(copied_make(alloc, answer)?)?;
    }
    Ok(copied)
}

/// The answer to a make once more. It fails only for want of memory.
fn copied_make(
    alloc: Global,
    answer: &Result<(), NotifyFault>,
) -> Result<Result<(), NotifyFault>, Memory>
    ensures { IfOk result (λ copied. copied ≡ answer.now) }
{
    match answer {
        Ok(()) => Ok(Ok(())),
        Err(fault) => Ok(Err(fault.copy(alloc)?)),
    }
}

/// How many answers of each kind were used.
#[derive(Clone, Copy, Default)]
pub struct Used {
    pub spawns: usize,
    pub signals: usize,
    pub kills: usize,
    pub waits: usize,
    pub makes: usize,
}
