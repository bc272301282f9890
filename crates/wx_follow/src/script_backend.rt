// A backend in memory, which follows a script.
ghost use Rattle.std.specs.Prelude.{◌≡◌, ◌≤◌, not, [], ◌+◌, ◌^◌, ◌-◌, min, IfOk};
ghost use Rattle.wx_watch.specs.declared.notify_fault.NotifyFaultKind.TheVariants.{Io as IoFault};
ghost use Rattle.wx_tree.specs.Trees.{Tree};
ghost use Rattle.wx_scan.specs.Looked.{Rose};
ghost use Rattle.wx_scan.specs.Told.{IsNamed};
ghost use Rattle.wx_poller.specs.Polled.{Fits, backing_of};
ghost use Rattle.wx_follow.specs.Backed.{backed, code_at};

use std::alloc::Global;
use wx_notify::Notify;
use wx_poller::{Past, Poller};
use wx_scan::{Backend, Scanner};
use wx_script::FailingCall;
use wx_text::{List, Memory};
use wx_watch::{NotifyFault, NotifyFaultKind};
use wx_words::TextPath;

/// A backend that polls, and of which those calls fail that a script says. They are counted from its make, `watch`, `unwatch` and
/// `next` together. It is exact where links aren't followed and no call is to fail.
pub struct ScriptBackend {
    alloc: Global,
    poller: Poller,
    failing: List<FailingCall>,
    calls: u64,
    faults: u64,
    past: Past,
}

// Its parts are dropped by one call: docs/DESIGN.md, "What proofs cost".
impl Drop for ScriptBackend {
    fn drop(self) {
        let ScriptBackend {
            alloc: _,
            poller: _,
            failing: _,
            calls: _,
            faults: _,
            past: _,
        } = self;
    }
}

/// The code with which a call fails, by the first of these that is about it.
fn code_at(failing: &[FailingCall], call: u64) -> Option<u32>
    ensures { result ≡ code_at failing.now call }
{
    let mut rest = failing;
    while let [first, after @ ..] = rest {
        if first.call == call {
            return Some(first.code);
        }
        rest = after;
    }
    None
}

impl ScriptBackend {
    /// A backend that watches nothing yet, follows links or doesn't, and of which these calls fail. It fails only for want of
    /// memory.
    pub(crate) fn new(
        alloc: Global,
        follow: bool,
        failing: &List<FailingCall>,
    ) -> Result<ScriptBackend, Memory>
        ensures fresh { IfOk result (λ b. ((backing_of b.poller).registrations ≡ []) × (b.past.brought ≡ [])) }
        ensures counts { IfOk result (λ b. (b.calls ≡ 0) × (b.faults ≡ 0)) }
        ensures failing { IfOk result (λ b. b.failing ≡ failing.now) }
        ensures exact { IfOk result (λ b. (backing_of b.poller).exact ≡ not follow) }
        ensures fits { (t : Tree) → IsNamed t → IfOk result (λ b. Fits b.poller t) }
    {
        let copied = List::from_vec(Vec::from_slice(alloc, failing.as_slice())?);
        let poller = Poller::new(alloc, follow)?;
        Ok(ScriptBackend {
            alloc,
            poller,
            failing: copied,
            calls: 0,
            faults: 0,
            past: Past::new(),
        })
    }
}

/// Counts a call, and answers the code with which it fails.
fn next_code(failing: &[FailingCall], calls: &mut u64) -> Option<u32>
    ensures code { result ≡ code_at failing.now calls.old }
    ensures calls { calls.new ≡ min (calls.old + 1) (2 ^ 64 - 1) }
{
    let code = code_at(failing, *calls);
    *calls = calls.saturating_add(1);
    code
}

/// The fault of a call that fails with this code. It is counted.
fn failed(alloc: Global, code: u32, faults: &mut u64) -> NotifyFault
    ensures fault { result ≡ record { kind = IoFault code; paths = [] } }
    ensures rose { Rose faults.old faults.new }
    ensures kept { faults.old ≤ faults.new }
{
    *faults = faults.saturating_add(1);
    NotifyFault {
        kind: NotifyFaultKind::Io(code),
        paths: List::new(alloc),
    }
}

impl Backend for ScriptBackend {
    ghost backing = { λ b. backed (backing_of b.poller) b.failing b.faults b.past.brought };

    ghost fits = { λ b t. Fits b.poller t };

    fn watch<S: Scanner>(&mut self, scan: &mut S, path: &TextPath) -> Result<(), NotifyFault> {
        match next_code(self.failing.as_slice(), &mut self.calls) {
            Some(code) => Err(failed(self.alloc, code, &mut self.faults)),
            None => self.poller.watch(scan, path),
        }
    }

    fn unwatch<S: Scanner>(&mut self, scan: &mut S, path: &TextPath) -> Result<(), NotifyFault> {
        match next_code(self.failing.as_slice(), &mut self.calls) {
            Some(code) => Err(failed(self.alloc, code, &mut self.faults)),
            None => self.poller.unwatch(scan, path),
        }
    }

    fn next<S: Scanner>(&mut self, scan: &mut S) -> Option<Result<Notify, NotifyFault>> {
        match next_code(self.failing.as_slice(), &mut self.calls) {
            Some(code) => {
                let item = Err(failed(self.alloc, code, &mut self.faults));
                self.past = Past::with(&self.past, &item);
                Some(item)
            }
            None => match self.poller.next(scan) {
                Some(item) => {
                    self.past = Past::with(&self.past, &item);
                    Some(item)
                }
                None => None,
            },
        }
    }
}
