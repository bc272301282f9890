// The calls between steps.
ghost use Rattle.std.specs.Prelude.{◌≡◌, ◌++◌, IfOk, OnErr, OnOk};
ghost use Rattle.wx_recursor.specs.Calls.{has_work, kept_guard_watches, needs_retry, queued_guards, queued_retries, queued_roots, reconciled, rescanned};
ghost use Rattle.wx_holding.specs.Holding.{state_of};

use crate::held::Held;
use std::alloc::Global;
use std::collections::VecDeque;
use wx_recursor::{GuardWatch, Retry, Work};
use wx_recursor_lists::{keep_guards, queue_guards, queue_retries, queue_roots};
use wx_text::{Copies, Memory};
use wx_tree::Root;

/// Copies of these roots.
fn copy_roots(alloc: Global, roots: &[Root]) -> Result<Vec<Root>, Memory>
    ensures { IfOk result (λ copied. copied.items ≡ roots.now) }
{
    let mut copied = Vec::new(alloc);
    for root in roots {
        copied.push(root.copy(alloc)?)?;
    }
    Ok(copied)
}

/// What is queued when an epoch of these roots begins: guards, retries, and roots.
fn first_queue(
    alloc: Global,
    roots: &[Root],
    guards: &[GuardWatch],
    retries: &[Retry],
) -> Result<VecDeque<Work>, Memory>
    ensures { IfOk result (λ q. q.items ≡ queued_guards (kept_guard_watches roots.now guards.now) ++ (queued_retries roots.now retries.now ++ queued_roots roots.now)) }
{
    let mut queue = VecDeque::new(alloc);
    queue_guards(alloc, roots, guards, &mut queue)?;
    queue_retries(alloc, roots, retries, &mut queue)?;
    queue_roots(alloc, roots, &mut queue)?;
    Ok(queue)
}

impl Held {
    /// Sets the roots and the filter, and begins an epoch. It fails only for want of memory, and changes nothing then.
    pub fn reconcile(&mut self, alloc: Global, roots: Vec<Root>, filter: u32) -> Result<(), Memory>
        ensures state { OnOk result (state_of self.new ≡ reconciled roots.items filter (state_of self.old)) }
        ensures unchanged { OnErr result (state_of self.new ≡ state_of self.old) }
    {
        self.queue = first_queue(
            alloc,
            roots.as_slice(),
            self.guards.as_slice(),
            self.retries.as_slice(),
        )?;
        keep_guards(roots.as_slice(), &mut self.guards);
        self.owners.set_unseen();
        self.roots = roots;
        self.filter = filter;
        self.sweep_due = true;
        self.retries.clear();
        self.failed.clear();
        self.skipped.clear();
        self.stopped = false;
        self.tombstones.clear();
        self.deferred = false;
        Ok(())
    }

    /// A reconcile with the roots and the filter that stand, which asks for a rebuild. It fails only for want of memory, and
    /// changes nothing then.
    pub fn rescan(&mut self, alloc: Global) -> Result<(), Memory>
        ensures state { OnOk result (state_of self.new ≡ rescanned (state_of self.old)) }
        ensures unchanged { OnErr result (state_of self.new ≡ state_of self.old) }
    {
        let roots = copy_roots(alloc, self.roots.as_slice())?;
        self.reconcile(alloc, roots, self.filter)?;
        self.asks_rebuild = true;
        Ok(())
    }

    /// Whether something is queued, or a sweep is owed.
    pub fn has_work(&self) -> bool
        ensures { result ≡ has_work (state_of self.now).queue (state_of self.now).sweep_due }
    {
        !self.queue.is_empty() || self.sweep_due
    }

    /// Whether a retry is kept, a path is skipped, nothing more may be watched, or a replay was deferred.
    pub fn needs_retry(&self) -> bool
        ensures { result ≡ needs_retry (state_of self.now) }
    {
        !self.retries.is_empty() || !self.skipped.is_empty() || self.stopped || self.deferred
    }
}
