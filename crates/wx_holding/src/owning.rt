// How a path comes to be watched and owned.
ghost use Rattle.wx_holding.specs.Calm.{AddsCalmly, IsCalm, IsFit, IsStill, StandsBy};
ghost use Rattle.wx_holding.specs.Standing.{GoCalmly, IsAtTree};
ghost use Rattle.wx_recursor.specs.Owning.{owned, registered};
ghost use Rattle.wx_recursor.specs.Seen.{identity_at, watched_at};
ghost use Rattle.wx_recursor.specs.declared.answers.AddResult.TheVariants.{Stands};
ghost use Rattle.wx_tree.specs.Lists.{In};
ghost use Rattle.wx_tree.specs.Trees.{Tree};
ghost use Rattle.std.specs.Prelude.{◌≡◌, ◌∷◌, [], false, Some, IfOk, OnOk, cond};
ghost use Rattle.wx_scan.specs.Backings.{is_memory};
ghost use Rattle.wx_scan.specs.Looked.{OnlyLooks};
ghost use Rattle.wx_tree.specs.Places.{spelled};
ghost use Rattle.wx_recursor.specs.Holding.{enqueue, gone, scan_once, take_over};
ghost use Rattle.wx_recursor.specs.Identities.{has_identity, is_not_watched, refusal};
ghost use Rattle.wx_recursor.specs.Owning.{failed_watch, is_held_back, is_known_otherwise, refused, refused_result, stop, unwatched};
ghost use Rattle.wx_holding.specs.Backed.{IsConfirmed, KeepsWatches, LetsGo};
ghost use Rattle.wx_holding.specs.Effects.{Adds, Confirms, Owns, Unwatches};
ghost use Rattle.wx_holding.specs.Holding.{state_of};

use crate::held::Held;
use crate::looking::look;
use std::alloc::Global;
use wx_recursor::{AddResult, Identity, Item, Known, ShownError, Work};
use wx_recursor_lists::{
    changed, has_path, is_of_handles, is_of_watches, is_other_guard, is_path_gone, is_still,
    queue_guards_at,
};
use wx_scan::{Backend, Scanner};
use wx_text::{Copies, Memory};
use wx_tree::{Place, Root};
use wx_watch::{NotifyFault, NotifyFaultKind};

impl Held {
    /// A resource fault is shown once in an epoch, and stops additions.
    pub fn stop(&mut self, fault: NotifyFault) -> Result<(), Memory>
        ensures { OnOk result (state_of self.new ≡ stop fault (state_of self.old)) }
    {
        if self.stopped {
            return Ok(());
        }
        if is_of_watches(&fault) {
            self.shown.push(ShownError::TooManyWatches(fault))?;
        } else {
            self.shown.push(ShownError::TooManyHandles(fault))?;
        }
        self.stopped = true;
        Ok(())
    }

    /// Any other fault: the first of a path asks for a rebuild, the second skips the path.
    pub fn fail_watch(
        &mut self,
        alloc: Global,
        path: &Place,
        fault: NotifyFault,
    ) -> Result<(), Memory>
        ensures { OnOk result (state_of self.new ≡ failed_watch path.now fault (state_of self.old)) }
    {
        self.shown
            .push(ShownError::PathAdd(path.copy(alloc)?, fault))?;
        if has_path(path, self.failed.as_slice()) {
            self.skipped.push(path.copy(alloc)?)?;
        } else {
            self.failed.push(path.copy(alloc)?)?;
            self.asks_rebuild = true;
        }
        Ok(())
    }

    /// A watch that failed.
    fn refuse(
        &mut self,
        alloc: Global,
        path: &Place,
        fault: NotifyFault,
    ) -> Result<AddResult, Memory>
        ensures state { OnOk result (state_of self.new ≡ refused path.now fault (state_of self.old)) }
        ensures end { IfOk result (λ end. end ≡ refused_result path.now fault (state_of self.old)) }
    {
        if is_path_gone(&fault) {
            self.shown
                .push(ShownError::PathAdd(path.copy(alloc)?, fault))?;
            return Ok(AddResult::Vanished);
        }
        if is_of_watches(&fault) || is_of_handles(&fault) {
            self.stop(fault)?;
            return Ok(AddResult::LeftOut);
        }
        let is_first = !has_path(path, self.failed.as_slice());
        self.fail_watch(alloc, path, fault)?;
        if is_first {
            Ok(AddResult::TryAgain)
        } else {
            Ok(AddResult::LeftOut)
        }
    }

    /// An unwatch that failed is shown, and asks for a rebuild. That the path wasn't watched counts as done.
    fn show_refusal(
        &mut self,
        alloc: Global,
        path: &Place,
        fault: NotifyFault,
    ) -> Result<(), Memory>
        ensures { OnOk result (state_of self.new ≡ unwatched path.now (refusal (Some fault)) (state_of self.old)) }
    {
        if is_not_watched(&fault) {
            return Ok(());
        }
        self.shown
            .push(ShownError::PathRemove(path.copy(alloc)?, fault))?;
        self.asks_rebuild = true;
        Ok(())
    }

    /// The path is unwatched.
    pub fn unwatch<B: Backend, S: Scanner>(
        &mut self,
        alloc: Global,
        path: &Place,
        back: &mut B,
        scan: &mut S,
    ) -> Result<(), Memory>
        ensures looked { OnlyLooks (S.looked scan.old) (S.looked scan.new) }
        ensures rest { S.rest scan.new ≡ S.rest scan.old }
        ensures place { S.place scan.new ≡ S.place scan.old }
        ensures state { OnOk result (Unwatches path.now (state_of self.old) (state_of self.new)) }
        ensures watches { OnOk result (LetsGo (spelled path.now ∷ []) (B.backing back.old) (B.backing back.new)) }
        ensures calm { (t : Tree) → IsStill t (S.looked scan.old) (S.looked scan.new) → IsAtTree t (B.backing back.old) (B.fits back.old t) → In (spelled path.now) (B.backing back.old).registrations → OnOk result (GoCalmly t (spelled path.now ∷ []) (state_of self.old) (state_of self.new) (B.backing back.old) (B.backing back.new) (B.fits back.new t)) }
    {
        let spelled = path.path(alloc)?;
        match back.unwatch(scan, &spelled) {
            Ok(()) => Ok(()),
            Err(fault) => {
                if is_memory(&fault) {
                    Err(Memory)
                } else {
                    self.show_refusal(alloc, path, fault)
                }
            }
        }
    }

    /// The path was watched, and is looked at a second time.
    fn confirm<B: Backend, S: Scanner>(
        &mut self,
        alloc: Global,
        path: &Place,
        identity: &Identity,
        follow: bool,
        back: &mut B,
        scan: &mut S,
    ) -> Result<AddResult, Memory>
        ensures looked { OnlyLooks (S.looked scan.old) (S.looked scan.new) }
        ensures rest { S.rest scan.new ≡ S.rest scan.old }
        ensures place { S.place scan.new ≡ S.place scan.old }
        ensures state { IfOk result (λ end. Confirms path.now identity.now (state_of self.old) (state_of self.new) end) }
        ensures watches { OnOk result (IsConfirmed path.now (state_of self.old).registrations (state_of self.new).registrations (B.backing back.old) (B.backing back.new)) }
        ensures calm { (t : Tree) → follow ≡ false → IsStill t (S.looked scan.old) (S.looked scan.new) → IsFit t path.now → identity.now ≡ identity_at t path.now → IfOk result (λ end. (state_of self.new ≡ registered path.now identity.now (state_of self.old)) × (end ≡ Stands) × (back.new ≡ back.old)) }
    {
        let second = look(alloc, path, follow, scan)?;
        if is_still(path, identity, &second) {
            self.waiting.without(identity);
            self.registrations.push(Known {
                path: path.copy(alloc)?,
                identity: identity.copy(alloc)?,
            })?;
            return Ok(AddResult::Stands);
        }
        let fault = changed(alloc, identity, second)?;
        self.shown
            .push(ShownError::PathScan(path.copy(alloc)?, fault))?;
        self.unwatch(alloc, path, back, scan)?;
        Ok(AddResult::Vanished)
    }

    fn is_known_otherwise(&self, path: &Place, identity: &Identity) -> bool
        ensures { result ≡ is_known_otherwise path.now identity.now (state_of self.now) }
    {
        self.known.is_other(path, identity)
            || is_other_guard(path, identity, self.guards.as_slice())
            || self.registrations.is_other(path, identity)
            || self.waiting.is_other(path, identity)
    }

    fn is_registered(&self, identity: &Identity) -> bool
        ensures { result ≡ has_identity identity.now (state_of self.now).registrations }
    {
        self.registrations.has_identity(identity)
    }

    fn is_held_back(&self, path: &Place) -> bool
        ensures { result ≡ is_held_back path.now (state_of self.now) }
    {
        self.stopped || has_path(path, self.skipped.as_slice())
    }

    /// Registers the path, where that isn't done and may be done.
    pub fn add<B: Backend, S: Scanner>(
        &mut self,
        alloc: Global,
        path: &Place,
        identity: &Identity,
        follow: bool,
        back: &mut B,
        scan: &mut S,
    ) -> Result<AddResult, Memory>
        ensures looked { OnlyLooks (S.looked scan.old) (S.looked scan.new) }
        ensures rest { S.rest scan.new ≡ S.rest scan.old }
        ensures place { S.place scan.new ≡ S.place scan.old }
        ensures state { IfOk result (λ end. Adds path.now identity.now (state_of self.old) (state_of self.new) end) }
        ensures watches { OnOk result (KeepsWatches (state_of self.old).registrations (state_of self.new).registrations (B.backing back.old) (B.backing back.new)) }
        ensures calm { (t : Tree) → IsCalm t follow (S.looked scan.old) (S.looked scan.new) (state_of self.old).registrations (B.backing back.old) (B.fits back.old t) → IsFit t path.now → identity.now ≡ identity_at t path.now → IfOk result (λ end. AddsCalmly t path.now identity.now (state_of self.old) (state_of self.new) end × StandsBy t (state_of self.new).registrations (B.backing back.new) (B.fits back.new t)) }
    {
        if self.is_known_otherwise(path, identity) {
            self.excluded.push(path.copy(alloc)?)?;
            self.asks_rebuild = true;
            return Ok(AddResult::LeftOut);
        }
        if self.is_registered(identity) {
            return Ok(AddResult::Stands);
        }
        if self.is_held_back(path) {
            return Ok(AddResult::LeftOut);
        }
        let spelled = path.path(alloc)?;
        match back.watch(scan, &spelled) {
            Ok(()) => self.confirm(alloc, path, identity, follow, back, scan),
            Err(fault) => {
                if is_memory(&fault) {
                    Err(Memory)
                } else {
                    self.refuse(alloc, path, fault)
                }
            }
        }
    }

    /// The root owns the path, and scans it where its identity is new.
    fn take_over(
        &mut self,
        alloc: Global,
        root: &Root,
        path: &Place,
        identity: &Identity,
        scans: bool,
    ) -> Result<(), Memory>
        ensures { OnOk result (state_of self.new
            ≡ enqueue (cond scans (scan_once root.now path.now identity.now (state_of self.old)) []) (take_over root.now path.now identity.now (state_of self.old))) }
    {
        if scans && !self.known.has_met(root, identity, &self.owners) {
            self.queue.push_back(Work::Plain(Item::Scan(root.copy(alloc)?, path.copy(alloc)?)))?;
        }
        self.owners.own(alloc, root, path)?;
        self.known.know(alloc, path, identity)
    }

    /// The path is gone: the root's ownership goes from there down, and the guards of roots there are queued.
    pub fn lose_gone(&mut self, alloc: Global, root: &Root, path: &Place) -> Result<(), Memory>
        ensures { OnOk result (state_of self.new ≡ gone root.now path.now (state_of self.old)) }
    {
        self.owners.disown(root, path);
        queue_guards_at(alloc, path, self.roots.as_slice(), &mut self.queue)
    }

    /// The root owns the path under this identity, as far as it is registered. The item comes again where the watch is to
    /// be tried again after a rebuild.
    pub fn own<B: Backend, S: Scanner>(
        &mut self,
        alloc: Global,
        root: &Root,
        path: &Place,
        identity: &Identity,
        scans: bool,
        item: Work,
        follow: bool,
        back: &mut B,
        scan: &mut S,
    ) -> Result<(), Memory>
        ensures looked { OnlyLooks (S.looked scan.old) (S.looked scan.new) }
        ensures rest { S.rest scan.new ≡ S.rest scan.old }
        ensures place { S.place scan.new ≡ S.place scan.old }
        ensures state { OnOk result (Owns root.now path.now identity.now scans item (state_of self.old) (state_of self.new)) }
        ensures watches { OnOk result (KeepsWatches (state_of self.old).registrations (state_of self.new).registrations (B.backing back.old) (B.backing back.new)) }
        ensures calm { (t : Tree) → IsCalm t follow (S.looked scan.old) (S.looked scan.new) (state_of self.old).registrations (B.backing back.old) (B.fits back.old t) → IsFit t path.now → identity.now ≡ identity_at t path.now → OnOk result ((state_of self.new ≡ owned root.now path.now identity.now scans item (watched_at t path.now) None (state_of self.old)) × StandsBy t (state_of self.new).registrations (B.backing back.new) (B.fits back.new t)) }
    {
        match self.add(alloc, path, identity, follow, back, scan)? {
            AddResult::Stands => self.take_over(alloc, root, path, identity, scans),
            AddResult::Vanished => self.lose_gone(alloc, root, path),
            AddResult::TryAgain => {
                self.queue.push_back(item)?;
                Ok(())
            }
            AddResult::LeftOut => Ok(()),
        }
    }
}

/// Whether the fault is want of memory.
pub fn is_memory(fault: &NotifyFault) -> bool
    ensures { result ≡ is_memory fault.now.kind }
{
    match fault.kind {
        NotifyFaultKind::Memory => true,
        NotifyFaultKind::Generic(_)
        | NotifyFaultKind::Io(_)
        | NotifyFaultKind::PathNotFound
        | NotifyFaultKind::WatchNotFound
        | NotifyFaultKind::InvalidConfig
        | NotifyFaultKind::MaxFilesWatch => false,
    }
}

/// Whether the fault says that what is to be given up isn't watched.
fn is_not_watched(fault: &NotifyFault) -> bool
    ensures { result ≡ is_not_watched fault.now }
{
    match fault.kind {
        NotifyFaultKind::WatchNotFound => true,
        NotifyFaultKind::Generic(_)
        | NotifyFaultKind::Io(_)
        | NotifyFaultKind::PathNotFound
        | NotifyFaultKind::InvalidConfig
        | NotifyFaultKind::MaxFilesWatch
        | NotifyFaultKind::Memory => false,
    }
}
