// How the guard of a root is set.
ghost use Rattle.wx_holding.specs.Calm.{GuardsCalmly, IsCalm, IsStill, StandsBy};
ghost use Rattle.wx_scan.specs.Told.{AreNames};
ghost use Rattle.wx_tree.specs.Trees.{Tree, guard_of, is_safe};
ghost use Rattle.wx_recursor.specs.Seen.{guard_found_at};
ghost use Rattle.std.specs.Prelude.{◌≡◌, ◌∷◌, [], false, OnOk};
ghost use Rattle.wx_scan.specs.Looked.{OnlyLooks, Rose};
ghost use Rattle.wx_recursor.specs.declared.answers.GuardFound.TheVariants.{At, Nowhere};
ghost use Rattle.wx_recursor.specs.declared.errors.ShownError.TheVariants.{PathScan};
ghost use Rattle.wx_recursor.specs.declared.work.Item.TheVariants.{Guard};
ghost use Rattle.wx_recursor.specs.declared.work.Work.TheVariants.{Plain};
ghost use Rattle.wx_recursor.specs.Guarding.{guard_set, looked_again, unguarded};
ghost use Rattle.wx_recursor.specs.Holding.{enqueue, keep_retry, show};
ghost use Rattle.wx_holding.specs.Backed.{KeepsWatches};
ghost use Rattle.wx_holding.specs.Effects.{Guards, GuardsAt, LooksAgain};
ghost use Rattle.wx_holding.specs.Holding.{state_of};

use crate::held::Held;
use crate::looking::{find_guard, is_safe};
use std::alloc::Global;
use wx_recursor::{
    AddResult, GuardFound, GuardWatch, Identity, Item, Retry, ScanFault, ShownError, Work,
};
use wx_recursor_lists::{has_retry, lift_tombstone, release_guard};
use wx_scan::{Backend, Scanner};
use wx_text::{Copies, Memory};
use wx_tree::{Place, Root};

impl Held {
    /// A look that failed is shown.
    pub fn show_scan(&mut self, path: Place, fault: ScanFault) -> Result<(), Memory>
        ensures { OnOk result (state_of self.new ≡ show (PathScan path fault) (state_of self.old)) }
    {
        self.shown.push(ShownError::PathScan(path, fault))?;
        Ok(())
    }

    /// The path is kept for one retry of the root.
    pub fn keep_retry(&mut self, alloc: Global, root: &Root, path: &Place) -> Result<(), Memory>
        ensures { OnOk result (state_of self.new ≡ keep_retry root.now path.now (state_of self.old)) }
    {
        if !has_retry(root, path, self.retries.as_slice()) {
            self.retries.push(Retry {
                root: root.copy(alloc)?,
                path: path.copy(alloc)?,
            })?;
        }
        Ok(())
    }

    /// This guards the root from now on.
    fn put_guard(
        &mut self,
        alloc: Global,
        root: &Root,
        path: Place,
        identity: Identity,
    ) -> Result<(), Memory>
        ensures { OnOk result (state_of self.new ≡ guard_set root.now path identity (state_of self.old)) }
    {
        release_guard(root, &mut self.guards);
        lift_tombstone(&path, &mut self.tombstones);
        self.guards.push(GuardWatch {
            root: root.copy(alloc)?,
            path,
            identity,
        })?;
        Ok(())
    }

    /// Nothing guards the root.
    pub fn unguard(&mut self, root: &Root)
        ensures { state_of self.new ≡ unguarded root.now (state_of self.old) }
    {
        release_guard(root, &mut self.guards);
    }

    fn queue_again(&mut self, alloc: Global, root: &Root, is_safe: bool) -> Result<(), Memory>
        ensures { OnOk result (state_of self.new ≡ looked_again root.now is_safe (state_of self.old)) }
    {
        if is_safe {
            self.queue
                .push_back(Work::Plain(Item::Visit(root.copy(alloc)?)))?;
        }
        Ok(())
    }

    /// The root is looked at once more, and queued where it is found and safe.
    fn look_again<S: Scanner>(
        &mut self,
        alloc: Global,
        root: &Root,
        follow: bool,
        scan: &mut S,
    ) -> Result<(), Memory>
        ensures looked { OnlyLooks (S.looked scan.old) (S.looked scan.new) }
        ensures raised { OnOk result (Rose (S.looked scan.old).looks (S.looked scan.new).looks) }
        ensures rest { S.rest scan.new ≡ S.rest scan.old }
        ensures place { S.place scan.new ≡ S.place scan.old }
        ensures state { OnOk result (LooksAgain root.now (state_of self.old) (state_of self.new)) }
        ensures told { (t : Tree) → follow ≡ false → IsStill t (S.looked scan.old) (S.looked scan.new) → AreNames root.now.path → OnOk result (state_of self.new ≡ looked_again root.now (is_safe t root.now.path) (state_of self.old)) }
    {
        let safe = is_safe(alloc, &root.path, follow, scan)?;
        self.queue_again(alloc, root, safe)
    }

    fn queue_guard(&mut self, alloc: Global, root: &Root) -> Result<(), Memory>
        ensures { OnOk result (state_of self.new ≡ enqueue (Plain (Guard root.now) ∷ []) (state_of self.old)) }
    {
        self.queue
            .push_back(Work::Plain(Item::Guard(root.copy(alloc)?)))?;
        Ok(())
    }

    fn put_and_look<S: Scanner>(
        &mut self,
        alloc: Global,
        root: &Root,
        path: Place,
        identity: Identity,
        follow: bool,
        scan: &mut S,
    ) -> Result<(), Memory>
        ensures looked { OnlyLooks (S.looked scan.old) (S.looked scan.new) }
        ensures rest { S.rest scan.new ≡ S.rest scan.old }
        ensures place { S.place scan.new ≡ S.place scan.old }
        ensures state { OnOk result (LooksAgain root.now (guard_set root.now path identity (state_of self.old)) (state_of self.new)) }
        ensures calm { (t : Tree) → follow ≡ false → IsStill t (S.looked scan.old) (S.looked scan.new) → AreNames root.now.path → OnOk result (state_of self.new ≡ looked_again root.now (is_safe t root.now.path) (guard_set root.now path identity (state_of self.old))) }
    {
        self.put_guard(alloc, root, path, identity)?;
        self.look_again(alloc, root, follow, scan)
    }

    fn guard_by<B: Backend, S: Scanner>(
        &mut self,
        alloc: Global,
        root: &Root,
        path: Place,
        identity: Identity,
        follow: bool,
        back: &mut B,
        scan: &mut S,
    ) -> Result<(), Memory>
        ensures looked { OnlyLooks (S.looked scan.old) (S.looked scan.new) }
        ensures rest { S.rest scan.new ≡ S.rest scan.old }
        ensures place { S.place scan.new ≡ S.place scan.old }
        ensures state { OnOk result (GuardsAt root.now (At path identity) (state_of self.old) (state_of self.new)) }
        ensures watches { OnOk result (KeepsWatches (state_of self.old).registrations (state_of self.new).registrations (B.backing back.old) (B.backing back.new)) }
        ensures calm { (t : Tree) → IsCalm t follow (S.looked scan.old) (S.looked scan.new) (state_of self.old).registrations (B.backing back.old) (B.fits back.old t) → AreNames root.now.path → At path identity ≡ guard_found_at (guard_of t root.now.path) → OnOk result (GuardsCalmly t root.now (state_of self.old) (state_of self.new) × StandsBy t (state_of self.new).registrations (B.backing back.new) (B.fits back.new t)) }
    {
        match self.add(alloc, &path, &identity, follow, back, scan)? {
            AddResult::Stands => self.put_and_look(alloc, root, path, identity, follow, scan),
            AddResult::Vanished => self.keep_retry(alloc, root, &root.path),
            AddResult::TryAgain => self.queue_guard(alloc, root),
            AddResult::LeftOut => Ok(()),
        }
    }

    /// The guard of the root is set to what was found.
    fn guard_at<B: Backend, S: Scanner>(
        &mut self,
        alloc: Global,
        root: &Root,
        found: GuardFound,
        follow: bool,
        back: &mut B,
        scan: &mut S,
    ) -> Result<(), Memory>
        ensures looked { OnlyLooks (S.looked scan.old) (S.looked scan.new) }
        ensures raised { OnOk result (found ≡ Nowhere → Rose (S.looked scan.old).looks (S.looked scan.new).looks) }
        ensures rest { S.rest scan.new ≡ S.rest scan.old }
        ensures place { S.place scan.new ≡ S.place scan.old }
        ensures state { OnOk result (GuardsAt root.now found (state_of self.old) (state_of self.new)) }
        ensures watches { OnOk result (KeepsWatches (state_of self.old).registrations (state_of self.new).registrations (B.backing back.old) (B.backing back.new)) }
        ensures calm { (t : Tree) → IsCalm t follow (S.looked scan.old) (S.looked scan.new) (state_of self.old).registrations (B.backing back.old) (B.fits back.old t) → AreNames root.now.path → found ≡ guard_found_at (guard_of t root.now.path) → OnOk result (GuardsCalmly t root.now (state_of self.old) (state_of self.new) × StandsBy t (state_of self.new).registrations (B.backing back.new) (B.fits back.new t)) }
    {
        match found {
            GuardFound::Nowhere => {
                self.unguard(root);
                self.look_again(alloc, root, follow, scan)
            }
            GuardFound::At(path, identity) => {
                self.guard_by(alloc, root, path, identity, follow, back, scan)
            }
            GuardFound::Faulty(path, code) => {
                self.show_scan(path, ScanFault::Io(code))?;
                self.keep_retry(alloc, root, &root.path)
            }
        }
    }

    /// The guard of the root is searched and set.
    pub fn guard<B: Backend, S: Scanner>(
        &mut self,
        alloc: Global,
        root: &Root,
        follow: bool,
        back: &mut B,
        scan: &mut S,
    ) -> Result<(), Memory>
        ensures looked { OnlyLooks (S.looked scan.old) (S.looked scan.new) }
        ensures raised { OnOk result (Rose (S.looked scan.old).looks (S.looked scan.new).looks) }
        ensures rest { S.rest scan.new ≡ S.rest scan.old }
        ensures place { S.place scan.new ≡ S.place scan.old }
        ensures state { OnOk result (Guards root.now (state_of self.old) (state_of self.new)) }
        ensures watches { OnOk result (KeepsWatches (state_of self.old).registrations (state_of self.new).registrations (B.backing back.old) (B.backing back.new)) }
        ensures calm { (t : Tree) → IsCalm t follow (S.looked scan.old) (S.looked scan.new) (state_of self.old).registrations (B.backing back.old) (B.fits back.old t) → AreNames root.now.path → OnOk result (GuardsCalmly t root.now (state_of self.old) (state_of self.new) × StandsBy t (state_of self.new).registrations (B.backing back.new) (B.fits back.new t)) }
    {
        let found = find_guard(alloc, &root.path, follow, scan)?;
        self.guard_at(alloc, root, found, follow, back, scan)
    }
}
