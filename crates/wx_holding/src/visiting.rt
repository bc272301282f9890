// What is done about a root, a listing and a candidate.
ghost use Rattle.wx_holding.specs.Calm.{IsCalm, IsFit, IsReadable, StandsBy, TriesCalmly, VisitsCalmly};
ghost use Rattle.wx_recursor.specs.Seen.{identity_at, root_found, try_found, watched_at};
ghost use Rattle.wx_scan.specs.Told.{AreNames};
ghost use Rattle.wx_tree.specs.Paths.{Path};
ghost use Rattle.wx_tree.specs.Trees.{Tree};
ghost use Rattle.std.specs.Prelude.{◌≡◌, ◌&&◌, ◌∷◌, [], Bool, None, true, IfOk, OnOk};
ghost use Rattle.wx_scan.specs.Looked.{OnlyLooks};
ghost use Rattle.wx_recursor.specs.declared.errors.ScanFault.TheVariants.{Io, NotFound};
ghost use Rattle.wx_recursor.specs.declared.errors.ShownError.TheVariants.{Filter, PathScan};
ghost use Rattle.wx_recursor.specs.declared.work.Item.TheVariants.{Candidate, Visit};
ghost use Rattle.wx_recursor.specs.declared.work.Work.TheVariants.{Plain};
ghost use Rattle.wx_recursor.specs.Guarding.{unguarded};
ghost use Rattle.wx_recursor.specs.Holding.{gone, keep_retry, lose, lose_below, show};
ghost use Rattle.wx_recursor.specs.Identities.{is_of_directory};
ghost use Rattle.wx_recursor.specs.Owning.{owned};
ghost use Rattle.wx_recursor.specs.Steps.{refound, scanned, swept};
ghost use Rattle.wx_holding.specs.Backed.{KeepsWatches};
ghost use Rattle.wx_holding.specs.Effects.{Owns, Tries, Visits};
ghost use Rattle.wx_holding.specs.Holding.{state_of};

use crate::held::Held;
use std::alloc::Global;
use wx_error::RuntimeError;
use wx_recursor::{Found, Identity, Item, ScanFault, ShownError, Work};
use wx_recursor_lists::{has_guard_watch, lift_above, queue_entries};
use wx_scan::{Backend, Scanner};
use wx_text::{Copies, Memory};
use wx_tree::{Place, Root};

fn visit_item(alloc: Global, root: &Root) -> Result<Work, Memory>
    ensures { IfOk result (λ w. w ≡ Plain (Visit root.now)) }
{
    Ok(Work::Plain(Item::Visit(root.copy(alloc)?)))
}

fn candidate_item(alloc: Global, root: &Root, path: &Place) -> Result<Work, Memory>
    ensures { IfOk result (λ w. w ≡ Plain (Candidate root.now path.now)) }
{
    Ok(Work::Plain(Item::Candidate(root.copy(alloc)?, path.copy(alloc)?)))
}

/// Whether a root of this identity is scanned.
fn is_scanned(root: &Root, identity: &Identity) -> bool
    ensures { result ≡ (root.now.recursive && is_of_directory identity.now) }
{
    root.recursive && identity.is_of_directory()
}

impl Held {
    /// The root's ownership goes from the path down.
    pub fn lose(&mut self, root: &Root, path: &Place)
        ensures { state_of self.new ≡ lose root.now path.now (state_of self.old) }
    {
        self.owners.disown(root, path);
    }

    /// What the root owns below the path goes.
    fn lose_below(&mut self, root: &Root, path: &Place)
        ensures { state_of self.new ≡ lose_below root.now path.now (state_of self.old) }
    {
        self.owners.disown_below(root, path);
    }

    /// The owners that weren't seen in this epoch go.
    pub fn sweep(&mut self)
        ensures { state_of self.new ≡ swept (state_of self.old) }
    {
        self.owners.sweep();
        self.sweep_due = false;
    }

    /// The root is absent.
    fn miss_root(&mut self, alloc: Global, root: &Root) -> Result<(), Memory>
        ensures { OnOk result (state_of self.new ≡ lose root.now root.now.path (show (PathScan root.now.path NotFound) (state_of self.old))) }
    {
        self.show_scan(root.path.copy(alloc)?, ScanFault::NotFound)?;
        self.lose(root, &root.path);
        Ok(())
    }

    /// A look failed: it is shown, and one retry is kept.
    fn show_fault(
        &mut self,
        alloc: Global,
        root: &Root,
        path: &Place,
        at: Place,
        code: u32,
    ) -> Result<(), Memory>
        ensures { OnOk result (state_of self.new ≡ keep_retry root.now path.now (show (PathScan at (Io code)) (state_of self.old))) }
    {
        self.show_scan(at, ScanFault::Io(code))?;
        self.keep_retry(alloc, root, path)
    }

    /// The root is found again: its guard goes, and tombstones at and above it.
    fn find_again(&mut self, root: &Root)
        ensures { state_of self.new ≡ unguarded root.now (refound root.now (state_of self.old)) }
    {
        if has_guard_watch(root, self.guards.as_slice()) {
            lift_above(&root.path, &mut self.tombstones);
        }
        self.unguard(root);
    }

    fn own_root<B: Backend, S: Scanner>(
        &mut self,
        alloc: Global,
        root: &Root,
        identity: &Identity,
        follow: bool,
        back: &mut B,
        scan: &mut S,
    ) -> Result<(), Memory>
        ensures looked { OnlyLooks (S.looked scan.old) (S.looked scan.new) }
        ensures rest { S.rest scan.new ≡ S.rest scan.old }
        ensures place { S.place scan.new ≡ S.place scan.old }
        ensures state { OnOk result (Owns root.now root.now.path identity.now (root.now.recursive && is_of_directory identity.now) (Plain (Visit root.now)) (unguarded root.now (refound root.now (state_of self.old))) (state_of self.new)) }
        ensures watches { OnOk result (KeepsWatches (state_of self.old).registrations (state_of self.new).registrations (B.backing back.old) (B.backing back.new)) }
        ensures calm { (t : Tree) → IsCalm t follow (S.looked scan.old) (S.looked scan.new) (state_of self.old).registrations (B.backing back.old) (B.fits back.old t) → IsFit t root.now.path → identity.now ≡ identity_at t root.now.path → OnOk result ((state_of self.new ≡ owned root.now root.now.path identity.now (root.now.recursive && is_of_directory identity.now) (Plain (Visit root.now)) (watched_at t root.now.path) None (unguarded root.now (refound root.now (state_of self.old)))) × StandsBy t (state_of self.new).registrations (B.backing back.new) (B.fits back.new t)) }
    {
        let item = visit_item(alloc, root)?;
        let scans = is_scanned(root, identity);
        self.find_again(root);
        self.own(
            alloc, root, &root.path, identity, scans, item, follow, back, scan,
        )
    }

    /// Does what a look at a root asks for.
    pub fn visit<B: Backend, S: Scanner>(
        &mut self,
        alloc: Global,
        root: &Root,
        found: Found,
        follow: bool,
        back: &mut B,
        scan: &mut S,
    ) -> Result<(), Memory>
        ensures looked { OnlyLooks (S.looked scan.old) (S.looked scan.new) }
        ensures rest { S.rest scan.new ≡ S.rest scan.old }
        ensures place { S.place scan.new ≡ S.place scan.old }
        ensures state { OnOk result (Visits root.now found (state_of self.old) (state_of self.new)) }
        ensures watches { OnOk result (KeepsWatches (state_of self.old).registrations (state_of self.new).registrations (B.backing back.old) (B.backing back.new)) }
        ensures calm { (t : Tree) → IsCalm t follow (S.looked scan.old) (S.looked scan.new) (state_of self.old).registrations (B.backing back.old) (B.fits back.old t) → AreNames root.now.path → found ≡ root_found t root.now.path → OnOk result (VisitsCalmly t root.now found (state_of self.old) (state_of self.new) × StandsBy t (state_of self.new).registrations (B.backing back.new) (B.fits back.new t)) }
    {
        match found {
            Found::Missing => {
                self.miss_root(alloc, root)?;
                self.guard(alloc, root, follow, back, scan)
            }
            Found::Barred => {
                self.lose(root, &root.path);
                self.guard(alloc, root, follow, back, scan)
            }
            Found::Fault(at, code) => {
                self.show_fault(alloc, root, &root.path, at, code)?;
                self.guard(alloc, root, follow, back, scan)
            }
            Found::Here(identity) => self.own_root(alloc, root, &identity, follow, back, scan),
            Found::Rejected => Ok(()),
            Found::Refused(_) => Ok(()),
            Found::Entries(_) => Ok(()),
        }
    }

    fn miss_scan(&mut self, alloc: Global, root: &Root, path: &Place) -> Result<(), Memory>
        ensures { OnOk result (state_of self.new ≡ lose_below root.now path.now (show (PathScan path.now NotFound) (state_of self.old))) }
    {
        self.show_scan(path.copy(alloc)?, ScanFault::NotFound)?;
        self.lose_below(root, path);
        Ok(())
    }

    /// Does what a listing asks for.
    pub fn take_listing(
        &mut self,
        alloc: Global,
        root: &Root,
        path: &Place,
        found: Found,
    ) -> Result<(), Memory>
        ensures { OnOk result (state_of self.new ≡ scanned root.now path.now found (state_of self.old)) }
    {
        match found {
            Found::Missing => self.miss_scan(alloc, root, path),
            Found::Fault(at, code) => self.show_fault(alloc, root, path, at, code),
            Found::Entries(entries) => {
                queue_entries(alloc, root, path, entries.as_slice(), &mut self.queue)
            }
            Found::Barred => Ok(()),
            Found::Rejected => Ok(()),
            Found::Refused(_) => Ok(()),
            Found::Here(_) => Ok(()),
        }
    }

    fn miss_candidate(&mut self, alloc: Global, root: &Root, path: &Place) -> Result<(), Memory>
        ensures { OnOk result (state_of self.new ≡ gone root.now path.now (show (PathScan path.now NotFound) (state_of self.old))) }
    {
        self.show_scan(path.copy(alloc)?, ScanFault::NotFound)?;
        self.lose_gone(alloc, root, path)
    }

    /// The filter failed: it is shown, and one retry is kept.
    fn show_filter(
        &mut self,
        alloc: Global,
        root: &Root,
        path: &Place,
        error: RuntimeError,
    ) -> Result<(), Memory>
        ensures { OnOk result (state_of self.new ≡ keep_retry root.now path.now (show (Filter error) (state_of self.old))) }
    {
        self.shown.push(ShownError::Filter(error))?;
        self.keep_retry(alloc, root, path)
    }

    fn own_candidate<B: Backend, S: Scanner>(
        &mut self,
        alloc: Global,
        root: &Root,
        path: &Place,
        identity: &Identity,
        follow: bool,
        back: &mut B,
        scan: &mut S,
    ) -> Result<(), Memory>
        ensures looked { OnlyLooks (S.looked scan.old) (S.looked scan.new) }
        ensures rest { S.rest scan.new ≡ S.rest scan.old }
        ensures place { S.place scan.new ≡ S.place scan.old }
        ensures state { OnOk result (Owns root.now path.now identity.now true (Plain (Candidate root.now path.now)) (state_of self.old) (state_of self.new)) }
        ensures watches { OnOk result (KeepsWatches (state_of self.old).registrations (state_of self.new).registrations (B.backing back.old) (B.backing back.new)) }
        ensures calm { (t : Tree) → IsCalm t follow (S.looked scan.old) (S.looked scan.new) (state_of self.old).registrations (B.backing back.old) (B.fits back.old t) → IsFit t path.now → identity.now ≡ identity_at t path.now → OnOk result ((state_of self.new ≡ owned root.now path.now identity.now true (Plain (Candidate root.now path.now)) (watched_at t path.now) None (state_of self.old)) × StandsBy t (state_of self.new).registrations (B.backing back.new) (B.fits back.new t)) }
    {
        let item = candidate_item(alloc, root, path)?;
        self.own(alloc, root, path, identity, true, item, follow, back, scan)
    }

    /// Does what a look at a candidate asks for.
    pub fn try_candidate<B: Backend, S: Scanner>(
        &mut self,
        alloc: Global,
        root: &Root,
        path: &Place,
        found: Found,
        follow: bool,
        back: &mut B,
        scan: &mut S,
    ) -> Result<(), Memory>
        ensures looked { OnlyLooks (S.looked scan.old) (S.looked scan.new) }
        ensures rest { S.rest scan.new ≡ S.rest scan.old }
        ensures place { S.place scan.new ≡ S.place scan.old }
        ensures state { OnOk result (Tries root.now path.now found (state_of self.old) (state_of self.new)) }
        ensures watches { OnOk result (KeepsWatches (state_of self.old).registrations (state_of self.new).registrations (B.backing back.old) (B.backing back.new)) }
        ensures calm { (t : Tree) (ok : Path → Bool) → IsCalm t follow (S.looked scan.old) (S.looked scan.new) (state_of self.old).registrations (B.backing back.old) (B.fits back.old t) → IsReadable t path.now → found ≡ try_found t ok root.now path.now → OnOk result (TriesCalmly t ok root.now path.now found (state_of self.old) (state_of self.new) × StandsBy t (state_of self.new).registrations (B.backing back.new) (B.fits back.new t)) }
    {
        match found {
            Found::Missing => self.miss_candidate(alloc, root, path),
            Found::Barred => {
                self.lose(root, path);
                Ok(())
            }
            Found::Rejected => {
                self.lose(root, path);
                Ok(())
            }
            Found::Fault(at, code) => self.show_fault(alloc, root, path, at, code),
            Found::Refused(error) => self.show_filter(alloc, root, path, error),
            Found::Here(identity) => self.own_candidate(
                alloc, root, path, &identity, follow, back, scan,
            ),
            Found::Entries(_) => Ok(()),
        }
    }
}
