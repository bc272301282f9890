// A recursor over a backend.
ghost use Rattle.wx_fs.specs.Settling.{BackendStands, Begins, Settles, StepsOn};
ghost use Rattle.wx_scan.specs.Told.{IsNamed};
ghost use Rattle.wx_holding.specs.Calm.{IsStill};
ghost use Rattle.wx_settle.specs.Runs.{RecursorReached};
ghost use Rattle.wx_tree.specs.Trees.{Tree};
ghost use Rattle.std.specs.Prelude.{◌≡◌, ◌-◌, ◌^◌, ◌&&◌, Bool, min, true, false, [], Some, None, is_some, not, IfNone, IfOk, IfSome, OnErr, OnOk};
ghost use Rattle.wx_fs.specs.Kept.{kept_roots};
ghost use Rattle.wx_fs.specs.Standing.{IsKept};
ghost use Rattle.wx_fs.specs.Told.{TellsReplay, TellsStep};
ghost use Rattle.wx_holding.specs.Holding.{state_of};
ghost use Rattle.wx_lane.specs.Public.{event_is_public};
ghost use Rattle.wx_paths.specs.Paths.{is_absolute};
ghost use Rattle.wx_recursor.specs.Calls.{fresh, has_work, needs_retry, reconciled, rescanned};
ghost use Rattle.wx_recursor.specs.Rebuilds.{installed, prepared, replay_count, replay_deferred};
ghost use Rattle.wx_recursor.specs.declared.answers.BackendPlace.TheVariants.{Dropped};
ghost use Rattle.wx_scan.specs.Looked.{OnlyLooks};
ghost use Rattle.wx_step.specs.Asking.{AreAllowed};
ghost use Rattle.wx_step.specs.Rests.{IsAtRest};
ghost use Rattle.wx_step.specs.Stepped.{LooksOrSweeps};
ghost use Rattle.wx_tree.specs.Paths.{Path};

use crate::handing::handed_errors;
use crate::rooting::kept_roots;
use std::alloc::Global;
use std::mem;
use wx_error::RuntimeError;
use wx_holding::Held;
use wx_lane::event_is_public;
use wx_rebuild::{defer, install, prepare, replay, replay_count};
use wx_scan::{Backend, DirCheck, Notify, Scanner};
use wx_step::step;
use wx_text::{List, Memory};
use wx_watch::{WatchedPath, Watcher};
use wx_words::TextPath;

/// What a step or a replay shows, in order, and whether it asks for a rebuild of the backend.
#[derive(Drop)]
pub struct StepResult {
    pub errors: List<RuntimeError>,
    pub rebuild_backend: bool,
}

/// Keeps watches on trees of directories, as its roots ask, by steps. A step, a replay, a preparation or an installation that
/// found no memory has spent it. Then the calls that it made stand, each later call that can answer want of memory does so and
/// calls nothing, and it has no work.
pub struct Recursor<B: Backend + Drop> {
    pub(crate) alloc: Global,
    pub held: Held,
    pub back: Option<B>,
    pub kind: Watcher,
    /// Whether links are followed.
    pub follow: bool,
    /// The folder from which paths are taken.
    pub cwd: TextPath,
    pub spent: bool,
    /// Nothing is left that could be let go, as the last step answered.
    pub at_rest: bool,
    pub ghost keeps: { ∥ (spent ≡ false → IsKept (state_of held)) ∥₁ },
    pub ghost rests: { ∥ (spent ≡ false → at_rest ≡ true → IsAtRest (state_of held)) ∥₁ },
}

// Its parts are dropped by one call: docs/DESIGN.md, "What proofs cost".
impl<B: Backend + Drop> Drop for Recursor<B> {
    fn drop(self) {
        let Recursor {
            alloc: _,
            held: _,
            back: _,
            kind: _,
            follow: _,
            cwd: _,
            spent: _,
            at_rest: _,
        } = self;
    }
}

impl<B: Backend + Drop> Recursor<B> {
    /// A recursor over a backend that watches nothing yet. Its errors are of this kind of watcher; paths that aren't absolute are
    /// taken from `cwd`. It takes no memory.
    pub fn new(
        alloc: Global,
        back: B,
        kind: Watcher,
        follow: bool,
        cwd: TextPath,
    ) -> Result<Recursor<B>, Memory>
        requires empty { (B.backing back).registrations ≡ [] }
        requires absolute { is_absolute cwd ≡ true }
        ensures state { IfOk result (λ r. state_of r.held ≡ fresh) }
        ensures backend { IfOk result (λ r. r.back ≡ Some back) }
        ensures given { IfOk result (λ r. (r.kind ≡ kind) × (r.follow ≡ follow) × (r.cwd ≡ cwd)) }
        ensures unspent { IfOk result (λ r. r.spent ≡ false) }
        ensures reached { IfOk result (λ r. (t : Tree) → RecursorReached t [] (state_of r.held)) }
        ensures stands { (t : Tree) → (B.backing back).exact ≡ true → B.fits back t → IfOk result (λ r. BackendStands B.backing B.fits t (state_of r.held).registrations r.back) }
    {
        Ok(Recursor {
            alloc,
            held: Held::new(alloc),
            back: Some(back),
            kind,
            follow,
            cwd,
            spent: false,
            at_rest: false,
        })
    }

    /// Sets the roots, made absolute by the folder, normalised, and each once, and the number of the filter, and begins an epoch.
    /// It fails only for want of memory, and changes nothing then.
    pub fn reconcile(&mut self, roots: &List<WatchedPath>, filter: u32) -> Result<(), Memory>
        ensures state { OnOk result (state_of self.new.held ≡ reconciled (kept_roots self.old.cwd roots.now) filter (state_of self.old.held)) }
        ensures unchanged { OnErr result (state_of self.new.held ≡ state_of self.old.held) }
        ensures spent { OnOk result (self.old.spent ≡ false) }
        ensures others { (self.new.back ≡ self.old.back) × (self.new.kind ≡ self.old.kind) × (self.new.follow ≡ self.old.follow) × (self.new.cwd ≡ self.old.cwd) × (self.new.spent ≡ self.old.spent) }
        ensures begins { OnOk result (Begins (kept_roots self.old.cwd roots.now) (state_of self.old.held) (state_of self.new.held)) }
    {
        if self.spent {
            return Err(Memory);
        }
        let kept = kept_roots(self.alloc, &self.cwd, roots.as_slice())?;
        self.at_rest = false;
        self.held.reconcile(self.alloc, kept, filter)
    }

    /// A reconcile with the roots and the filter that stand, which asks for a rebuild. It fails only for want of memory, and
    /// changes nothing then.
    pub fn rescan(&mut self) -> Result<(), Memory>
        ensures state { OnOk result (state_of self.new.held ≡ rescanned (state_of self.old.held)) }
        ensures unchanged { OnErr result (state_of self.new.held ≡ state_of self.old.held) }
        ensures spent { OnOk result (self.old.spent ≡ false) }
        ensures others { (self.new.back ≡ self.old.back) × (self.new.kind ≡ self.old.kind) × (self.new.follow ≡ self.old.follow) × (self.new.cwd ≡ self.old.cwd) × (self.new.spent ≡ self.old.spent) }
    {
        if self.spent {
            return Err(Memory);
        }
        self.at_rest = false;
        self.held.rescan(self.alloc)
    }

    /// Does one step: the first of what is queued, or the sweep. It fails only for want of memory.
    pub fn step<S: Scanner, D: DirCheck>(
        &mut self,
        scan: &mut S,
        dirs: &mut D,
    ) -> Result<StepResult, Memory>
        requires installed { is_some self.old.back ≡ true }
        requires allowed { AreAllowed (D.under dirs.old) (state_of self.old.held).roots }
        ensures looked { OnlyLooks (S.looked scan.old) (S.looked scan.new) }
        ensures raised { OnOk result (LooksOrSweeps (state_of self.old.held) (state_of self.new.held) (S.looked scan.old) (S.looked scan.new)) }
        ensures rest { S.rest scan.new ≡ S.rest scan.old }
        ensures place { S.place scan.new ≡ S.place scan.old }
        ensures under { D.under dirs.new ≡ D.under dirs.old }
        ensures dirs_place { D.place dirs.new ≡ D.place dirs.old }
        ensures kept { (b : D.Base) → D.kept b dirs.old → D.kept b dirs.new }
        ensures agrees { (ok : Path → Bool) → D.agrees ok dirs.new → D.agrees ok dirs.old }
        ensures state { IfOk result (λ r. TellsStep self.old.kind (state_of self.old.held) (state_of self.new.held) r.errors r.rebuild_backend) }
        ensures spent { OnOk result ((self.old.spent ≡ false) × (self.new.spent ≡ false)) }
        ensures fails { OnErr result (self.new.spent ≡ true) }
        ensures idle { self.old.spent ≡ true → (self.new ≡ self.old) × (scan.new ≡ scan.old) × (dirs.new ≡ dirs.old) }
        ensures others { (is_some self.new.back ≡ true) × (self.new.kind ≡ self.old.kind) × (self.new.follow ≡ self.old.follow) × (self.new.cwd ≡ self.old.cwd) }
        ensures settles { (t : Tree) → self.old.follow ≡ false → IsStill t (S.looked scan.old) (S.looked scan.new) → IsNamed t → BackendStands B.backing B.fits t (state_of self.old.held).registrations self.old.back
            → IfOk result (λ r. StepsOn t self.old.kind (λ ok. D.agrees ok dirs.new) (BackendStands B.backing B.fits t (state_of self.new.held).registrations self.new.back) (state_of self.old.held) (state_of self.new.held) r.errors r.rebuild_backend) }
    {
        if self.spent {
            return Err(Memory);
        }
        self.spent = true;
        let shown = match &mut self.back {
            Some(back) => step(
                self.alloc,
                self.at_rest,
                self.follow,
                &mut self.held,
                back,
                scan,
                dirs,
            )?,
            None => return Err(Memory),
        };
        let errors = handed_errors(self.alloc, self.kind, shown.errors)?;
        self.at_rest = shown.at_rest;
        self.spent = false;
        Ok(StepResult {
            errors,
            rebuild_backend: shown.asks_rebuild,
        })
    }

    /// Drops the backend. What was registered waits for replay, but for what is left out. It fails only for want of memory.
    pub fn prepare_backend_rebuild(&mut self) -> Result<(), Memory>
        ensures state { OnOk result (state_of self.new.held ≡ prepared (state_of self.old.held)) }
        ensures backend { OnOk result (self.new.back ≡ None) }
        ensures spent { OnOk result ((self.old.spent ≡ false) × (self.new.spent ≡ false)) }
        ensures fails { OnErr result ((self.new.spent ≡ true) × (self.new.back ≡ self.old.back)) }
        ensures idle { self.old.spent ≡ true → self.new ≡ self.old }
        ensures others { (self.new.kind ≡ self.old.kind) × (self.new.follow ≡ self.old.follow) × (self.new.cwd ≡ self.old.cwd) }
    {
        if self.spent {
            return Err(Memory);
        }
        self.spent = true;
        prepare(self.alloc, &mut self.held)?;
        self.back = None;
        self.at_rest = false;
        self.spent = false;
        Ok(())
    }

    /// Installs another backend, which watches nothing yet, after the old one was dropped. It fails only for want of memory.
    pub fn install_backend(&mut self, back: B) -> Result<(), Memory>
        requires dropped { (state_of self.old.held).backend ≡ Dropped }
        requires empty { (B.backing back).registrations ≡ [] }
        ensures state { OnOk result (state_of self.new.held ≡ installed (state_of self.old.held)) }
        ensures backend { OnOk result (self.new.back ≡ Some back) }
        ensures spent { OnOk result ((self.old.spent ≡ false) × (self.new.spent ≡ false)) }
        ensures fails { OnErr result ((self.old.spent ≡ true) × (self.new ≡ self.old)) }
        ensures others { (self.new.kind ≡ self.old.kind) × (self.new.follow ≡ self.old.follow) × (self.new.cwd ≡ self.old.cwd) }
    {
        if self.spent {
            return Err(Memory);
        }
        install(&mut self.held);
        self.back = Some(back);
        self.at_rest = false;
        Ok(())
    }

    /// Watches what waits again, one after the other, until a rebuild is asked for or nothing more may be watched. It fails only
    /// for want of memory.
    pub fn replay_backend_snapshot<S: Scanner>(
        &mut self,
        scan: &mut S,
    ) -> Result<StepResult, Memory>
        requires installed { is_some self.old.back ≡ true }
        ensures looked { OnlyLooks (S.looked scan.old) (S.looked scan.new) }
        ensures rest { S.rest scan.new ≡ S.rest scan.old }
        ensures place { S.place scan.new ≡ S.place scan.old }
        ensures state { IfOk result (λ r. TellsReplay self.old.kind (state_of self.old.held) (state_of self.new.held) r.errors r.rebuild_backend) }
        ensures spent { OnOk result ((self.old.spent ≡ false) × (self.new.spent ≡ false)) }
        ensures fails { OnErr result (self.new.spent ≡ true) }
        ensures idle { self.old.spent ≡ true → (self.new ≡ self.old) × (scan.new ≡ scan.old) }
        ensures others { (is_some self.new.back ≡ true) × (self.new.kind ≡ self.old.kind) × (self.new.follow ≡ self.old.follow) × (self.new.cwd ≡ self.old.cwd) }
    {
        if self.spent {
            return Err(Memory);
        }
        self.spent = true;
        match &mut self.back {
            Some(back) => replay(self.alloc, &mut self.held, back, scan)?,
            None => return Err(Memory),
        }
        let shown = mem::replace(&mut self.held.shown, Vec::new(self.alloc));
        let rebuild_backend = self.held.asks_rebuild;
        self.held.asks_rebuild = false;
        let errors = handed_errors(self.alloc, self.kind, shown)?;
        self.at_rest = false;
        self.spent = false;
        Ok(StepResult {
            errors,
            rebuild_backend,
        })
    }

    /// How many registrations there are, those that wait among them, and guards. It ends at the greatest number.
    pub fn replay_count(&self) -> u64
        ensures { result ≡ min (replay_count (state_of self.now.held)) (2 ^ 64 - 1) }
    {
        replay_count(&self.held)
    }

    /// What waits for replay waits for a later reconcile.
    pub fn defer_replay(&mut self)
        ensures state { state_of self.new.held ≡ replay_deferred (state_of self.old.held) }
        ensures others { (self.new.back ≡ self.old.back) × (self.new.kind ≡ self.old.kind) × (self.new.follow ≡ self.old.follow) × (self.new.cwd ≡ self.old.cwd) × (self.new.spent ≡ self.old.spent) }
    {
        defer(&mut self.held);
        self.at_rest = false;
    }

    /// Whether something is queued, or a sweep is owed. Once it is spent there is no work.
    pub fn has_work(&self) -> bool
        ensures works { result ≡ (not self.now.spent && has_work (state_of self.now.held).queue (state_of self.now.held).sweep_due) }
        ensures settled { self.now.spent ≡ false → result ≡ false → Settles (state_of self.now.held) }
    {
        !self.spent && self.held.has_work()
    }

    /// Whether a retry is kept, a path is skipped, nothing more may be watched, or a replay was deferred.
    pub fn needs_retry(&self) -> bool
        ensures { result ≡ needs_retry (state_of self.now.held) }
    {
        self.held.needs_retry()
    }

    /// Whether this notification is public for the folder and the roots that stand: it names no path, or one that, seen from the
    /// folder and normalised, is a root, lies below a recursive root, or is a direct entry of another root. It takes no memory.
    pub fn event_is_public(&self, n: &Notify) -> bool
        ensures { result ≡ event_is_public self.now.cwd (state_of self.now.held).roots n.now }
    {
        event_is_public(n, &self.cwd, self.held.roots.as_slice())
    }

    /// The backend, where one is installed.
    pub fn backend(&self) -> Option<&B>
        ensures none { IfNone result (self.now.back ≡ None) }
        ensures some { IfSome result (λ back. self.now.back ≡ Some back.now) }
    {
        self.back.as_ref()
    }

    /// What it holds.
    pub fn held(&self) -> &Held
        ensures { result.now ≡ self.now.held }
    {
        &self.held
    }
}
