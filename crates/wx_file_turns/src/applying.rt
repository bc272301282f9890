// How settings are applied to what is watched.
ghost use Rattle.std.specs.Prelude.{◌≡◌, List, ℕ, Bool, true, false, IfErr, IfOk, OnOk};
ghost use Rattle.wx_tree.specs.Paths.{Path};
ghost use Rattle.wx_tree.specs.Trees.{Tree};
ghost use Rattle.wx_scan.specs.Told.{IsNamed};
ghost use Rattle.wx_file_turns.specs.Calm.{Foresees};
ghost use Rattle.wx_file_turns.specs.FewSteps.{earlier_roots};
ghost use Rattle.wx_file_turns.specs.Settling.{AnyOf, AreRefreshed, GoesOnSettling, IsJustApplied, Walked, Walks};
ghost use Rattle.wx_machine.specs.Answer.{BreaksHere};
ghost use Rattle.wx_machine.specs.Due.{Applies, Comes, Makes, Open, agenda, is_quitting};
ghost use Rattle.wx_machine.specs.Files.{are_all_in, are_same_roots, is_same_switch, is_same_watcher};
ghost use Rattle.wx_journal.specs.declared.entry.Entry.{Entry as AnEntry};
ghost use Rattle.wx_machine.specs.Settings.{settings};
ghost use Rattle.wx_machine.specs.Start.{Start};
ghost use Rattle.wx_paths.specs.Paths.{is_absolute};
ghost use Rattle.wx_action.specs.Stands.{Owes, Stands};
ghost use Rattle.wx_file_turns.specs.Applying.{IsBehind, Refreshes, ServesStill, any_keeps, any_serves, has_same, is_settled, keeps_by, serves_by};
ghost use Rattle.wx_file_turns.specs.Judged.{IsUpToDate};
ghost use Rattle.wx_file_turns.specs.Serves.{AttendsAlone, CountsOnward, PaysOn};
ghost use Rattle.wx_file_turns.specs.Standing.{FilesStand, WatchesBy, owing};
ghost use Rattle.wx_file_turns.specs.Stepping.{IsWatching, StaysBrought};

use crate::files::{Files, Watching};
use crate::making::make_backend;
use std::alloc::Global;
use wx_action::{Worker, World};
use wx_config::Config;
use wx_error::CriticalError;
use wx_fs::{Recursor, kept_roots};
use wx_journal::{Entry, Journal};
use wx_recursor_lists::has_root;
use wx_scan::Backend;
use wx_text::{Copies, Memory};
use wx_tree::Root;
use wx_watch::Watcher;
use wx_words::TextPath;

/// Whether two watchers are the same.
fn is_same_watcher(a: Watcher, b: Watcher) -> bool
    ensures { result ≡ is_same_watcher a b }
{
    match (a, b) {
        (Watcher::Native, Watcher::Native) => true,
        (Watcher::Poll(interval), Watcher::Poll(other)) => interval == other,
        (_, _) => false,
    }
}

/// Whether each of these roots is one of those.
fn are_all_in(roots: &[Root], others: &[Root]) -> bool
    ensures { result ≡ are_all_in roots.now others.now }
{
    let mut rest = roots;
    while let [first, after @ ..] = rest {
        if !has_root(first, others) {
            return false;
        }
        rest = after;
    }
    true
}

/// Whether these are the same roots, in whatever order.
fn are_same_roots(roots: &[Root], others: &[Root]) -> bool
    ensures { result ≡ are_same_roots roots.now others.now }
{
    are_all_in(roots, others) && are_all_in(others, roots)
}

/// Whether both are on, or both off.
fn is_same_switch(on: bool, other: bool) -> bool
    ensures { result ≡ is_same_switch on other }
{
    if on { other } else { !other }
}

impl<B: Backend + Drop> Watching<B> {
    /// Whether its backend was made in the way that these settings say.
    fn serves(&self, config: &Config) -> bool
        ensures { result ≡ serves_by config.now self.now }
    {
        is_same_watcher(*config.file_watcher.get(), self.recursor.kind)
            && is_same_switch(*config.follow_symlinks.get(), self.recursor.follow)
    }

    /// Whether it has the roots and the filter that these settings say. It fails only for want of memory.
    fn has_same(&self, alloc: Global, config: &Config) -> Result<bool, Memory>
        ensures { IfOk result (λ same. same ≡ has_same config.now self.now) }
    {
        let roots = kept_roots(alloc, &self.recursor.cwd, config.pathset.get().as_slice())?;
        let held = self.recursor.held();
        let same = are_same_roots(roots.as_slice(), held.roots.as_slice());
        Ok(same && held.filter == config.filterer)
    }

    /// Whether it has them, and nothing is to be tried again. It fails only for want of memory.
    fn is_settled(&self, alloc: Global, config: &Config) -> Result<bool, Memory>
        ensures { IfOk result (λ settled. settled ≡ is_settled config.now self.now) }
    {
        let same = self.has_same(alloc, config)?;
        Ok(same && !self.recursor.needs_retry())
    }

    /// Sets the roots and the filter that these settings say, where either changed or something is to be tried again. It fails
    /// only for want of memory.
    fn refresh(&mut self, alloc: Global, config: &Config) -> Result<(), Memory>
        ensures watches { (folder : List ℕ) (back : ℕ) → ServesStill folder config.now back self.old → OnOk result (WatchesBy folder config.now back self.new) }
        ensures refreshes { OnOk result (Refreshes (is_settled config.now self.old) config.now self.old self.new) }
        ensures others { (self.new.recursor.back ≡ self.old.recursor.back) × (self.new.recursor.follow ≡ self.old.recursor.follow) × (self.new.recursor.cwd ≡ self.old.recursor.cwd) }
    {
        let settled = self.is_settled(alloc, config)?;
        if settled {
            return Ok(());
        }
        self.recursor
            .reconcile(config.pathset.get(), config.filterer)
    }
}

impl<B: Backend + Drop> Watching<B> {
    /// Whether it keeps watches as these settings say already. It fails only for want of memory.
    fn keeps(&self, alloc: Global, config: &Config) -> Result<bool, Memory>
        ensures { IfOk result (λ keeps. keeps ≡ keeps_by config.now self.now) }
    {
        if config.pathset.get().is_empty() || !self.serves(config) {
            return Ok(false);
        }
        self.has_same(alloc, config)
    }
}

impl<B: Backend + Drop> Files<B> {
    /// Whether the same is watched in the same way by these settings as it was before. It fails only for want of memory.
    fn keeps(&self, config: &Config) -> Result<bool, Memory>
        ensures { IfOk result (λ keeps. keeps ≡ any_keeps config.now self.now.source) }
    {
        match &self.source {
            None => Ok(false),
            Some(watching) => watching.keeps(self.alloc, config),
        }
    }

    /// Whether a backend stands that was made in the way that these settings say.
    fn serves(&self, config: &Config) -> bool
        ensures { result ≡ any_serves config.now self.now.source }
    {
        match &self.source {
            None => false,
            Some(watching) => watching.serves(config),
        }
    }

    /// Sets the roots and the filter that the settings say, which were applied. The backend that stands serves them. It fails only
    /// for want of memory.
    fn refresh(&mut self, config: &Config) -> Result<(), Memory>
        requires { any_serves config.now self.old.source ≡ true }
        ensures stands { (start : Start) (past : List AnEntry) → IsBehind start self.old past → config.now ≡ settings start past → OnOk result (FilesStand start self.new past) }
        ensures refreshed { AreRefreshed result config.now self.old.source self.new.source }
        ensures intake { self.new.intake ≡ self.old.intake }
    {
        match &mut self.source {
            None => Ok(()),
            Some(watching) => watching.refresh(self.alloc, config),
        }
    }
}

/// Begins to keep watches as the settings say, over a backend that is made. It fails where none can be made, and for want of
/// memory.
fn begin<W: World>(
    alloc: Global,
    folder: &TextPath,
    worker: &Worker,
    world: &mut W,
    journal: &mut Journal,
) -> Result<Watching<W::Back>, CriticalError>
    ghost start: { Start }
    requires owes { Owes start worker.now journal.old.past (Comes Makes Open) }
    requires going { is_quitting journal.old.past ≡ false }
    requires applied { IsUpToDate start journal.old.past }
    requires folder { folder.now ≡ start.folder }
    requires absolute { is_absolute folder.now ≡ true }
    ensures alone { AttendsAlone start worker.now journal.old (W.seen world.old) journal.new (W.seen world.new) }
    ensures onward { CountsOnward journal.old.past (W.seen world.old) journal.new.past (W.seen world.new) }
    ensures served { OnOk result (agenda start journal.new.past ≡ Open) }
    ensures watching { IfOk result (λ watching. IsWatching start watching journal.new.past) }
    ensures walks { (t : Tree) (ok : ℕ → Path → Bool) → IsNamed t → Foresees t (W.seen world.old).looked → IsJustApplied start worker.now.config journal.old.past → IfOk result (λ watching. Walks W.Back.backing W.Back.fits t ok start journal.new.past watching) }
    ensures brought { StaysBrought start journal.old.past journal.new.past }
    ensures breaks { IfErr result (λ error. BreaksHere start journal.new.past error) }
{
    let cwd = folder.copy(alloc)?;
    let kind = *worker.config.file_watcher.get();
    let follow = *worker.config.follow_symlinks.get();
    let (back, made) = make_backend(alloc, worker, kind, follow, world, journal)?;
    let mut recursor = Recursor::new(alloc, made, kind, follow, cwd)?;
    recursor.reconcile(worker.config.pathset.get(), worker.config.filterer)?;
    Ok(Watching { back, recursor })
}

/// Keeps watches as the settings say, which were applied and name some path. A backend is made where none stands that serves them.
/// It fails where one can't be made, and for want of memory.
fn watch<W: World>(
    files: &mut Files<W::Back>,
    worker: &Worker,
    world: &mut W,
    journal: &mut Journal,
) -> Result<(), CriticalError>
    ghost start: { Start }
    requires stands { Stands start worker.now journal.old.past }
    requires going { is_quitting journal.old.past ≡ false }
    requires behind { IsBehind start files.old journal.old.past }
    ensures alone { AttendsAlone start worker.now journal.old (W.seen world.old) journal.new (W.seen world.new) }
    ensures onward { CountsOnward journal.old.past (W.seen world.old) journal.new.past (W.seen world.new) }
    ensures served { OnOk result (agenda start journal.new.past ≡ Open) }
    ensures files { OnOk result (FilesStand start files.new journal.new.past) }
    ensures intake { files.new.intake ≡ files.old.intake }
    ensures walks { (t : Tree) (ok : ℕ → Path → Bool) → IsNamed t → Foresees t (W.seen world.old).looked → IsJustApplied start worker.now.config journal.old.past → AnyOf (λ w. Walked W.Back.backing W.Back.fits t ok start (earlier_roots start journal.old.past) w) files.old.source → OnOk result (AnyOf (λ w. Walks W.Back.backing W.Back.fits t ok start journal.new.past w) files.new.source) }
    ensures breaks { IfErr result (λ error. BreaksHere start journal.new.past error) }
{
    if files.serves(&worker.config) {
        return Ok(files.refresh(&worker.config)?);
    }
    files.source = None;
    let watching = begin(files.alloc, &files.folder, worker, world, journal)?;
    files.source = Some(watching);
    Ok(())
}

/// Applies the settings to what is watched, which weren't applied yet. Where no path is to be watched any more the backend goes.
/// Else one is made where none stands that serves them, and the roots are set where they or the filter changed, or something is to
/// be tried again. It fails where a backend can't be made, and for want of memory.
pub(crate) fn apply<W: World>(
    files: &mut Files<W::Back>,
    worker: &Worker,
    world: &mut W,
    journal: &mut Journal,
) -> Result<(), CriticalError>
    ghost start: { Start }
    requires owes { Owes start worker.now journal.old.past (Comes Applies Open) }
    requires going { is_quitting journal.old.past ≡ false }
    requires files { FilesStand start files.old journal.old.past }
    ensures alone { AttendsAlone start worker.now journal.old (W.seen world.old) journal.new (W.seen world.new) }
    ensures served { OnOk result (agenda start journal.new.past ≡ Open) }
    ensures files { OnOk result (FilesStand start files.new journal.new.past) }
    ensures breaks { IfErr result (λ error. BreaksHere start journal.new.past error) }
    ensures settles { GoesOnSettling W.Back.backing W.Back.fits result start files.old journal.old.past (W.seen world.old).looked files.new journal.new.past (W.seen world.new).looked }
    ensures paid { PaysOn journal.old.past (W.seen world.old) (owing files.old) journal.new.past (W.seen world.new) (owing files.new) }
{
    worker.reserve(1, journal)?;
    let same = files.keeps(&worker.config)?;
    let revision = worker.config.change_signal;
    let backs = journal.backs();
    let items = journal.items();
    journal.push(Entry::Applied(revision));
    files.applied = Some(revision);
    files.intake.begin(revision, same, backs, items);
    if worker.config.pathset.get().is_empty() {
        files.source = None;
        return Ok(());
    }
    watch(files, worker, world, journal)
}
