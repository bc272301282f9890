// Worked runs. What is said of each was worked out by hand from the rules.
ghost use Rattle.std.specs.Prelude.{◌≡◌, ◌+◌, true, false, [], ◌∷◌, ◌++◌, map, codes};
ghost use Rattle.wx_watch.specs.declared.scan_fault.ScanFault.TheVariants.{NotFound as HandedNotFound};
ghost use Rattle.wx_watch.specs.declared.source_errors.FsWatcherError.TheVariants.{PathScan as HandedScan};
ghost use Rattle.wx_watch.specs.declared.watched.Watcher.TheVariants.{Native};
ghost use Rattle.wx_error.specs.declared.runtime.RuntimeError.TheVariants.{FsWatcher};
ghost use Rattle.wx_tree.specs.Trees.{guards, walk};
ghost use Rattle.wx_recursor.specs.declared.errors.ScanFault.TheVariants.{NotFound};
ghost use Rattle.wx_recursor.specs.declared.errors.ShownError.TheVariants.{PathAdd, PathScan};
ghost use Rattle.wx_recursor.specs.Calls.{has_work, needs_retry};
ghost use Rattle.wx_recursor.specs.Written.{handed_error};
ghost use Rattle.wx_recursor_tests.specs.Rows.{
  a_gone,
  a_made,
  all_levels,
  b_changed,
  b_made,
  before_changes,
  failing,
  of_three_roots,
  one_level,
  refuses_d,
  refusing_tree,
  scanned_anew,
  three_roots,
  w,
  wa,
  wab,
  wb,
  wde,
  wno,
};
ghost use Rattle.wx_recursor_tests.specs.Worked.{a_fault, guarding, owned, registered};

/// A recursive root owns all directories below it. Where only an inner root is left, the rest is unwatched, the deepest first.
pub fn levels()
    ensures first { owned all_levels ≡ w ∷ wa ∷ wab ∷ [] }
    ensures registered { registered all_levels ≡ w ∷ wa ∷ wab ∷ [] }
    ensures second { owned one_level ≡ wa ∷ [] }
    ensures rest { registered one_level ≡ wa ∷ [] }
    ensures order { one_level.unwatched ≡ wab ∷ w ∷ [] }
    ensures quiet { all_levels.shown ++ one_level.shown ≡ [] }
{}

/// A watch that fails twice is shown twice. After the first time a rebuild is asked for, after the second the path is skipped.
pub fn failures()
    ensures shown { failing.shown ≡ PathAdd wa a_fault ∷ PathAdd wa a_fault ∷ [] }
    ensures rebuilds { failing.rebuilds ≡ 1 }
    ensures owned { owned failing ≡ w ∷ [] }
    ensures registered { registered failing ≡ w ∷ [] }
    ensures again { needs_retry failing.state ≡ true }
    ensures idle { has_work failing.state.queue failing.state.sweep_due ≡ false }
{}

/// A refused directory isn't owned, a root below it is, and an absent root is guarded and shown.
pub fn roots()
    ensures owned { owned of_three_roots ≡ w ∷ wde ∷ [] }
    ensures registered { registered of_three_roots ≡ w ∷ wde ∷ [] }
    ensures guards { guarding of_three_roots ≡ w ∷ [] }
    ensures shown { of_three_roots.shown ≡ PathScan wno NotFound ∷ [] }
    ensures handed { map (handed_error Native) of_three_roots.shown ≡ FsWatcher Native (HandedScan (codes "/w/no") HandedNotFound) ∷ [] }
    ensures idle { has_work of_three_roots.state.queue of_three_roots.state.sweep_due ≡ false }
{}

/// The walk and the guards of the same roots.
pub fn walk_of_roots()
    ensures walk { walk refusing_tree three_roots refuses_d ≡ w ∷ wde ∷ [] }
    ensures guards { guards refusing_tree three_roots ≡ w ∷ [] }
{}

/// What is owned follows each change that is told, and a rescan asks for a rebuild.
pub fn changes()
    ensures before { owned before_changes ≡ w ∷ [] }
    ensures made { owned a_made ≡ w ∷ wa ∷ [] }
    ensures gone { owned a_gone ≡ w ∷ [] }
    ensures renamed { owned b_made ≡ w ∷ wb ∷ [] }
    ensures unsure { owned b_changed ≡ w ∷ wb ∷ [] }
    ensures registered { registered b_changed ≡ w ∷ wb ∷ [] }
    ensures quiet { before_changes.shown ++ a_made.shown ++ a_gone.shown ++ b_made.shown ++ b_changed.shown ++ scanned_anew.shown ≡ [] }
    ensures never { before_changes.rebuilds + a_made.rebuilds + a_gone.rebuilds + b_made.rebuilds + b_changed.rebuilds ≡ 0 }
    ensures rescanned { scanned_anew.rebuilds ≡ 1 }
    ensures still { owned scanned_anew ≡ w ∷ wb ∷ [] }
{}
