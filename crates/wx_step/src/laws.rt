// What is queued is about the roots of the last reconcile.
ghost use Rattle.std.specs.Prelude.{◌≡◌, ◌⊎◌, ℕ, true, List, []};
ghost use Rattle.wx_recursor.specs.Calls.{created, fresh, reconciled, removed, renamed, rescanned, unsure};
ghost use Rattle.wx_recursor.specs.Rebuilds.{installed, lent, prepared, replay_deferred, replayed};
ghost use Rattle.wx_recursor.specs.Sound.{AreCovered, parts};
ghost use Rattle.wx_recursor.specs.States.{Evidence, RecursorState};
ghost use Rattle.wx_recursor.specs.Steps.{stepped};
ghost use Rattle.wx_recursor.specs.declared.answers.Watched.{Watched};
ghost use Rattle.wx_step.specs.Asking.{AreAllowed, FirstAsksBelow};
ghost use Rattle.wx_step.specs.Causes.{Cause};
ghost use Rattle.wx_step.specs.Current.{AreAbout, current};
ghost use Rattle.wx_tree.specs.Paths.{Path};
ghost use Rattle.wx_tree.specs.declared.root.Root.{Root};

/// Whatever the calls answer, each queued item and each guard is about a root of the last reconcile. So, where what judges
/// directories may be asked below each recursive root, a step asks it only there.
pub fn roots_are_current()
    ensures fresh { AreAbout [] (current fresh) }
    ensures reconcile { (roots : List Root) (filter : ℕ) (s : RecursorState) → AreAbout roots (current (reconciled roots filter s)) }
    ensures rescan { (roots : List Root) (s : RecursorState) → AreAbout roots (current s) → AreAbout roots (current (rescanned s)) }
    ensures step { (e : Evidence) (roots : List Root) (s : RecursorState) → AreAbout roots (current s) → AreAbout roots (current (stepped e s)) }
    ensures create { (p : Path) (roots : List Root) (s : RecursorState) → AreAbout roots (current s) → AreAbout roots (current (created p s)) }
    ensures remove { (p : Path) (roots : List Root) (s : RecursorState) → AreAbout roots (current s) → AreAbout roots (current (removed p s)) }
    ensures rename { (p q : Path) (roots : List Root) (s : RecursorState) → AreAbout roots (current s) → AreAbout roots (current (renamed p q s)) }
    ensures ambiguous { (p : Path) (roots : List Root) (s : RecursorState) → AreAbout roots (current s) → AreAbout roots (current (unsure p s)) }
    ensures prepare { (roots : List Root) (s : RecursorState) → AreAbout roots (current s) → AreAbout roots (current (prepared s)) }
    ensures replay { (answers : List Watched) (roots : List Root) (s : RecursorState) → AreAbout roots (current s) → AreAbout roots (current (replayed answers s)) }
    ensures others { (roots : List Root) (s : RecursorState) → AreAbout roots (current s) → AreAbout roots (current (installed s)) × AreAbout roots (current (lent s)) × AreAbout roots (current (replay_deferred s)) }
    ensures asks { (under : List Path) (roots : List Root) (s : RecursorState) → AreCovered (parts s) → AreAbout roots (current s) → AreAllowed under s.roots → FirstAsksBelow under s.queue }
{}

/// Whatever the calls answer, a step asks for a rebuild only where one was asked for before, or where in this step a watch or an
/// unwatch failed, the identity of a path changed, or a representative that others share went.
pub fn asks_for_causes()
    ensures { (e : Evidence) (s : RecursorState) → (stepped e s).asks_rebuild ≡ true → (s.asks_rebuild ≡ true) ⊎ Cause s (stepped e s) }
{}
