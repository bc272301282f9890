// What each call keeps.
ghost use Rattle.std.specs.Prelude.{◌≡◌, ℕ, false, List, [], ◌++◌};
ghost use Rattle.wx_tree.specs.declared.root.Root.{Root};
ghost use Rattle.wx_tree.specs.Paths.{Path};
ghost use Rattle.wx_recursor.specs.declared.answers.Watched.{Watched};
ghost use Rattle.wx_recursor.specs.States.{Evidence, RecursorState};
ghost use Rattle.wx_recursor.specs.Steps.{stepped};
ghost use Rattle.wx_recursor.specs.Calls.{created, fresh, has_work, reconciled, removed, renamed, rescanned, unsure};
ghost use Rattle.wx_recursor.specs.Rebuilds.{installed, lent, prepared, replay_deferred, replayed};
ghost use Rattle.wx_recursor.specs.Sound.{AreCovered, AreGiven, AreSound, parts, rooted, things};

/// Whatever the calls answer: no path and no identity is registered twice, and each identity of an owned path or a guard is
/// registered, or waits for replay. After the sweep there is no work.
pub fn keeps()
    ensures fresh { AreSound (things fresh) }
    ensures reconcile { (roots : List Root) (filter : ℕ) (s : RecursorState) → AreSound (things s) → AreSound (things (reconciled roots filter s)) }
    ensures rescan { (s : RecursorState) → AreSound (things s) → AreSound (things (rescanned s)) }
    ensures step { (e : Evidence) (s : RecursorState) → AreSound (things s) → AreSound (things (stepped e s)) }
    ensures create { (p : Path) (s : RecursorState) → AreSound (things s) → AreSound (things (created p s)) }
    ensures remove { (p : Path) (s : RecursorState) → AreSound (things s) → AreSound (things (removed p s)) }
    ensures rename { (p q : Path) (s : RecursorState) → AreSound (things s) → AreSound (things (renamed p q s)) }
    ensures ambiguous { (p : Path) (s : RecursorState) → AreSound (things s) → AreSound (things (unsure p s)) }
    ensures prepare { (s : RecursorState) → AreSound (things s) → AreSound (things (prepared s)) }
    ensures replay { (answers : List Watched) (s : RecursorState) → AreSound (things s) → AreSound (things (replayed answers s)) }
    ensures others { (s : RecursorState) → AreSound (things s) → AreSound (things (installed s)) × AreSound (things (lent s)) × AreSound (things (replay_deferred s)) }
    ensures swept { (e : Evidence) (s : RecursorState) → s.queue ≡ [] → has_work (stepped e s).queue (stepped e s).sweep_due ≡ false }
{}

/// Whatever the calls answer, each owner covers its path.
pub fn covers()
    ensures fresh { AreCovered (parts fresh) }
    ensures reconcile { (roots : List Root) (filter : ℕ) (s : RecursorState) → AreCovered (parts s) → AreCovered (parts (reconciled roots filter s)) }
    ensures rescan { (s : RecursorState) → AreCovered (parts s) → AreCovered (parts (rescanned s)) }
    ensures step { (e : Evidence) (s : RecursorState) → AreCovered (parts s) → AreCovered (parts (stepped e s)) }
    ensures create { (p : Path) (s : RecursorState) → AreCovered (parts s) → AreCovered (parts (created p s)) }
    ensures remove { (p : Path) (s : RecursorState) → AreCovered (parts s) → AreCovered (parts (removed p s)) }
    ensures rename { (p q : Path) (s : RecursorState) → AreCovered (parts s) → AreCovered (parts (renamed p q s)) }
    ensures ambiguous { (p : Path) (s : RecursorState) → AreCovered (parts s) → AreCovered (parts (unsure p s)) }
    ensures prepare { (s : RecursorState) → AreCovered (parts s) → AreCovered (parts (prepared s)) }
    ensures replay { (answers : List Watched) (s : RecursorState) → AreCovered (parts s) → AreCovered (parts (replayed answers s)) }
    ensures others { (s : RecursorState) → AreCovered (parts s) → AreCovered (parts (installed s)) × AreCovered (parts (lent s)) × AreCovered (parts (replay_deferred s)) }
{}

/// Whatever the calls answer, each root of an owner, a guard, a queued item or a retry was given by some reconcile.
pub fn roots_are_given()
    ensures fresh { AreGiven [] (rooted fresh) }
    ensures reconcile { (roots : List Root) (filter : ℕ) (given : List Root) (s : RecursorState) → AreGiven given (rooted s) → AreGiven (roots ++ given) (rooted (reconciled roots filter s)) }
    ensures rescan { (given : List Root) (s : RecursorState) → AreGiven given (rooted s) → AreGiven given (rooted (rescanned s)) }
    ensures step { (e : Evidence) (given : List Root) (s : RecursorState) → AreGiven given (rooted s) → AreGiven given (rooted (stepped e s)) }
    ensures create { (p : Path) (given : List Root) (s : RecursorState) → AreGiven given (rooted s) → AreGiven given (rooted (created p s)) }
    ensures remove { (p : Path) (given : List Root) (s : RecursorState) → AreGiven given (rooted s) → AreGiven given (rooted (removed p s)) }
    ensures rename { (p q : Path) (given : List Root) (s : RecursorState) → AreGiven given (rooted s) → AreGiven given (rooted (renamed p q s)) }
    ensures ambiguous { (p : Path) (given : List Root) (s : RecursorState) → AreGiven given (rooted s) → AreGiven given (rooted (unsure p s)) }
    ensures prepare { (given : List Root) (s : RecursorState) → AreGiven given (rooted s) → AreGiven given (rooted (prepared s)) }
    ensures replay { (answers : List Watched) (given : List Root) (s : RecursorState) → AreGiven given (rooted s) → AreGiven given (rooted (replayed answers s)) }
    ensures others { (given : List Root) (s : RecursorState) → AreGiven given (rooted s) → AreGiven given (rooted (installed s)) × AreGiven given (rooted (lent s)) × AreGiven given (rooted (replay_deferred s)) }
{}
