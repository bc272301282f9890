// How few steps there are, where nothing fails.
ghost use Rattle.std.specs.Prelude.{◌≡◌, ◌∷◌, ℕ, Bool, List};
ghost use Rattle.wx_error.specs.declared.runtime.RuntimeError.{RuntimeError};
ghost use Rattle.wx_watch.specs.declared.watched.Watcher.{Watcher};
ghost use Rattle.wx_tree.specs.Paths.{Path};
ghost use Rattle.wx_tree.specs.Trees.{Tree};
ghost use Rattle.wx_recursor.specs.States.{RecursorState};
ghost use Rattle.wx_fs.specs.Settling.{GoesOn};
ghost use Rattle.wx_journal.specs.declared.entry.Entry.{Entry};
ghost use Rattle.wx_journal.specs.declared.entry.Entry.TheVariants.{Word as Said};
ghost use Rattle.wx_journal.specs.declared.entry.Word.TheVariants.{Stepped};
ghost use Rattle.wx_machine.specs.Start.{Start};
ghost use Rattle.wx_file_turns.specs.FewSteps.{FewSteps, IsFewMore, TurnShowsAbsent};
ghost use Rattle.wx_file_turns.specs.Walking.{IsWalking};

/// Where a recursor does a step, behind which the word is said, its epoch goes on, and there were few steps, where the turn showed just
/// what the step did.
pub fn few_steps()
    ensures goes_on { (t : Tree) (ok : ℕ → Path → Bool) (s : Start) (p : List Entry) (kind : Watcher) (u v : RecursorState) (h : IsWalking t ok s p u) (errors : List RuntimeError) (asks : Bool)
        → GoesOn t h.inside.call h.inside.calls kind v h.inside.errors errors asks → v.filter ≡ u.filter → IsWalking t ok s (Said Stepped ∷ p) v }
    ensures few { (t : Tree) (ok : ℕ → Path → Bool) (s : Start) (p : List Entry) (kind : Watcher) (u v : RecursorState) (h : IsWalking t ok s p u) (errors : List RuntimeError) (asks : Bool)
        → GoesOn t h.inside.call h.inside.calls kind v h.inside.errors errors asks → v.filter ≡ u.filter → TurnShowsAbsent s t p → FewSteps s t p → FewSteps s t (Said Stepped ∷ p) }
{}
