// What a recursor settles to, on a tree that stays still, with an exact backend and links not followed.
ghost use Rattle.std.specs.Prelude.{◌≡◌, ◌≤◌, ◌⊎◌, ◌↔◌, ℕ, Bool, true, false, List, [], ◌∷◌, ◌++◌, length, map};
ghost use Rattle.wx_tree.specs.declared.root.Root.{Root};
ghost use Rattle.wx_tree.specs.Lists.{AllOnce, In};
ghost use Rattle.wx_tree.specs.Paths.{Path};
ghost use Rattle.wx_tree.specs.Trees.{Tree, guards, is_safe, settle, walk};
ghost use Rattle.wx_recursor.specs.declared.errors.ScanFault.TheVariants.{NotFound};
ghost use Rattle.wx_recursor.specs.declared.errors.ShownError.{ShownError};
ghost use Rattle.wx_recursor.specs.declared.errors.ShownError.TheVariants.{PathScan};
ghost use Rattle.wx_recursor.specs.declared.known.Known.{Known};
ghost use Rattle.wx_recursor.specs.declared.owner.GuardWatch.{GuardWatch};
ghost use Rattle.wx_recursor.specs.declared.owner.Owner.{Owner};
ghost use Rattle.wx_recursor.specs.Calls.{has_work, needs_retry, reconciled};
ghost use Rattle.wx_recursor.specs.Identities.{known_path};
ghost use Rattle.wx_recursor.specs.Seen.{NoneRefused, SeesFirst, identity_at, is_gap};
ghost use Rattle.wx_recursor.specs.States.{Evidence, RecursorState};
ghost use Rattle.wx_recursor.specs.Steps.{stepped, told};
ghost use Rattle.wx_walk.specs.Machine.{kept_guards};
ghost use Rattle.wx_walk.specs.Reached.{Call, one_more};
ghost use Rattle.wx_walk.specs.Wanted.{GuardsOnce, Wanted, last_roots};
ghost use Rattle.wx_settle.specs.Plain.{plain_guard};
ghost use Rattle.wx_settle.specs.Runs.{HasSettled, IsEpoch, RecursorReached, RecursorShows, RecursorSteps};

/// After any calls of reconcile with steps between them, few further steps settle a recursor. Then what it owns is the walk, its
/// guards are the guards, and it watches just these, each once. The errors that it shows are those of absent roots, and each of
/// these is shown. No step asks for a rebuild, nothing is kept for a retry
/// or skipped, and there is no tombstone.
pub fn settles()
    ensures few { (tree : Tree) (call : Call) (calls : List Call) (owned filter : ℕ) (before after : RecursorState)
        → RecursorReached tree calls before → RecursorSteps tree call.ok call.steps (reconciled call.roots filter before) after
        → call.steps ≤ settle (length (kept_guards call.roots (map plain_guard before.guards))) (length call.roots) (length tree) owned }
    ensures walk { (tree : Tree) (call : Call) (calls : List Call) (after : RecursorState)
        → RecursorReached tree (call ∷ calls) after → has_work after.queue after.sweep_due ≡ false
        → (p : Path) → ((o : Owner) × In o after.owners × (o.path ≡ p)) ↔ In p (walk tree call.roots call.ok) }
    ensures guards { (tree : Tree) (call : Call) (calls : List Call) (after : RecursorState)
        → RecursorReached tree (call ∷ calls) after → has_work after.queue after.sweep_due ≡ false
        → (p : Path) → ((g : GuardWatch) × In g after.guards × (g.path ≡ p)) ↔ In p (guards tree call.roots) }
    ensures registered { (tree : Tree) (call : Call) (calls : List Call) (after : RecursorState)
        → RecursorReached tree (call ∷ calls) after → has_work after.queue after.sweep_due ≡ false
        → AllOnce (map known_path after.registrations) × ((p : Path) → In p (map known_path after.registrations) ↔ (In p (walk tree call.roots call.ok) ⊎ In p (guards tree call.roots))) }
    ensures shown { (tree : Tree) (call : Call) (calls : List Call) (filter : ℕ) (before after : RecursorState) (errors : List ShownError) (asks : Bool)
        → RecursorReached tree calls before → RecursorShows tree call.ok call.steps (reconciled call.roots filter before) after errors asks
        → (x : ShownError) → In x errors → (r : Root) × In r call.roots × (is_safe tree r.path ≡ false) × (is_gap tree r.path ≡ true) × (x ≡ PathScan r.path NotFound) }
    ensures absent { (tree : Tree) (call : Call) (calls : List Call) (filter : ℕ) (before after : RecursorState) (errors : List ShownError) (asks : Bool)
        → RecursorReached tree calls before → RecursorShows tree call.ok call.steps (reconciled call.roots filter before) after errors asks
        → has_work after.queue after.sweep_due ≡ false → (r : Root) → In r call.roots → is_safe tree r.path ≡ false → is_gap tree r.path ≡ true → In (PathScan r.path NotFound) errors }
    ensures rebuild { (tree : Tree) (call : Call) (calls : List Call) (filter : ℕ) (before after : RecursorState) (errors : List ShownError) (asks : Bool)
        → RecursorReached tree calls before → RecursorShows tree call.ok call.steps (reconciled call.roots filter before) after errors asks → asks ≡ false }
    ensures tombstones { (tree : Tree) (calls : List Call) (after : RecursorState)
        → RecursorReached tree calls after → after.tombstones ≡ [] }
    ensures calm { (tree : Tree) (calls : List Call) (after : RecursorState)
        → RecursorReached tree calls after → needs_retry after ≡ false }
{}

/// Whatever is watched stands under its own identity below directories alone, and a root of some call wants it. A root has one
/// guard at most. One step more leads to what is reached with one step more.
pub fn watched()
    ensures wanted { (tree : Tree) (calls : List Call) (after : RecursorState)
        → RecursorReached tree calls after → (k : Known) → In k after.registrations → Wanted tree calls k.path }
    ensures plain { (tree : Tree) (calls : List Call) (after : RecursorState)
        → RecursorReached tree calls after → (k : Known) → In k after.registrations → (is_safe tree k.path ≡ true) × (k.identity ≡ identity_at tree k.path) }
    ensures guards { (tree : Tree) (calls : List Call) (after : RecursorState)
        → RecursorReached tree calls after → GuardsOnce tree (last_roots calls) (map plain_guard after.guards) }
    ensures few { (tree : Tree) (call : Call) (calls : List Call) (owned : ℕ) (after : RecursorState)
        → RecursorReached tree (call ∷ calls) after
        → (call.steps ≤ settle (length (last_roots calls)) (length call.roots) (length tree) owned)
        × (call.steps ≤ settle (length call.roots) (length call.roots) (length tree) owned) }
    ensures more { (tree : Tree) (call : Call) (calls : List Call) (before : RecursorState) (e : Evidence)
        → RecursorReached tree (call ∷ calls) before → has_work before.queue before.sweep_due ≡ true → SeesFirst tree call.ok before.queue e → NoneRefused e.releases
        → RecursorReached tree (one_more call ∷ calls) (told (stepped e before)) × ((stepped e before).asks_rebuild ≡ false)
        × ((x : ShownError) → In x (stepped e before).shown → (r : Root) × In r call.roots × (is_safe tree r.path ≡ false) × (is_gap tree r.path ≡ true) × (x ≡ PathScan r.path NotFound)) }
{}

/// An epoch begins with a call of reconcile, goes on by steps in which nothing fails, of which there are few, and has settled where
/// no work is left. None of its steps asks for a rebuild.
pub fn epochs()
    ensures begins { (tree : Tree) (roots : List Root) (ok : Path → Bool) (calls : List Call) (filter : ℕ) (before : RecursorState)
        → RecursorReached tree calls before → IsEpoch tree (record { roots = roots; ok = ok; steps = 0 }) calls (reconciled roots filter before) [] }
    ensures reached { (tree : Tree) (call : Call) (calls : List Call) (after : RecursorState) (errors : List ShownError)
        → IsEpoch tree call calls after errors → RecursorReached tree (call ∷ calls) after }
    ensures more { (tree : Tree) (call : Call) (calls : List Call) (now : RecursorState) (errors : List ShownError) (e : Evidence) (epoch : IsEpoch tree call calls now errors)
        → has_work now.queue now.sweep_due ≡ true → SeesFirst tree call.ok now.queue e → NoneRefused e.releases
        → ((next : IsEpoch tree (one_more call) calls (told (stepped e now)) (errors ++ (stepped e now).shown)) × (next.before ≡ epoch.before)) × ((stepped e now).asks_rebuild ≡ false) }
    ensures few { (tree : Tree) (call : Call) (calls : List Call) (after : RecursorState) (errors : List ShownError) (epoch : IsEpoch tree call calls after errors) (owned : ℕ)
        → call.steps ≤ settle (length (kept_guards call.roots (map plain_guard epoch.before.guards))) (length call.roots) (length tree) owned }
    ensures settled { (tree : Tree) (call : Call) (calls : List Call) (after : RecursorState) (errors : List ShownError)
        → IsEpoch tree call calls after errors → has_work after.queue after.sweep_due ≡ false → HasSettled tree call after errors }
{}
