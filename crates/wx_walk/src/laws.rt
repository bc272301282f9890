// What the plain machine settles to.
ghost use Rattle.std.specs.Prelude.{◌≡◌, ◌≤◌, ◌⊎◌, ◌↔◌, ℕ, true, false, List, ◌∷◌, length};
ghost use Rattle.wx_tree.specs.Lists.{AllOnce, In};
ghost use Rattle.wx_tree.specs.Paths.{Path};
ghost use Rattle.wx_tree.specs.Trees.{Tree, guards, is_safe, settle, walk};
ghost use Rattle.wx_recursor.specs.declared.owner.Owner.{Owner};
ghost use Rattle.wx_walk.specs.declared.plain.Guarded.{Guarded};
ghost use Rattle.wx_walk.specs.Machine.{State, is_work, kept_guards, reconciled};
ghost use Rattle.wx_walk.specs.Reached.{Call, Reached, Steps};
ghost use Rattle.wx_walk.specs.Wanted.{GuardsOnce, Wanted, last_roots};

/// After a reconcile a few steps settle what is owned: it is the walk.
pub fn settles()
    ensures few { (tree : Tree) (call : Call) (calls : List Call) (owned : ℕ) (before after : State)
        → Reached tree calls before → Steps tree call.ok call.steps (reconciled call.roots before) after
        → call.steps ≤ settle (length (kept_guards call.roots before.guards)) (length call.roots) (length tree) owned }
    ensures walk { (tree : Tree) (call : Call) (calls : List Call) (after : State)
        → Reached tree (call ∷ calls) after → is_work after ≡ false
        → (p : Path) → ((o : Owner) × In o after.owners × (o.path ≡ p)) ↔ In p (walk tree call.roots call.ok) }
    ensures guards { (tree : Tree) (call : Call) (calls : List Call) (after : State)
        → Reached tree (call ∷ calls) after → is_work after ≡ false
        → (p : Path) → ((g : Guarded) × In g after.guards × (g.path ≡ p)) ↔ In p (guards tree call.roots) }
    ensures registered { (tree : Tree) (call : Call) (calls : List Call) (after : State)
        → Reached tree (call ∷ calls) after → is_work after ≡ false
        → AllOnce after.registrations × ((p : Path) → In p after.registrations ↔ (In p (walk tree call.roots call.ok) ⊎ In p (guards tree call.roots))) }
{}

/// Whatever is watched, a root of a call wants, and it stands below directories alone. A root has one guard at most.
pub fn watched()
    ensures wanted { (tree : Tree) (calls : List Call) (after : State)
        → Reached tree calls after → (p : Path) → In p after.registrations → Wanted tree calls p }
    ensures plain { (tree : Tree) (calls : List Call) (after : State)
        → Reached tree calls after → (p : Path) → In p after.registrations → is_safe tree p ≡ true }
    ensures guards { (tree : Tree) (calls : List Call) (after : State)
        → Reached tree calls after → GuardsOnce tree (last_roots calls) after.guards }
    ensures few { (tree : Tree) (call : Call) (calls : List Call) (owned : ℕ) (after : State)
        → Reached tree (call ∷ calls) after
        → (call.steps ≤ settle (length (last_roots calls)) (length call.roots) (length tree) owned)
        × (call.steps ≤ settle (length call.roots) (length call.roots) (length tree) owned) }
{}
