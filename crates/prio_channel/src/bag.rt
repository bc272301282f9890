// Laws of bags.
ghost use Rattle.std.specs.Prelude.{◌≡◌, ℕ, List, [], ◌∷◌, ◌++◌, length, slice_get, remove, Some};
ghost use Rattle.wx_events.specs.declared.priority.Priority.{Priority};
ghost use Rattle.prio_channel.specs.Channel.{AllAtMost};
ghost use Rattle.prio_channel.specs.SameBag.{SameBag};

/// To have the same items, in some order, is an equivalence, and only lists of one length do.
pub fn same_bag_is_an_equivalence<T>()
    ensures itself { (xs : List T) → SameBag xs xs }
    ensures back { (xs ys : List T) → SameBag xs ys → SameBag ys xs }
    ensures through { (xs ys zs : List T) → SameBag xs ys → SameBag ys zs → SameBag xs zs }
    ensures length { (xs ys : List T) → SameBag xs ys → length xs ≡ length ys }
{}

/// Two lists with the same items still have them when an item is added to both, and when one that
/// the first has is taken from both. Where no pair of one has a greater priority, none of the other has.
pub fn same_bag_is_kept<T>()
    ensures added { (xs ys : List T) (x : T) → SameBag xs ys → SameBag (xs ++ x ∷ []) (ys ++ x ∷ []) }
    ensures taken { (xs ys : List T) (k : ℕ) (x : T) → SameBag xs ys → slice_get xs k ≡ Some x → (m : ℕ) × (slice_get ys m ≡ Some x) × SameBag (remove xs k) (remove ys m) }
    ensures bounded { (priority : Priority) (xs ys : List (T × Priority)) → SameBag xs ys → AllAtMost priority xs → AllAtMost priority ys }
{}
