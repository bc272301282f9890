// Laws of places and trees.
ghost use Rattle.std.specs.Prelude.{◌≡◌, List, ℕ, [], ◌∷◌, codes};
ghost use Rattle.wx_tree.specs.Paths.{Path};
ghost use Rattle.wx_tree.specs.Places.{place, spelled, AreParts};

/// The bytes of a path lead back to it. Slashes that say nothing are passed over.
#[tactic(auto, using(crate::proofs::PlaceLemmas::place_spelled))]
pub fn places_are_read_back()
    ensures back { (p : Path) → AreParts p → place (spelled p) ≡ p }
    ensures parts { place (codes "/w/a") ≡ codes "a" ∷ (codes "w" ∷ []) }
    ensures top { place (codes "/") ≡ [] }
    ensures empty_parts { place (codes "//w/") ≡ codes "w" ∷ [] }
{}
