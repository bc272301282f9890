// Laws of paths.
ghost use Rattle.wx_paths.specs.Laws.{NormalIsSpelled, NormalStaysNormal, ParentOfName, StartsWithItself, StartsWithTheSame};

/// To normalize twice is to do so once.
#[tactic(auto, using(crate::proofs::LawLemmas::normal_stays_normal))]
pub fn normal_stays_normal()
    ensures { NormalStaysNormal }
{}

/// Each path starts with itself.
#[tactic(auto, using(crate::proofs::LawLemmas::starts_with_itself))]
pub fn path_starts_with_itself()
    ensures { StartsWithItself }
{}

/// A path starts with all that what it starts with starts with.
#[tactic(auto, using(crate::proofs::LawLemmas::starts_with_the_same))]
pub fn path_starts_with_the_same()
    ensures { StartsWithTheSame }
{}

/// The parent of a path with a name behind it is the path that the components of the first spell.
#[tactic(auto, using(crate::proofs::LawLemmas::parent_of_name))]
pub fn parent_of_name()
    ensures { ParentOfName }
{}

/// The components of a normal path spell that path itself.
#[tactic(auto, using(crate::proofs::LawLemmas::normal_is_spelled))]
pub fn normal_is_spelled()
    ensures { NormalIsSpelled }
{}
