// Laws of summaries.
ghost use Rattle.wx_summary.specs.Laws.{CommonIsThere, ElementsAreThese, ElementsRise, GroupsAreThere, NamesRise, NoOtherIsThere, OrderIsOpen, TheSameSuffice};

/// The elements of a set rise, so each stands once.
#[tactic(auto, using(crate::proofs::SetLemmas::elements_rise))]
pub fn elements_rise()
    ensures { ElementsRise }
{}

/// The elements of the set of some texts are just these texts.
#[tactic(auto, using(crate::proofs::SetLemmas::elements_are_these))]
pub fn elements_are_these()
    ensures { ElementsAreThese }
{}

/// The names in a summary rise, so each stands once.
#[tactic(auto, using(crate::proofs::MapLemmas::names_rise))]
pub fn summary_names_rise()
    ensures { NamesRise }
{}

/// Each group has its text under its name, or none where it has none.
#[tactic(auto, using(crate::proofs::MapLemmas::groups_are_there))]
pub fn summary_has_groups()
    ensures { GroupsAreThere }
{}

/// COMMON has what all trunks share, or nothing where they share nothing.
#[tactic(auto, using(crate::proofs::MapLemmas::common_is_there))]
pub fn summary_has_common()
    ensures { CommonIsThere }
{}

/// No other name has a text.
#[tactic(auto, using(crate::proofs::MapLemmas::no_other_is_there))]
pub fn summary_has_no_other()
    ensures { NoOtherIsThere }
{}

/// A summary doesn't depend on the order of the events.
#[tactic(auto, using(crate::proofs::OrderLemmas::order_is_open))]
pub fn summary_in_any_order()
    ensures { OrderIsOpen }
{}

/// Nor does it depend on how often an event stands there.
#[tactic(auto, using(crate::proofs::OrderLemmas::the_same_suffice))]
pub fn summary_of_the_same()
    ensures { TheSameSuffice }
{}
