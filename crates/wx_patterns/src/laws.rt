// Laws of what is ignored.
ghost use Rattle.wx_patterns.specs.Laws.{AllBelowIsIgnored, NoEventPassesBelow, NoneIgnoreNothing, NoneLetEventsPass};

/// What is at or below an ignored folder is ignored; an event that has paths, all of them there, doesn't pass.
#[tactic(auto, using(crate::proofs::LawLemmas::all_below, crate::proofs::LawLemmas::no_event_below))]
pub fn nothing_passes_below()
    ensures paths { AllBelowIsIgnored }
    ensures events { NoEventPassesBelow }
{}

/// No patterns ignore nothing: each path and each event passes.
#[tactic(auto, using(crate::proofs::LawLemmas::none_ignore, crate::proofs::LawLemmas::none_let_pass))]
pub fn all_passes_without_patterns()
    ensures paths { NoneIgnoreNothing }
    ensures events { NoneLetEventsPass }
{}
