// What waits in a queue.
ghost use Rattle.std.specs.Prelude.{◌==◌};
ghost use Rattle.std.proofs.Common.{rules};
ghost use Rattle.std.specs.Cmp.{partial_order_from_own_ties};
ghost use Rattle.std.specs.Cmp.Rules.{comparing};
ghost use Rattle.std.specs.Ordering.{nat_cmp, on, flip_args, then_cmp, as_partial_cmp, eq_of_both};
ghost use Rattle.wx_events.specs.Priority.{rank};

use std::cmp::Ordering;
use wx_events::Priority;

/// What waits in a queue: its priority, how many were sent before it, and the slot of its value. The greater leaves
/// first: that of the greater priority, and of equal ones that which was sent first.
#[derive(Clone, Copy, Debug)]
pub(crate) struct Waiting {
    pub priority: Priority,
    pub sequence: u64,
    pub slot: usize,
}

impl PartialEq for Waiting {
    ghost eq = { eq_of_both (on (λ w. rank w.priority) ◌==◌) (eq_of_both (on (λ w. w.sequence) ◌==◌) (on (λ w. w.slot) ◌==◌)) };

    ghost laws = { Prim.search (comparing, rules) };

    fn eq(&self, other: &Waiting) -> bool {
        self.priority.rank() == other.priority.rank()
            && self.sequence == other.sequence
            && self.slot == other.slot
    }
}

impl Eq for Waiting {
    ghost laws = { Prim.search (comparing, rules) };
}

impl Ord for Waiting {
    ghost cmp = { then_cmp (on (λ w. rank w.priority) nat_cmp) (then_cmp (flip_args (on (λ w. w.sequence) nat_cmp)) (on (λ w. w.slot) nat_cmp)) };

    ghost total = { Prim.search (comparing, rules) };

    ghost matches_partial_cmp = { Prim.search (comparing, rules) };

    ghost matches_eq = { Prim.search (comparing, rules) };

    fn cmp(&self, other: &Waiting) -> Ordering {
        self.priority
            .rank()
            .cmp(&other.priority.rank())
            .then(other.sequence.cmp(&self.sequence))
            .then(self.slot.cmp(&other.slot))
    }
}

impl PartialOrd for Waiting {
    ghost partial_cmp = { as_partial_cmp (then_cmp (on (λ w. rank w.priority) nat_cmp) (then_cmp (flip_args (on (λ w. w.sequence) nat_cmp)) (on (λ w. w.slot) nat_cmp))) };

    ghost laws = { partial_order_from_own_ties (Prim.search (comparing, rules) depth 9) (Prim.search (comparing, rules) depth 9) };

    fn partial_cmp(&self, other: &Waiting) -> Option<Ordering> {
        Some(self.cmp(other))
    }
}
