// Laws of priorities.
ghost use Rattle.std.specs.Prelude.{◌≡◌, ◌⊎◌, ◌↔◌, true};
ghost use Rattle.std.specs.Ordering.{nat_cmp};
ghost use Rattle.wx_events.specs.declared.priority.Priority.{Priority};
ghost use Rattle.wx_events.specs.Priority.{rank};
ghost use Rattle.prio_channel.specs.Order.{IsAtMost};

use std::cmp::Ordering;
use wx_events::Priority;

/// Priorities are a total order, by their ranks.
pub fn priorities_are_a_total_order()
    ensures itself { (x : Priority) → IsAtMost x x }
    ensures one { (x y : Priority) → IsAtMost x y → IsAtMost y x → x ≡ y }
    ensures through { (x y z : Priority) → IsAtMost x y → IsAtMost y z → IsAtMost x z }
    ensures total { (x y : Priority) → IsAtMost x y ⊎ IsAtMost y x }
{}

/// How two priorities compare: as their ranks do.
pub fn compare_priorities(x: Priority, y: Priority) -> Ordering
    ensures { result ≡ nat_cmp (rank x) (rank y) }
{
    x.cmp(&y)
}

/// Whether two priorities are equal: they are the same priority.
pub fn are_equal_priorities(x: Priority, y: Priority) -> bool
    ensures { (result ≡ true) ↔ (x ≡ y) }
{
    x == y
}
