// Laws of levels and of names.
ghost use Rattle.std.specs.Prelude.{◌≡◌, ◌⊎◌, ◌↔◌, true};
ghost use Rattle.std.specs.Ordering.{nat_cmp};
ghost use Rattle.wx_control.specs.declared.level.Level.{Level};
ghost use Rattle.wx_control.specs.Levels.{rank, AtMost};

use crate::id::Id;
use crate::level::Level;
use std::cmp::Ordering;

/// Levels are a total order, by their ranks.
pub fn levels_are_a_total_order()
    ensures itself { (x : Level) → AtMost x x }
    ensures one { (x y : Level) → AtMost x y → AtMost y x → x ≡ y }
    ensures through { (x y z : Level) → AtMost x y → AtMost y z → AtMost x z }
    ensures total { (x y : Level) → AtMost x y ⊎ AtMost y x }
{}

/// How two levels compare: as their ranks do.
pub fn compare_levels(x: Level, y: Level) -> Ordering
    ensures { result ≡ nat_cmp (rank x) (rank y) }
{
    x.cmp(&y)
}

/// Whether two levels are equal: they are the same level.
pub fn are_equal_levels(x: Level, y: Level) -> bool
    ensures { (result ≡ true) ↔ (x ≡ y) }
{
    x == y
}

/// How two names compare: as their numbers do.
pub fn compare_ids(x: Id, y: Id) -> Ordering
    ensures { result ≡ nat_cmp x.0 y.0 }
{
    x.cmp(&y)
}

/// Whether two names are equal: they are the same name.
pub fn are_equal_ids(x: Id, y: Id) -> bool
    ensures { (result ≡ true) ↔ (x ≡ y) }
{
    x == y
}
