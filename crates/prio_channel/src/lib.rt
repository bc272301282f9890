//! A bounded queue of values with priorities, the greatest first.
#![tactic(auto)]

mod bag;
mod order;
mod queue;
mod waiting;

pub use bag::{same_bag_is_an_equivalence, same_bag_is_kept};
pub use order::{are_equal_priorities, compare_priorities, priorities_are_a_total_order};
pub use queue::{PrioQueue, TrySendError};
