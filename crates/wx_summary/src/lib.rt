//! What events come to for a command that is started about them: for each group of changes the paths that changed so.
#![tactic(auto)]

mod group;
mod laws;
mod relative;
mod summary;

pub use laws::{
    elements_are_these, elements_rise, summary_has_common, summary_has_groups,
    summary_has_no_other, summary_in_any_order, summary_names_rise, summary_of_the_same,
};
pub use summary::{PATH_SEPARATOR, Summary, summarise_events_to_env};
