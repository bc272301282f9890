//! Paths by their components.
#![tactic(auto)]

mod joined;
mod laws;
mod normal;
mod pieces;
mod prefix;

pub use joined::{path_of, put_joined};
pub use laws::{
    normal_is_spelled, normal_stays_normal, parent_of_name, path_starts_with_itself,
    path_starts_with_the_same,
};
pub use normal::normalize;
pub use pieces::{Parts, components, components_in, parts_in};
pub use prefix::{common_prefix, parent, starts_with};
