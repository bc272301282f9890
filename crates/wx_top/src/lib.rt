//! What the program does for its words: a row for each request that they may make.
#![tactic(auto)]

mod commanding;
mod faulty;
mod flooding;
mod request;
mod top;

pub use faulty::bad_pattern;
pub use top::wx_main;
