//! Tests of `wx_replay`, whose proofs are done without them: a crate with tests is proved once more with them.
#![tactic(auto)]

#[cfg(test)]
mod feeding_tests;
#[cfg(test)]
mod main_tests;
#[cfg(test)]
mod standard_tests;
#[cfg(test)]
mod step_tests;
