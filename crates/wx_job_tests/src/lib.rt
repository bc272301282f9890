//! Tests of `wx_job`, whose proofs are done without them: a crate with tests is proved once more with them.
#![tactic(auto)]

#[cfg(test)]
mod case_tests;
#[cfg(test)]
mod expecting;
#[cfg(test)]
mod player;
#[cfg(test)]
mod seen;
#[cfg(test)]
mod state_tests;
#[cfg(test)]
mod story_tests;
#[cfg(test)]
mod test_world;
#[cfg(test)]
mod ticket_tests;
