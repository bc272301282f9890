//! Tests of `wx_handles`, `wx_pass`, `wx_live` and `wx_mem_live`, whose proofs are done without them: a crate with tests is proved once
//! more with them.
#![tactic(auto)]

#[cfg(test)]
mod finish_tests;
#[cfg(test)]
mod load_tests;
#[cfg(test)]
mod memory_tests;
#[cfg(test)]
mod thread_tests;
#[cfg(test)]
mod trial;
#[cfg(test)]
mod turn_tests;
