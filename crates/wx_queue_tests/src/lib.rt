//! Tests of `wx_queue`, whose proofs are done without them: a crate with tests is proved once more with them.
#![tactic(auto)]

#[cfg(test)]
mod tests;
#[cfg(test)]
mod thread_tests;
