//! Tests of `wx_follow`, `wx_print` and of the ids of `wx_hooks`, whose proofs are done without them.
#![tactic(auto)]

#[cfg(test)]
mod journal_tests;
#[cfg(test)]
mod script_hooks_tests;
#[cfg(test)]
mod world_tests;
