//! Tests of `wx_plain` and of what chooses acts for it, whose proofs are done without them.
#![tactic(auto)]

#[cfg(test)]
mod live_tests;
#[cfg(test)]
mod plain_tests;
#[cfg(test)]
mod trial;
