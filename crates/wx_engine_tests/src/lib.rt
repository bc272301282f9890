//! Tests of `wx_engine`, `wx_action` and `wx_boxed`, whose proofs are done without them.
#![tactic(auto)]

#[cfg(test)]
mod boxed_tests;
#[cfg(test)]
mod engine_tests;
#[cfg(test)]
mod own_hooks_tests;
#[cfg(test)]
mod settings_tests;
#[cfg(test)]
mod ticket_tests;
#[cfg(test)]
mod trial;
