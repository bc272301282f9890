//! Tests of engines in worlds with handles, whose jobs are used from several threads.
#![tactic(auto)]

#[cfg(test)]
mod threads_tests;
