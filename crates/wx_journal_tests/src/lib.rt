//! Tests of `wx_journal`, `wx_script` and `wx_refusal`, whose proofs are done without them: a crate with tests is proved once more
//! with them.
#![tactic(auto)]

#[cfg(test)]
mod answer_tests;
#[cfg(test)]
mod entry_tests;
#[cfg(test)]
mod expecting;
#[cfg(test)]
mod keeping_tests;
#[cfg(test)]
mod list_tests;
#[cfg(test)]
mod refusal_tests;
#[cfg(test)]
mod script_tests;
#[cfg(test)]
mod word_tests;
