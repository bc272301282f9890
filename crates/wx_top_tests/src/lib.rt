//! Tests of `wx_top`.
#![tactic(auto)]

#[cfg(test)]
mod flood_tests;
#[cfg(test)]
mod word_tests;
