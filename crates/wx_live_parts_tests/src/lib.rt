//! Tests of `wx_live_parts`, with real children and real files.
#![tactic(auto)]

#[cfg(test)]
mod child_tests;
#[cfg(test)]
mod expecting;
#[cfg(test)]
mod file_tests;
#[cfg(test)]
mod rest_tests;
#[cfg(test)]
mod trial;
