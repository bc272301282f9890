//! Tests of `wx_reader` and `wx_live_run`.
#![tactic(auto)]

#[cfg(test)]
mod gate;
#[cfg(test)]
mod gate_tests;
#[cfg(test)]
mod live_tests;
#[cfg(test)]
mod reader_tests;
#[cfg(test)]
mod trial;
