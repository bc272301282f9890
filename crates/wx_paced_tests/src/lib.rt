//! Tests of `wx_paced`.
#![tactic(auto)]

#[cfg(test)]
mod tests;
