//! Tests of commands, of controls with their flags, tickets and senders, of settings with the errors of a run, and of the filter by
//! patterns. The proofs of these crates are done without them: a crate with tests is proved once more with them.
#![tactic(auto)]

#[cfg(test)]
mod change_tests;
#[cfg(test)]
mod command_tests;
#[cfg(test)]
mod config_tests;
#[cfg(test)]
mod control_tests;
#[cfg(test)]
mod drawn_patterns;
#[cfg(test)]
mod expecting;
#[cfg(test)]
mod flag_tests;
#[cfg(test)]
mod patterns_tests;
#[cfg(test)]
mod sender_tests;
