//! Tests of the words and of what is written with them, of paths, keys and summaries, of what backends bring, of lanes and of
//! the queue. The proofs of these crates are done without them: a crate with tests is proved once more with them.
#![tactic(auto)]

#[cfg(test)]
mod event_tests;
#[cfg(test)]
mod expecting;
#[cfg(test)]
mod key_tests;
#[cfg(test)]
mod lane_tests;
#[cfg(test)]
mod notify_tests;
#[cfg(test)]
mod path_tests;
#[cfg(test)]
mod public_tests;
#[cfg(test)]
mod queue_tests;
#[cfg(test)]
mod summary_tests;
#[cfg(test)]
mod topology_tests;
#[cfg(test)]
mod words_tests;
