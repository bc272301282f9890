//! Tests of what keeps watches on trees, below `wx_fs`: worked runs, each by a proof that computes it from the definitions; what is
//! held, a step, a rebuild and changes of the tree, over a tree in memory that may change between two looks, with a backend and a
//! judge of directories that fail where they are told to; and the lists with an index.
#![tactic(auto)]

#[cfg(test)]
mod failing_tests;
#[cfg(test)]
mod holding_tests;
#[cfg(test)]
mod index_tests;
#[cfg(test)]
mod link_tests;
#[cfg(test)]
mod passes;
#[cfg(test)]
mod rebuild_tests;
#[cfg(test)]
mod rows;
#[cfg(test)]
mod runs;
#[cfg(test)]
mod sequences;
#[cfg(test)]
mod setup;
#[cfg(test)]
mod shown;
#[cfg(test)]
mod step_tests;
#[cfg(test)]
mod topology_tests;
#[cfg(test)]
mod trial;
