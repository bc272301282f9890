//! Tests of `wx_fs`, with a backend and a judge of directories that fail where they are told to, and with a poller; of `wx_poller` and
//! `wx_mem_tree`, and of the places of `wx_tree`.
#![tactic(auto)]

#[cfg(test)]
mod drawn;
#[cfg(test)]
mod drawn_tests;
#[cfg(test)]
mod mem_tree_tests;
#[cfg(test)]
mod outside;
#[cfg(test)]
mod place_tests;
#[cfg(test)]
mod poller_tests;
#[cfg(test)]
mod public_tests;
#[cfg(test)]
mod runs;
#[cfg(test)]
mod tests;
#[cfg(test)]
mod topology_tests;
#[cfg(test)]
mod trial;
