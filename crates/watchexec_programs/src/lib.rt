//! Programs over the crates that bear the names of the Rust crates, as a user writes them. A test runs each.
#![tactic(auto)]

#[cfg(test)]
mod driven;
#[cfg(test)]
mod env;
#[cfg(test)]
mod filters;
#[cfg(test)]
mod prints;
#[cfg(test)]
mod restarts;
#[cfg(test)]
mod runs;
#[cfg(test)]
mod supervises;
#[cfg(test)]
mod tests;
