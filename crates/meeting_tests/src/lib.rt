//! Two control units that meet: at a gate at which each waits for the other, both are on host threads at the same time.
//! The tests stand in a crate of their own so that the crates that they try are proved once.
#![tactic(auto)]

#[cfg(test)]
mod gate;
#[cfg(test)]
mod tests;
