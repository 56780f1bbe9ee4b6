//! Values, operators, names, hosts and instructions. The tests stand in a crate of their own so that
//! the crates that they try are proved once.
#![tactic(auto)]

#[cfg(test)]
mod base;
#[cfg(test)]
mod host;
#[cfg(test)]
mod instructions;
