//! The shared words and the calls on them, also from several threads at once. The tests stand in a crate of their own so
//! that the crates that they try are proved once.
#![tactic(auto)]

#[cfg(test)]
mod calls;
#[cfg(test)]
mod passes;
