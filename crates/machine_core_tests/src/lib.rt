//! Small images under picked schedules. The tests stand in a crate of their own so that the machine
//! is proved once.
#![tactic(auto)]

#[cfg(test)]
mod programs;
#[cfg(test)]
mod tests;
