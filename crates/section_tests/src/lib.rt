//! Sections of small images on host threads, with 1, 2 and 4 units. The tests stand in a crate of their own so that the
//! crate that they try is proved once.
#![tactic(auto)]

#[cfg(test)]
mod images;
#[cfg(test)]
mod tests;
