//! Units of small images, one call at a time. The tests stand in a crate of their own so that the
//! engine is proved once.
#![tactic(auto)]

#[cfg(test)]
mod tests;
