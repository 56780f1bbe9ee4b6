//! From the typed tree to an image: where globals lie, quads and what is live in them, homes of
//! registers, masks and code. The tests stand in a crate of their own so that the crates that they
//! try are proved once.
#![tactic(auto)]

#[cfg(test)]
mod code_tests;
#[cfg(test)]
mod compile_tests;
#[cfg(test)]
mod home_tests;
#[cfg(test)]
mod layout_tests;
#[cfg(test)]
mod live_tests;
#[cfg(test)]
mod mask_tests;
