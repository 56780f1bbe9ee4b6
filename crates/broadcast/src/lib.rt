//! `masks` answers one mask for each spawn, in the order of the program, whose bits are exactly the machine
//! registers that hold a register which is live where the block begins. Want of memory alone is free.
//! `slots_have_no_masks`: where each register lives in a slot of its own, all masks are 0.
#![tactic(auto)]

mod positions;
mod slots;
mod spawns;

pub use slots::slots_have_no_masks;
pub use spawns::masks;
