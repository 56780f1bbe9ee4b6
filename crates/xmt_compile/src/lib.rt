//! The compiler. `compile` answers an image that *implements* the program of the source, with at most 64
//! instructions for each node of its tree, and refuses exactly the sources that have no program, by the first rule
//! that they break, but for want of memory.
//!
//! An image implements a program where, for every opening memory, every number of units from 1 to 64 and every
//! legal schedule of the machine, some legal schedule of the source prints the same, ends where the machine has
//! ended with the same globals, and stands at a trap where a unit does, with kind, line and thread; no unit has
//! taken more than 64 steps for each step of the source, and 64; with one unit it is the rising schedule.
//! `traces_implement`: an image does so whose traces are those of the program.
#![tactic(auto)]

mod compiler;
mod law;

pub use compiler::compile;
pub use front_end::{SourceKind, SourceRefusal, Which, front};
pub use law::traces_implement;
