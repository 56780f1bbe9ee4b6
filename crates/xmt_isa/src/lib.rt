//! The instruction set, images, and, as definitions, which images are valid and the machine that runs them: a
//! master and control units over shared words, its schedules, and the traces of an image.
//!
//! `Instr::operation` and `Operation::instruction` lead from an instruction's 8 bytes to its meaning and back, by
//! the table. `valid_images_are_sound`: each instruction of a valid image has a meaning and its operands, its
//! registers and slots are in range, and it leads to an instruction of its own function, in the same block or
//! outside all blocks.
#![tactic(auto)]

mod image;
mod laws;
mod operation;
mod run;
mod unit;

pub use image::{FunctionEntry, Image, Instr};
pub use laws::valid_images_are_sound;
pub use operation::{Location, Operation};
pub use run::Choice;
pub use unit::{Counts, Next, Request, SpawnAsk, Start, Unit, UnitState};
