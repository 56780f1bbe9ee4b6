//! Quads, three-address code over virtual registers: their meaning, their traces with work, which registers are
//! live, and which quad programs are well formed, as definitions. `plain` answers a frame slot of its own for each
//! virtual register, below 456, one list for each function.
#![tactic(auto)]

mod code;
mod homes;

pub use code::{Operand, Quad, QuadFunction, QuadProgram, Where};
pub use homes::{Allocation, Home, plain};
pub use xmt_base::{BinOp, UnOp};
