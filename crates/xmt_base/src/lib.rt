//! What the whole toolchain shares: places in a source, traps, symbols and memories, the operators, names and
//! printed texts, and the generator of picked runs.
//!
//! `unary` and `binary` compute the operators on numbers of 32 bits, and `binary` answers none exactly where a
//! division by 0 traps. `is_name` and `is_format` decide how a name is spelled and which texts can be printed.
//! `Picker::pick` answers the stated number. The actions of a trace, of any code, are a definition here.
#![tactic(auto)]

mod formats;
mod names;
mod operators;
mod picker;
mod values;

pub use formats::is_format;
pub use names::{KEYWORDS, is_name};
pub use operators::{BinOp, UnOp, binary, unary};
pub use picker::Picker;
pub use values::{Memory, Place, Symbol, Trap, TrapKind};
