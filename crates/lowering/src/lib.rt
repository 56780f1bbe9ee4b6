//! From the typed tree to quads. `lower` answers the stated quads of a checked program within the limits: they are
//! well formed, each of their traces is one of the program, with a work of at most 64 for each step of the source
//! and 40 more, and they weigh at most 64 a node. Want of memory alone is free.
#![tactic(auto)]

mod code;
mod expressions;
mod functions;
mod layout;
mod loops;
mod program;
mod statements;
mod sums;
mod tables;
mod texts;

pub use code::Placed;
pub use expressions::emit_expression;
pub use layout::Layout;
pub use loops::Exits;
pub use program::lower;
pub use tables::Tables;
pub use texts::Texts;
