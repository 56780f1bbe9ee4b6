//! `node_count`, `nest_depth`, `waiting` and `statement_waiting` answer the number of nodes of a typed tree, its
//! nesting, and how many values wait at most in an expression or a statement, or the greatest number of their type
//! where the measure is above it.
#![tactic(auto)]

mod nesting;
mod nodes;
mod waits;

pub use nesting::nest_depth;
pub use nodes::node_count;
pub use waits::{statement_waiting, waiting};
