//! What names stand for, and the measures of raw trees. `Scope` finds the last declaration in reach by a table, and
//! not by going through names. `constant` answers the value of a constant expression, or none; `nodes` and
//! `waiting` count those of raw trees; `earlier` answers the first of two breaches by place and then by kind.
#![tactic(auto)]

mod constants;
mod fault;
mod format;
mod locals;
mod scope;
mod size;

pub use constants::{binary_of, constant, unary_of};
pub use fault::{Fault, NameKind, Which, breach, earlier, when};
pub use format::printed_values;
pub use locals::{Locals, is_constant};
pub use scope::{Binding, Declared, Meaning, Scope, no_names};
pub use size::{nodes, nodes_of_all, nodes_of_spot, waiting, waiting_of_read, waiting_of_values};
