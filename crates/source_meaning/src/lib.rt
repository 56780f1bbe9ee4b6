//! The typed tree, and, as definitions, what a program means: its store, the steps of a thread, spawning, legal
//! schedules, traps and the end of a run, with worked examples that compute.
//!
//! `layout` and `opening` answer the stated lists: where the globals lie, and what they open with. `laws_of_runs`
//! carries laws of the meaning: joined schedules, steps on different cells commute, what a thread does unseen it
//! does in the configuration, and a run of a part is a run of the whole.
#![tactic(auto)]

mod globals;
mod meaning;
mod tree;

pub use globals::{layout, opening};
pub use meaning::laws_of_runs;
pub use tree::{Expr, ExprKind, Function, GlobalVar, Program, Register, Spot, Stmt, StmtKind};
pub use xmt_base::{BinOp, UnOp};
