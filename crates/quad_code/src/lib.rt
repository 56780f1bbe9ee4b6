//! The quads of expressions, statements, functions and programs, as definitions. Law `quads_have_paid_traces`: they
//! have the program's traces, by themselves and whatever is replied to their loads, with a work of at most 64 for
//! each step of the source and 40 more.
#![tactic(auto)]

mod law;

pub use law::quads_have_paid_traces;
use xmt_quads::Where;

/// How a variable or another place is reached.
#[derive(Clone, Copy, Debug, PartialEq, Eq)]
pub enum Access {
    /// In the virtual register with this number, which is the variable's own.
    Own(u32),
    /// At a place that several threads may reach.
    Common(Where),
}
