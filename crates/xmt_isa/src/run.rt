//! How a picked run of the machine goes on.
use xmt_base::Trap;

/// How a picked run goes on.
#[derive(Clone, Copy, Debug, PartialEq, Eq)]
pub enum Choice {
    /// No unit can step.
    Done,
    Trap(Trap),
    /// A unit has spent its budget.
    Spent { unit: u32, steps: u64 },
    /// A turn of the unit in this place, the master being in place 0.
    Step(usize),
}
