//! How a run is to go, and how it ends.
use xmt_base::{Memory, Trap};

/// How a run is to go.
#[derive(Clone, Copy, Debug, PartialEq, Eq)]
pub struct SimOptions {
    /// How many control units there are, from 1 to 64.
    pub units: u32,
    /// How many steps each unit may do, from 1 to 2^40.
    pub budget: u64,
    /// What the generator begins with that picks each turn. Without one each control unit of a section is a host thread.
    pub seed: Option<u64>,
}

/// How a run ends.
#[derive(Debug, Drop)]
pub enum SimEnd {
    /// The main function has ended, with these data words.
    Done(Memory),
    Trap(Trap),
    /// A unit has spent its budget.
    Spent { unit: u32, steps: u64 },
    /// The host took no more of the output.
    WriteFault,
    NoMemory,
}
