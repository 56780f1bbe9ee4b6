//! The options of runs of the machine, and how runs end. Definitions of types alone, on which each layer stands
//! that sees an option.
#![tactic(auto)]

mod options;

pub use options::{SimEnd, SimOptions};
