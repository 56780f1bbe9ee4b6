//! Whole runs of an image under its options. `simulate` is the picked run of the seed that the options give; where they
//! give none, each control unit of a section is a host thread, and the run is one that some legal schedule leads to.
//! Which one that was is not promised.
#![tactic(auto)]

mod run;

pub use run::simulate;
