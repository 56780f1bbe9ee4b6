//! Whole runs in which each control unit of a section has a host thread of its own. `run_threaded` runs the master on a
//! plain vector of words, one turn after another, and hands each section to host threads. Each end is one that a legal
//! schedule of the machine leads to, in which no unit passes its budget, with exactly its output printed and its
//! data words left; done means that the master has halted. After a fault or want of memory a prefix of what a legal
//! schedule prints is printed; a fault comes only where the host's count rose. Which schedule it was is not promised.
#![tactic(auto)]

mod run;
mod sections;
mod units;
mod words;

pub use run::run_threaded;
