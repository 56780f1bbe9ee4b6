//! The machine of many units under the schedule of a generator. `run_picked` is the picked run of the machine of a
//! loaded image: each end is that run's, reached by a legal schedule in which no unit passes its budget, with
//! exactly its output printed and its data words left; done means that the master has halted. After a fault or want
//! of memory a prefix of its output is printed; a fault comes only where the host's count rose, and never on a
//! steady host, unless the count stands at its end.
#![tactic(auto)]

mod choose;
mod run;

pub use run::run_picked;
