//! The top call, the messages, and what is proved of a whole call. With codes 0, 4 and 5 of `run`, where the host
//! tells its files, the file has the source of a program, and by some legal schedule of the source, an interleaving
//! of its serial code and virtual threads, each number from low to high run once, it has printed exactly what was
//! printed; with 0 it has ended, and the dump has the words that it leaves; with 4 a thread stands at the trap of
//! the line; with 5 the steps are the budget. The machine's own schedule is a legal one too: with a seed the one that
//! it picks; without one each control unit is a host thread, and which schedule it was isn't promised. Every other
//! code has its cause, where files are told, and its line.
//! PROOFS.md has the clauses in words.
#![tactic(auto)]

mod messages;
mod print;
mod report;
mod top;

pub use report::Status;
pub use top::xmt;
