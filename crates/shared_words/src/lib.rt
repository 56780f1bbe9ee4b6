//! Words that threads share, and the passes with which they are reached. Each `load`, `store` and `add` of `Words`
//! appends one entry to one legal history, which extends all that the pass had seen; `enrol` draws a number that no
//! earlier entry has; `merge` tells that no number was held by both; a sole pass has seen everything; `close`
//! answers the replay of the history. No call takes a lock or tries again; that each is one atomic operation of the
//! processor is tested.
#![tactic(auto)]

mod log;
mod rule;
mod table;

pub use log::{Action, Entry, History, Known};
pub use table::{Pass, Words};
