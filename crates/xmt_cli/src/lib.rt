//! The words of a call. `read_words` answers the job that they are, and refuses exactly where they are none, but
//! for want of memory. `jobs_are_spelled` says which words those are: `cc`, `sim` or `run` and then parts in any
//! order, with one file, each option at most once and each number in its range; `cc` has `--out` alone, and the
//! others don't have it.
#![tactic(auto)]

mod given;
mod job;
mod laws;
mod numbers;
mod read;
mod texts;

pub use given::{Given, Key, State};
pub use job::{Command, Job, WordsRefusal};
pub use laws::jobs_are_spelled;
pub use read::{Start, read_words};
