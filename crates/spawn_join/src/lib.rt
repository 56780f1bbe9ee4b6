//! The control units of one section, each on a host thread of its own, over words that they share. `section` runs each unit
//! until it has stopped, stands at a trap, or has spent its budget, and answers the words that they leave. What it did
//! is one legal history of these words: it begins with the words that were handed in and ends with those that are
//! answered, each unit has a number of its own, the entries of that number lead the unit from what it was to what it
//! has become, and there are no others. All have stopped; or the first unit of the list is named that stands at a trap
//! below the budget; or none does, and the first is named that has spent its budget. Without memory nothing has run.
//! Law `section_draws`: draws get the numbers from 0 on, each once and none left out. Law `section_merges`: a legal
//! schedule of the machine, one step at a time, leads to the same units and words.
#![tactic(auto)]

mod at_once;
mod end;
mod gate;
mod laws;
mod running;
mod worker;

pub use at_once::section;
pub use end::SectionEnd;
pub use gate::{Gate, OpenGate};
pub use laws::{section_draws, section_merges};
pub use worker::Worker;
