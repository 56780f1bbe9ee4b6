//! The rules of spawn blocks. `check` accepts exactly the programs that meet no line of the table of spawn blocks,
//! and refuses each other one by the first line that it meets, by place and then by the table.
//!
//! `written_inside` answers, rising, exactly the variables that a block writes and doesn't declare. `has_few_words`
//! decides whether the words that threads share are at most 2^20, `shared_variables` counts the variables of a
//! function that some block writes and doesn't declare, and `marks_of` tells which functions have a print or a
//! spawn, or reach one by calls.
#![tactic(auto)]

mod first;
mod marking;
mod questions;
mod refusal;
mod shared;
mod table;
mod things;
mod written;

pub use marking::marks_of;
pub use refusal::{SpawnKind, SpawnRefusal};
pub use shared::{has_few_words, is_shared, outer_words, shared_variables};
pub use table::check;
pub use things::Sought;
pub use written::written_inside;
