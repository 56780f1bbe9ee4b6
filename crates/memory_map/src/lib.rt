//! Maps and dumps. `read_map` puts the values of a map over the opening words, and refuses exactly at the first
//! faulty line; `write_map` writes the dump, and reading a dump gives its memory. Want of memory alone is free.
#![tactic(auto)]

mod dump;
mod laws;
mod lines;
mod numbers;
mod read;

pub use dump::write_map;
pub use laws::dump_is_read;
pub use read::{MapRefusal, read_map};
