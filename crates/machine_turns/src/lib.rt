//! The machine of many units, turn by turn. `opening` is the machine at the beginning of a run; `take_turn` is one turn
//! of a unit that has one, with exactly what it prints given to the host; `run_on` runs the unit that alone may be
//! active until it asks for something, which is so many turns of it; `sole_choice` says how a run goes on there.
//! What a machine keeps between turns is `Kept`: each unit fits the image, and what it does next is known. After a
//! fault or want of memory a prefix of what the turn prints was given to the host.
#![tactic(auto)]

mod beginning;
mod cells;
mod data;
mod machine;
mod only_unit;
mod print;
mod seats;
mod sections;
mod turn;

pub use beginning::opening;
pub use data::data_words;
pub use machine::Machine;
pub use only_unit::{is_active, run_on, sole_choice, sole_place};
pub use seats::{Seat, reply_in};
pub use sections::broadcast;
pub use turn::take_turn;
