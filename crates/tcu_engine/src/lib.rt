//! The steps of one unit of a loaded image. `advance` runs the unit's own instructions, at most as many as it is
//! let, and says what comes then, each answer exactly where its cause holds: it has halted, it has stopped, its
//! steps are the budget, its next instruction traps, it asks for something that is shared, or it goes on. `answer`
//! makes of a unit and a reply what the machine's definition says, and counts the step. `trap_at` answers the trap
//! at which a unit stands, with kind, line and thread, and none exactly where it stands at none. `piece` answers
//! the bytes of a print, and alone takes memory. All keep that the unit stands where it may.
#![tactic(auto)]

mod ask;
mod cells;
mod replies;
mod running;
mod text;
mod trap;
mod units;

pub use ask::Ask;
pub use replies::answer;
pub use running::advance;
pub use text::piece;
pub use trap::trap_at;
