//! `live_in` answers, rising, exactly the registers that some path from a position reads before it writes them;
//! `live_positions` marks exactly the positions where a register is live. Want of memory alone is free.
#![tactic(auto)]

mod live;
mod marking;
mod operands;

pub use live::live_in;
pub use marking::live_positions;
