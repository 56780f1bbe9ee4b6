//! What a unit is at.
use xmt_base::Trap;
use xmt_isa::SpawnAsk;

/// What a unit asks for, or why it goes no further. A place is that of a word in the machine's
/// table.
#[derive(Clone, Copy, Debug, PartialEq, Eq)]
pub enum Ask {
    Load(u32),
    Store(u32, u32),
    /// Adds to a word, and asks for what it held.
    Add(u32, u32),
    /// The next number of a thread.
    Draw,
    /// The print of the text with this number.
    Print(u32),
    Spawn(SpawnAsk),
    /// It has run as many instructions as it was let, and its next one touches it alone.
    Pause,
    /// A control unit that drew a number past the count.
    Stopped,
    /// The master behind the end of the main function.
    Halt,
    Trap(Trap),
    /// It has done as many steps as the budget.
    Spent,
}
