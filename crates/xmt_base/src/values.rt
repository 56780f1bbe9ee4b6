//! Places, traps, symbols and memories.
use sqlite_items::Items;

/// Where something stands in a source: line and column, both counted from 1, columns in bytes.
#[derive(Clone, Copy, Debug, PartialEq, Eq)]
pub struct Place {
    pub line: u32,
    pub column: u32,
}

/// Why a thread traps.
#[derive(Clone, Copy, Debug, PartialEq, Eq)]
pub enum TrapKind {
    /// `/` or `%` by 0.
    DivideByZero,
    /// An index outside its array.
    Index,
    /// An increment of `ps` other than 0 and 1.
    PsIncrement,
    /// The 257th nested call of one thread.
    CallDepth,
    /// An access outside the data words, which no compiled program makes.
    Address,
}

/// A trap: its kind, the source line, and the number of the virtual thread, or none for serial
/// code. The number is one of 32 bits in two's complement.
#[derive(Clone, Copy, Debug, PartialEq, Eq)]
pub struct Trap {
    pub kind: TrapKind,
    pub line: u32,
    pub thread: Option<u32>,
}

/// A global: its name, its first word among the data words, and how many words it has.
#[derive(Debug, Drop)]
pub struct Symbol {
    pub name: Items<u8>,
    pub base: u32,
    pub length: u32,
}

/// The data words: those of all globals, one after another.
#[derive(Debug, Drop)]
pub struct Memory {
    pub words: Items<u32>,
}
