//! Images: code with its lines, functions, texts, symbols and data words.
use sqlite_items::Items;
use xmt_base::Symbol;

/// An instruction as it is encoded: its number, three register fields and a number of 32 bits. A
/// field that the instruction doesn't use is 0. `Instr::operation` gives its meaning.
#[derive(Clone, Copy, Debug, PartialEq, Eq)]
pub struct Instr {
    pub op: u8,
    pub a: u8,
    pub b: u8,
    pub c: u8,
    pub imm: u32,
}

/// A function: its first instruction, how many slots a frame of it has, and 1 where blocks may
/// call it, else 0. It reaches to the next function's start, the last one to the end of the code.
#[derive(Clone, Copy, Debug, PartialEq, Eq)]
pub struct FunctionEntry {
    pub start: u32,
    pub slots: u32,
    pub inner: u32,
}

/// A compiled program.
#[derive(Debug, Drop)]
pub struct Image {
    pub code: Items<Instr>,
    /// The source line of each instruction.
    pub lines: Items<u32>,
    pub functions: Items<FunctionEntry>,
    /// What `prt` prints: bytes with `%d` and `%%`.
    pub texts: Items<Items<u8>>,
    /// The globals in the order of their words.
    pub symbols: Items<Symbol>,
    /// What the data words open with.
    pub words: Items<u32>,
    /// What the prefix-sum registers open with.
    pub ps: [u32; 8],
    /// How many outer words there are per call depth.
    pub outer: u32,
    /// The number of the main function.
    pub entry: u32,
}
