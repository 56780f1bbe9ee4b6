//! Quads, and the functions and programs that are made of them.
use crate::{BinOp, UnOp};
use sqlite_items::Items;
use xmt_base::Symbol;

/// What a quad computes with.
#[derive(Clone, Copy, Debug, PartialEq, Eq)]
pub enum Operand {
    /// The virtual register with this number, of the function that holds the quad.
    Reg(u32),
    /// A number, as its 32 bits in two's complement.
    Literal(u32),
}

/// A place that several threads may reach.
#[derive(Clone, Copy, Debug, PartialEq, Eq)]
pub enum Where {
    /// The data word with this number.
    Word(u32),
    /// The data word so far behind this one.
    Element(u32, Operand),
    /// The outer word with this number, of the serial code's depth.
    Outer(u32),
    /// The prefix-sum register with this number.
    PsReg(u32),
}

/// A quad. Where it has a register first, that one is written.
#[derive(Clone, Copy, Debug, PartialEq, Eq)]
pub enum Quad {
    /// Sets a register to a value.
    Copy(u32, Operand),
    /// Sets a register to what a unary operator gives.
    Unary(UnOp, u32, Operand),
    /// Sets a register to what a binary operator gives, or traps where it has no value.
    Binary(BinOp, u32, Operand, Operand),
    /// Sets a register to the thread's number, which is 0 in serial code.
    Dollar(u32),
    /// Traps unless the index is one of an array of this length.
    Test(Operand, u32),
    /// Sets a register to what a place holds.
    Load(u32, Where),
    /// Writes a value to a place.
    Store(Where, Operand),
    /// Adds a value to a place, and sets a register to what the place held.
    Add(u32, Where, Operand),
    /// Goes to this position of the function.
    Jump(u32),
    /// Goes there if the value is 0.
    IfZero(Operand, u32),
    /// Goes there if the value is not 0.
    IfNot(Operand, u32),
    /// Writes a value to this place of the argument list.
    Argument(u32, Operand),
    /// Sets a register to what this place of the argument list holds.
    Parameter(u32, u32),
    /// Enters the function with this number, one deeper, with registers of its own.
    Call(u32),
    /// Sets a register to what the thread's last `Return` gave.
    Result(u32),
    /// Goes back behind the call with a value, or ends the thread where there is no call.
    Return(Operand),
    /// Prints the text with this number, with the values of the argument list from its first place
    /// on.
    Print(u32),
    /// Makes a thread for each number from one to the other, and goes on behind the next `Join`
    /// once they have ended. The threads begin at the next quad.
    Spawn(Operand, Operand),
    /// Ends a thread of the block that stands between the `Spawn` before it and this quad.
    Join,
}

/// The quads of a function.
#[derive(Drop)]
pub struct QuadFunction {
    pub quads: Items<Quad>,
    /// The source line of each quad.
    pub lines: Items<u32>,
    /// The virtual registers are those below this number.
    pub registers: u32,
    /// Whether blocks may call it.
    pub inner: bool,
}

/// A program of quads.
#[derive(Drop)]
pub struct QuadProgram {
    pub functions: Items<QuadFunction>,
    /// The number of the main function.
    pub main: u32,
    /// What `Print` prints: bytes with `%d` and `%%`.
    pub texts: Items<Items<u8>>,
    /// The globals in the order of their words.
    pub symbols: Items<Symbol>,
    /// What the data words open with.
    pub words: Items<u32>,
    /// What the prefix-sum registers open with.
    pub ps: [u32; 8],
    /// How many outer words there are per call depth.
    pub outer: u32,
}
