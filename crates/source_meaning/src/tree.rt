//! The typed tree: every name is a number, and every text is bytes.
//!
//! Globals, registers and functions are numbered in the order of their declarations, each kind
//! from 0 on. So are the variables of a function, parameters first.

use crate::{BinOp, UnOp};
use sqlite_items::{Boxed, Items};
use xmt_base::Place;

/// What an expression reads or writes.
#[cycle(tree)]
#[derive(Drop)]
pub enum Spot {
    /// The global with this number, which is no array.
    Global(u32),
    /// An element of the array with this number, and its index.
    Element(u32, Boxed<Expr>),
    /// The prefix-sum register with this number.
    Register(u32),
    /// The variable of the function with this number.
    Local(u32),
}

/// An expression.
#[cycle(tree)]
#[derive(Drop)]
pub struct Expr {
    /// Where its first token stands.
    pub at: Place,
    pub kind: ExprKind,
}

/// What an expression is. Evaluation goes strictly from left to right.
#[cycle(tree)]
#[derive(Drop)]
pub enum ExprKind {
    /// A number, as its 32 bits in two's complement.
    Number(u32),
    /// `$`, the number of the virtual thread.
    Dollar,
    /// The value of a spot.
    Read(Spot),
    /// `spot = e`
    Assign(Spot, Boxed<Expr>),
    /// `spot op= e`
    Update(BinOp, Spot, Boxed<Expr>),
    /// `++spot`, `--spot`, `spot++` or `spot--`: `up` tells whether 1 is added or taken away, and
    /// `after` whether the mark stands behind the spot, so that the value is the old one.
    Step { spot: Spot, up: bool, after: bool },
    /// A unary operator and its operand.
    Unary(UnOp, Boxed<Expr>),
    /// A binary operator with its left and its right operand.
    Binary(BinOp, Boxed<Expr>, Boxed<Expr>),
    /// `a && b`
    Both(Boxed<Expr>, Boxed<Expr>),
    /// `a || b`
    Either(Boxed<Expr>, Boxed<Expr>),
    /// `test ? a : b`
    Choose(Boxed<Expr>, Boxed<Expr>, Boxed<Expr>),
    /// A call of the function with this number, with the values of its parameters.
    Call(u32, Items<Expr>),
}

/// A statement.
#[cycle(code)]
#[derive(Drop)]
pub struct Stmt {
    /// Where its first token stands.
    pub at: Place,
    pub kind: StmtKind,
}

/// What a statement is.
#[cycle(code)]
#[derive(Drop)]
pub enum StmtKind {
    /// `;`
    Empty,
    /// An expression whose value is dropped.
    Value(Boxed<Expr>),
    /// The declaration of a variable, which sets it to the value, or to 0.
    Declare(u32, Option<Boxed<Expr>>),
    /// `{ .. }`
    Block(Items<Stmt>),
    /// `if (test) body else other`
    If(Boxed<Expr>, Boxed<Stmt>, Option<Boxed<Stmt>>),
    /// `while (test) body`
    While(Boxed<Expr>, Boxed<Stmt>),
    /// `do body while (test);`
    Do(Boxed<Stmt>, Boxed<Expr>),
    /// `for (first test; third) body`, where the first part is a list of declarations, an
    /// expression statement, or nothing.
    For(Items<Stmt>, Option<Boxed<Expr>>, Option<Boxed<Expr>>, Boxed<Stmt>),
    /// `break;`
    Break,
    /// `continue;`
    Continue,
    /// `return;` or `return e;`
    Return(Option<Boxed<Expr>>),
    /// `spawn(low, high) { .. }`: a virtual thread for each number from low to high, both included.
    Spawn(Boxed<Expr>, Boxed<Expr>, Items<Stmt>),
    /// `ps(spot, register);`: adds the spot's value to the register with this number, and writes
    /// the register's old value to the spot, which is a scalar global or a variable.
    Ps(Spot, u32),
    /// `psm(spot, place);`: the same on a place in memory, which is no register.
    Psm(Spot, Spot),
    /// `printf(text, ..);`: the text has its escapes read, and a value for each `%d`.
    Print(Items<u8>, Items<Expr>),
}

/// A function.
#[derive(Drop)]
pub struct Function {
    pub name: Items<u8>,
    /// Whether its calls have a value.
    pub value: bool,
    /// How many parameters it has.
    pub params: u32,
    /// How many variables it has, parameters included.
    pub variables: u32,
    pub body: Items<Stmt>,
}

/// A global: a scalar, or an array.
#[derive(Drop)]
pub struct GlobalVar {
    pub name: Items<u8>,
    /// Whether it is an array.
    pub array: bool,
    /// How many words it has, which is 1 for a scalar.
    pub length: u32,
    /// Whether it is declared `const`.
    pub constant: bool,
    /// The given initial values, in order. The rest of its length begins as 0.
    pub opening: Items<u32>,
}

/// A prefix-sum register.
#[derive(Drop)]
pub struct Register {
    pub name: Items<u8>,
    /// Its initial value.
    pub opening: u32,
}

/// A program.
#[derive(Drop)]
pub struct Program {
    pub globals: Items<GlobalVar>,
    pub registers: Items<Register>,
    pub functions: Items<Function>,
    /// The number of the function `main`.
    pub main: u32,
}
