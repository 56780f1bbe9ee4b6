//! The tree of the grammar: a type for each production, a variant for each alternative, and a
//! field for each part that is no fixed token. Each node, name and text has the place of its
//! first token. The levels of an expression share one type.

use sqlite_items::{Boxed, Items};
use xmt_base::Place;
use xmt_lex::Mark;

/// A name, as its bytes.
#[derive(Drop)]
pub struct RawName {
    pub at: Place,
    pub bytes: Items<u8>,
}

/// A text, as the bytes between its quotes, each escape as the byte that it stands for.
#[derive(Drop)]
pub struct RawText {
    pub at: Place,
    pub bytes: Items<u8>,
}

#[cycle(raw)]
#[derive(Drop)]
pub struct RawExpr {
    pub at: Place,
    pub kind: RawExprKind,
}

#[cycle(raw)]
#[derive(Drop)]
pub enum RawExprKind {
    Assign(RawSpot, Mark, Boxed<RawExpr>),
    Choose(Boxed<RawExpr>, Boxed<RawExpr>, Boxed<RawExpr>),
    Binary(Mark, Boxed<RawExpr>, Boxed<RawExpr>),
    Prefix(Mark, Boxed<RawExpr>),
    StepBefore(Mark, RawSpot),
    StepAfter(RawSpot, Mark),
    Read(RawSpot),
    Call(RawName, Items<RawExpr>),
    Number(u32),
    Dollar,
    Brackets(Boxed<RawExpr>),
}

#[cycle(raw)]
#[derive(Drop)]
pub enum RawSpot {
    Name(RawName),
    Element(RawName, Boxed<RawExpr>),
}

#[derive(Drop)]
pub struct RawLocal {
    pub name: RawName,
    pub value: Option<Boxed<RawExpr>>,
}

/// A word before the `int` of a type.
#[derive(Clone, Copy, Debug, PartialEq, Eq)]
pub enum Qualifier {
    Const,
    Volatile,
}

/// A type: its qualifiers in order, then `int`.
#[derive(Drop)]
pub struct RawType {
    pub at: Place,
    pub qualifiers: Items<Qualifier>,
}

#[derive(Drop)]
pub struct RawDecl {
    pub at: Place,
    pub ty: RawType,
    pub locals: Items<RawLocal>,
}

#[derive(Drop)]
pub enum RawFirst {
    Decl(RawDecl),
    Value(Option<Boxed<RawExpr>>),
}

#[cycle(raw_code)]
#[derive(Drop)]
pub struct RawStmt {
    pub at: Place,
    pub kind: RawStmtKind,
}

#[cycle(raw_code)]
#[derive(Drop)]
pub enum RawStmtKind {
    Block(Items<RawStmt>),
    Decl(Boxed<RawDecl>),
    Empty,
    Value(Boxed<RawExpr>),
    If(Boxed<RawExpr>, Boxed<RawStmt>, Option<Boxed<RawStmt>>),
    While(Boxed<RawExpr>, Boxed<RawStmt>),
    Do(Boxed<RawStmt>, Boxed<RawExpr>),
    For(Boxed<RawFirst>, Option<Boxed<RawExpr>>, Option<Boxed<RawExpr>>, Boxed<RawStmt>),
    Break,
    Continue,
    Return(Option<Boxed<RawExpr>>),
    Spawn(Boxed<RawExpr>, Boxed<RawExpr>, Items<RawStmt>),
    Ps(RawName, RawName),
    Psm(RawName, Boxed<RawSpot>),
    Print(RawText, Items<RawExpr>),
}

#[derive(Drop)]
pub enum RawGlobal {
    Scalar(RawName, Option<Boxed<RawExpr>>),
    Array(RawName, Boxed<RawExpr>, Option<RawValues>),
    Open(RawName, RawValues),
}

/// The values, and whether a comma stands behind the last one.
#[derive(Drop)]
pub struct RawValues {
    pub at: Place,
    pub values: Items<RawExpr>,
    pub comma: bool,
}

#[derive(Drop)]
pub struct RawRegister {
    pub name: RawName,
    pub value: Option<Boxed<RawExpr>>,
}

/// The head of a function: with `int`, with `void`, or `main` alone.
#[derive(Drop)]
pub enum RawResult {
    Int(RawName),
    Void(RawName),
    Main(RawName),
}

#[derive(Drop)]
pub struct RawParam {
    pub ty: RawType,
    pub name: Option<RawName>,
}

/// What stands between the brackets of a head: nothing, `void`, or parameters.
#[derive(Drop)]
pub enum RawParams {
    Nothing,
    Void,
    Some(Items<RawParam>),
}

#[derive(Drop)]
pub struct RawItem {
    pub at: Place,
    pub kind: RawItemKind,
}

#[derive(Drop)]
pub enum RawItemKind {
    Globals(RawType, Items<RawGlobal>),
    Registers(bool, Items<RawRegister>),
    Function(RawResult, RawParams, Items<RawStmt>),
    Proto(RawResult, RawParams),
}

#[derive(Drop)]
pub struct RawProgram {
    pub items: Items<RawItem>,
    pub end: Place,
}
