//! The grammar as a relation, its raw tree, and the readers of it as functions on lists of tokens. `one_tree`: over
//! one source a list of tokens spells at most one tree. The functions on single tokens answer what the definitions
//! say. That what is read is spelled, and what is spelled is read, are lemmas here.
#![tactic(auto)]

ghost use Rattle.raw_tree.specs.Items as grammar;

pub mod kinds;
pub mod read;
mod tree;

pub use tree::{
    Qualifier, RawDecl, RawExpr, RawExprKind, RawFirst, RawGlobal, RawItem, RawItemKind, RawLocal,
    RawName, RawParam, RawParams, RawProgram, RawRegister, RawResult, RawSpot, RawStmt,
    RawStmtKind, RawText, RawType, RawValues,
};

/// Over one source a list of tokens spells at most one tree.
pub fn one_tree()
    ensures { grammar.OneTree }
{}
