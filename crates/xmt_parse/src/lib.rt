//! The parser. `parse` answers the tree that the tokens of a source spell, of nesting at most 200; Syntax only
//! where they spell none, at a token or at the end; TooDeep exactly by its rule. Want of memory alone is free.
#![tactic(auto)]

ghost use Rattle.std.specs.Prelude.{◌≤◌, ◌^◌, length};
ghost use Rattle.xmt_parse.specs.Law as law;

mod deep;
mod item_nodes;
mod items;
mod places;

use deep::too_deep;
use items::read_items;
use places::{end_of, place_at};
use raw_tree::read::ReadError;
pub use raw_tree::{
    Qualifier, RawDecl, RawExpr, RawExprKind, RawFirst, RawGlobal, RawItem, RawItemKind, RawLocal,
    RawName, RawParam, RawParams, RawProgram, RawRegister, RawResult, RawSpot, RawStmt,
    RawStmtKind, RawText, RawType, RawValues,
};
use std::alloc::Global;
use thiserror::Error;
use xmt_base::Place;
use xmt_lex::Token;

/// Why tokens have no tree.
#[derive(Clone, Copy, Debug, PartialEq, Eq, Error)]
pub enum ParseRefusal {
    /// More than 200 of `(`, `[` and `{` stand open: the first token at which they do.
    #[error("brackets are too deep at {0:?}")]
    TooDeep(Place),
    /// The tokens spell no program of nesting at most 200: the first token that does not fit, or
    /// the end of the source.
    #[error("syntax error at {0:?}")]
    Syntax(Place),
    #[error("out of memory")]
    NoMemory,
}

/// The deepest nesting of a program.
const DEPTH: u32 = 200;

/// The tree that the tokens of a source spell.
pub fn parse(alloc: Global, source: &[u8], tokens: &[Token]) -> Result<RawProgram, ParseRefusal>
    requires { length source.now ≤ 2 ^ 20 }
    ensures { law.Parses result source.now tokens.now }
{
    if let Some(place) = too_deep(tokens) {
        return Err(ParseRefusal::TooDeep(place));
    }
    match read_items(alloc, source, DEPTH, tokens) {
        Ok(items) => Ok(RawProgram {
            items,
            end: end_of(source),
        }),
        Err(ReadError::Syntax(left)) => {
            Err(ParseRefusal::Syntax(place_at(source, tokens, left)))
        }
        Err(ReadError::NoMemory) => Err(ParseRefusal::NoMemory),
    }
}
