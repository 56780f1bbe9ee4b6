//! From a source to its typed tree, before the rules of spawn blocks are tried.
ghost use Rattle.std.specs.Prelude.{◌≤◌, ◌^◌, length};

use source_meaning::Program;
use std::alloc::Global;
use xmt_lex::{Token, lex};
use xmt_parse::parse;
use xmt_types::resolve;

/// The typed tree of a source, or what the source lacks.
pub enum Tree {
    Typed(Program),
    Refused(&'static str),
}

const BYTES: usize = 1 << 20;

/// The typed tree of a source.
pub fn tree_of(alloc: Global, source: &[u8]) -> Tree {
    if source.len() > BYTES {
        return Tree::Refused("too long");
    }
    match lex(alloc, source) {
        Ok(tokens) => tree_of_tokens(alloc, source, tokens.as_slice()),
        Err(_) => Tree::Refused("no tokens"),
    }
}

// The typed tree of the tokens of a source.
fn tree_of_tokens(alloc: Global, source: &[u8], tokens: &[Token]) -> Tree
    requires { length source.now ≤ 2 ^ 20 }
{
    match parse(alloc, source, tokens) {
        Ok(tree) => match resolve(alloc, &tree) {
            Ok(program) => Tree::Typed(program),
            Err(_) => Tree::Refused("no types"),
        },
        Err(_) => Tree::Refused("no tree"),
    }
}
