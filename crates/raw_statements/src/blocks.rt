//! Reads a statement of any kind, and the statements of a block, from the front of some tokens.

ghost use Rattle.std.specs.Prelude.{◌<◌, ◌^◌, pred};
ghost use Rattle.raw_tree.specs.Gives as gives;
ghost use Rattle.raw_tree.specs.Reading as spec;
ghost use Rattle.raw_tree.specs.ReadingStatements as code;
ghost use Rattle.raw_statements.specs.Heads as heads;

use crate::statement_nodes::{
    Tested, block, for_loop, if_alone, if_else, spawn, test_and_branch, while_loop,
};
use crate::statements::{
    declare_at, read_do_behind, read_for_head, read_round, read_simple, read_spawn_head,
};
use raw_tree::RawStmt;
use raw_tree::kinds::{Expected, begins_type};
use raw_tree::read::{Read, ReadError, behind};
use sqlite_items::{Boxed, Items};
use std::alloc::Global;
use xmt_lex::{Keyword, Mark, Token, TokenKind};

/// A statement of nesting at most depth.
#[cycle(statements)]
pub fn read_statement<'a>(
    alloc: Global,
    source: &[u8],
    depth: u32,
    ts: &'a [Token],
) -> Result<Read<'a, Boxed<RawStmt>>, ReadError>
    requires { depth < 2 ^ 20 }
    ensures { gives.Gives result (code.read_stmt source.now depth ts.now) }
{
    if depth == 0 {
        Err(ReadError::Syntax(ts.len()))
    } else {
        begun(alloc, source, depth - 1, ts)
    }
}

// A statement, by its first token. What stands inside has a nesting of at most d.
#[cycle(statements)]
fn begun<'a>(
    alloc: Global,
    source: &[u8],
    d: u32,
    ts: &'a [Token],
) -> Result<Read<'a, Boxed<RawStmt>>, ReadError>
    requires { d < 2 ^ 20 }
    ensures { gives.Gives result (code.stmt_of source.now (spec.expression source.now d) (spec.expression source.now (pred d)) (code.read_stmt source.now d) (code.read_piece source.now d) ts.now) }
{
    match ts {
        [] => Err(ReadError::Syntax(0)),
        [t, more @ ..] => match t.kind {
            TokenKind::Mark(Mark::OpenCurly) => read_block(alloc, source, d, *t, more),
            TokenKind::Keyword(Keyword::If) => read_if(alloc, source, d, *t, more),
            TokenKind::Keyword(Keyword::While) => read_while(alloc, source, d, *t, more),
            TokenKind::Keyword(Keyword::Do) => read_do(alloc, source, d, *t, more),
            TokenKind::Keyword(Keyword::For) => read_for(alloc, source, d, *t, more),
            TokenKind::Keyword(Keyword::Spawn) => read_spawn(alloc, source, d, *t, more),
            _ => read_simple(alloc, source, d, ts),
        },
    }
}

#[cycle(statements)]
fn read_block<'a>(
    alloc: Global,
    source: &[u8],
    d: u32,
    t: Token,
    ts: &'a [Token],
) -> Result<Read<'a, Boxed<RawStmt>>, ReadError>
    requires { d < 2 ^ 20 }
    ensures { gives.Gives result (code.read_block (code.read_piece source.now d) t ts.now) }
{
    let body = read_body(alloc, source, d, ts)?;
    block(alloc, t.place, body)
}

#[cycle(statements)]
fn read_if<'a>(
    alloc: Global,
    source: &[u8],
    d: u32,
    t: Token,
    ts: &'a [Token],
) -> Result<Read<'a, Boxed<RawStmt>>, ReadError>
    requires { d < 2 ^ 20 }
    ensures { gives.Gives result (code.read_if (spec.expression source.now d) (code.read_stmt source.now d) t ts.now) }
{
    let test = read_round(alloc, source, d, ts)?;
    let branch = read_statement(alloc, source, d, test.rest)?;
    let part = test_and_branch(test, branch);
    match behind(Expected::Else, part.rest) {
        None => if_alone(alloc, t.place, part),
        Some(more) => read_else(alloc, source, d, t, part, more),
    }
}

// An `if`, behind its `else`.
#[cycle(statements)]
fn read_else<'a>(
    alloc: Global,
    source: &[u8],
    d: u32,
    t: Token,
    part: Read<'a, Tested>,
    ts: &'a [Token],
) -> Result<Read<'a, Boxed<RawStmt>>, ReadError>
    requires { d < 2 ^ 20 }
    ensures { gives.Gives result (code.with_else t part.entry.tree.test part.entry.tree.branch (code.read_stmt source.now d ts.now)) }
{
    let other = read_statement(alloc, source, d, ts)?;
    if_else(alloc, t.place, part, other)
}

#[cycle(statements)]
fn read_while<'a>(
    alloc: Global,
    source: &[u8],
    d: u32,
    t: Token,
    ts: &'a [Token],
) -> Result<Read<'a, Boxed<RawStmt>>, ReadError>
    requires { d < 2 ^ 20 }
    ensures { gives.Gives result (code.read_while (spec.expression source.now d) (code.read_stmt source.now d) t ts.now) }
{
    let test = read_round(alloc, source, d, ts)?;
    let body = read_statement(alloc, source, d, test.rest)?;
    while_loop(alloc, t.place, test, body)
}

#[cycle(statements)]
fn read_do<'a>(
    alloc: Global,
    source: &[u8],
    d: u32,
    t: Token,
    ts: &'a [Token],
) -> Result<Read<'a, Boxed<RawStmt>>, ReadError>
    requires { d < 2 ^ 20 }
    ensures { gives.Gives result (code.read_do (spec.expression source.now d) (code.read_stmt source.now d) t ts.now) }
{
    let body = read_statement(alloc, source, d, ts)?;
    read_do_behind(alloc, source, d, t, body)
}

#[cycle(statements)]
fn read_for<'a>(
    alloc: Global,
    source: &[u8],
    d: u32,
    t: Token,
    ts: &'a [Token],
) -> Result<Read<'a, Boxed<RawStmt>>, ReadError>
    requires { d < 2 ^ 20 }
    ensures { gives.Gives result (heads.for_in_parts source.now (spec.expression source.now d) (spec.expression source.now (pred d)) (code.read_stmt source.now d) t ts.now) }
{
    let head = read_for_head(alloc, source, d, ts)?;
    let body = read_statement(alloc, source, d, head.rest)?;
    for_loop(alloc, t.place, head, body)
}

#[cycle(statements)]
fn read_spawn<'a>(
    alloc: Global,
    source: &[u8],
    d: u32,
    t: Token,
    ts: &'a [Token],
) -> Result<Read<'a, Boxed<RawStmt>>, ReadError>
    requires { d < 2 ^ 20 }
    ensures { gives.Gives result (heads.spawn_in_parts (spec.expression source.now d) (code.read_piece source.now d) t ts.now) }
{
    let head = read_spawn_head(alloc, source, d, ts)?;
    let body = read_body(alloc, source, d, head.rest)?;
    spawn(alloc, t.place, head, body)
}

// A declaration where the first token begins a type, and a statement elsewhere.
#[cycle(statements)]
fn read_piece<'a>(
    alloc: Global,
    source: &[u8],
    d: u32,
    ts: &'a [Token],
) -> Result<Read<'a, Boxed<RawStmt>>, ReadError>
    requires { d < 2 ^ 20 }
    ensures { gives.Gives result (code.read_piece source.now d ts.now) }
{
    match ts {
        [] => Err(ReadError::Syntax(0)),
        [t, ..] => {
            if begins_type(t.kind) {
                declare_at(alloc, source, d, ts)
            } else {
                read_statement(alloc, source, d, ts)
            }
        }
    }
}

/// Declarations and statements, and the `}` behind them.
#[cycle(statements)]
pub fn read_body<'a>(
    alloc: Global,
    source: &[u8],
    d: u32,
    ts: &'a [Token],
) -> Result<Read<'a, Items<RawStmt>>, ReadError>
    requires { d < 2 ^ 20 }
    ensures { gives.Gives result (code.read_body (code.read_piece source.now d) ts.now) }
{
    let mut all = Items::new(alloc);
    let mut left = ts;
    let mut turns = ts.len();
    'parts: loop {
        match behind(Expected::CloseCurly, left) {
            Some(rest) => {
                return Ok(Read {
                    tree: all,
                    nest: 0,
                    rest,
                });
            }
            None => {
                if turns == 0 {
                    return Err(ReadError::Syntax(left.len()));
                }
                let one = read_piece(alloc, source, d, left)?;
                let Read { tree, rest, .. } = one;
                all.push(tree.into_inner())?;
                turns -= 1;
                left = rest;
            }
        }
    }
}
