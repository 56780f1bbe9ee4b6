//! Reads the statements that hold no other statement, and the parts of the others, from the front of some tokens.

ghost use Rattle.std.specs.Prelude.{◌≡◌, ◌<◌, ◌≤◌, ◌^◌, pred};
ghost use Rattle.raw_tree.specs.Gives as gives;
ghost use Rattle.raw_tree.specs.Reading as spec;
ghost use Rattle.raw_tree.specs.ReadingStatements as code;
ghost use Rattle.raw_tree.specs.Statements as grammar;
ghost use Rattle.raw_tree.specs.declared.tree.RawStmtKind.TheVariants as s;
ghost use Rattle.raw_statements.specs.Heads as heads;

use crate::declarations::{read_decl, read_maybe, read_text};
use crate::statement_nodes::{
    Bounds, ForHead, declare, do_loop, first_decl, first_value, for_parts, low_and_high, of_kind,
    print, ps, psm, return_value, value,
};
use raw_expressions::{expression, expressions, place};
use raw_tree::kinds::{Expected, begins_type};
use raw_tree::read::{Read, ReadError, behind, followed_by, past, read_name};
use raw_tree::{RawExpr, RawFirst, RawStmt, RawStmtKind};
use sqlite_items::{Boxed, Items};
use std::alloc::Global;
use xmt_base::Place;
use xmt_lex::{Keyword, Mark, Token, TokenKind};

// An expression in round brackets.
pub fn read_round<'a>(
    alloc: Global,
    source: &[u8],
    d: u32,
    ts: &'a [Token],
) -> Result<Read<'a, Boxed<RawExpr>>, ReadError>
    requires { d < 2 ^ 20 }
    ensures { gives.Gives result (code.read_round (spec.expression source.now d) ts.now) }
{
    let inner = past(Expected::OpenRound, ts)?;
    let a = expression(alloc, source, d, inner)?;
    followed_by(Expected::CloseRound, a)
}

// The first part of a `for`, with its semicolon.
pub fn read_first<'a>(
    alloc: Global,
    source: &[u8],
    d: u32,
    ts: &'a [Token],
) -> Result<Read<'a, Boxed<RawFirst>>, ReadError>
    requires { d < 2 ^ 20 }
    ensures { gives.Gives result (code.read_first source.now (spec.expression source.now d) ts.now) }
{
    match ts {
        [] => Err(ReadError::Syntax(0)),
        [t, ..] => {
            if begins_type(t.kind) {
                let decl = read_decl(alloc, source, d, ts)?;
                first_decl(alloc, decl)
            } else {
                let a = read_maybe(alloc, source, d, Expected::Semicolon, ts)?;
                let a = followed_by(Expected::Semicolon, a)?;
                first_value(alloc, a)
            }
        }
    }
}

// The values behind the text of a `printf`.
fn read_behind<'a>(
    alloc: Global,
    source: &[u8],
    d: u32,
    ts: &'a [Token],
) -> Result<Read<'a, Items<RawExpr>>, ReadError>
    requires { d < 2 ^ 20 }
    ensures { gives.Gives result (code.read_behind (spec.expression source.now d) ts.now) }
{
    match behind(Expected::Comma, ts) {
        None => Ok(Read {
            tree: Items::new(alloc),
            nest: 0,
            rest: ts,
        }),
        Some(more) => expressions(alloc, source, d, more),
    }
}

fn read_return<'a>(
    alloc: Global,
    source: &[u8],
    d: u32,
    t: Token,
    ts: &'a [Token],
) -> Result<Read<'a, Boxed<RawStmt>>, ReadError>
    requires { d < 2 ^ 20 }
    ensures { gives.Gives result (code.read_return (spec.expression source.now d) t ts.now) }
{
    let a = read_maybe(alloc, source, d, Expected::Semicolon, ts)?;
    let a = followed_by(Expected::Semicolon, a)?;
    return_value(alloc, t.place, a)
}

fn read_ps<'a>(
    alloc: Global,
    source: &[u8],
    t: Token,
    ts: &'a [Token],
) -> Result<Read<'a, Boxed<RawStmt>>, ReadError>
    ensures { gives.Gives result (code.read_ps source.now t ts.now) }
{
    let inner = past(Expected::OpenRound, ts)?;
    let a = read_name(alloc, source, inner)?;
    let a = followed_by(Expected::Comma, a)?;
    let b = read_name(alloc, source, a.rest)?;
    let b = followed_by(Expected::CloseRound, b)?;
    let b = followed_by(Expected::Semicolon, b)?;
    ps(alloc, t.place, a, b)
}

fn read_psm<'a>(
    alloc: Global,
    source: &[u8],
    d: u32,
    t: Token,
    ts: &'a [Token],
) -> Result<Read<'a, Boxed<RawStmt>>, ReadError>
    requires { d < 2 ^ 20 }
    ensures { gives.Gives result (code.read_psm source.now (spec.expression source.now d) t ts.now) }
{
    let inner = past(Expected::OpenRound, ts)?;
    let a = read_name(alloc, source, inner)?;
    let a = followed_by(Expected::Comma, a)?;
    let b = place(alloc, source, d, a.rest)?;
    let b = followed_by(Expected::CloseRound, b)?;
    let b = followed_by(Expected::Semicolon, b)?;
    psm(alloc, t.place, a, b)
}

fn read_print<'a>(
    alloc: Global,
    source: &[u8],
    d: u32,
    t: Token,
    ts: &'a [Token],
) -> Result<Read<'a, Boxed<RawStmt>>, ReadError>
    requires { d < 2 ^ 20 }
    ensures { gives.Gives result (code.read_print source.now (spec.expression source.now d) t ts.now) }
{
    let inner = past(Expected::OpenRound, ts)?;
    let a = read_text(alloc, source, inner)?;
    let b = read_behind(alloc, source, d, a.rest)?;
    let b = followed_by(Expected::CloseRound, b)?;
    let b = followed_by(Expected::Semicolon, b)?;
    print(alloc, t.place, a, b)
}

fn read_break<'a>(
    alloc: Global,
    at: Place,
    ts: &'a [Token],
) -> Result<Read<'a, Boxed<RawStmt>>, ReadError>
    ensures { gives.Gives result (code.read_word_alone (grammar.statement at s.Break) ts.now) }
{
    let rest = past(Expected::Semicolon, ts)?;
    of_kind(alloc, at, RawStmtKind::Break, rest)
}

fn read_continue<'a>(
    alloc: Global,
    at: Place,
    ts: &'a [Token],
) -> Result<Read<'a, Boxed<RawStmt>>, ReadError>
    ensures { gives.Gives result (code.read_word_alone (grammar.statement at s.Continue) ts.now) }
{
    let rest = past(Expected::Semicolon, ts)?;
    of_kind(alloc, at, RawStmtKind::Continue, rest)
}

fn read_declare<'a>(
    alloc: Global,
    source: &[u8],
    d: u32,
    ts: &'a [Token],
) -> Result<Read<'a, Boxed<RawStmt>>, ReadError>
    requires { d < 2 ^ 20 }
    ensures { gives.Gives result (code.read_declare source.now (spec.expression source.now d) ts.now) }
{
    let decl = read_decl(alloc, source, d, ts)?;
    declare(alloc, decl)
}

/// A declaration of nesting at most depth.
pub fn declare_at<'a>(
    alloc: Global,
    source: &[u8],
    depth: u32,
    ts: &'a [Token],
) -> Result<Read<'a, Boxed<RawStmt>>, ReadError>
    requires { depth < 2 ^ 20 }
    ensures { gives.Gives result (code.declare_at source.now depth ts.now) }
{
    if depth == 0 {
        Err(ReadError::Syntax(ts.len()))
    } else {
        read_declare(alloc, source, depth - 1, ts)
    }
}

fn read_value<'a>(
    alloc: Global,
    source: &[u8],
    d: u32,
    ts: &'a [Token],
) -> Result<Read<'a, Boxed<RawStmt>>, ReadError>
    requires { d < 2 ^ 20 }
    ensures { gives.Gives result (code.read_value (spec.expression source.now d) ts.now) }
{
    let a = expression(alloc, source, d, ts)?;
    let a = followed_by(Expected::Semicolon, a)?;
    value(alloc, a)
}

/// A statement that holds no other, by its first token. A declaration is none.
pub fn read_simple<'a>(
    alloc: Global,
    source: &[u8],
    d: u32,
    ts: &'a [Token],
) -> Result<Read<'a, Boxed<RawStmt>>, ReadError>
    requires { d < 2 ^ 20 }
    ensures { gives.Gives result (heads.simple source.now (spec.expression source.now d) ts.now) }
{
    match ts {
        [] => Err(ReadError::Syntax(0)),
        [t, more @ ..] => match t.kind {
            TokenKind::Mark(Mark::Semicolon) => of_kind(alloc, t.place, RawStmtKind::Empty, more),
            TokenKind::Keyword(Keyword::Break) => read_break(alloc, t.place, more),
            TokenKind::Keyword(Keyword::Continue) => read_continue(alloc, t.place, more),
            TokenKind::Keyword(Keyword::Return) => read_return(alloc, source, d, *t, more),
            TokenKind::Keyword(Keyword::Ps) => read_ps(alloc, source, *t, more),
            TokenKind::Keyword(Keyword::Psm) => read_psm(alloc, source, d, *t, more),
            TokenKind::Keyword(Keyword::Printf) => read_print(alloc, source, d, *t, more),
            TokenKind::Keyword(Keyword::Int)
            | TokenKind::Keyword(Keyword::Const)
            | TokenKind::Keyword(Keyword::Volatile) => Err(ReadError::Syntax(ts.len())),
            _ => read_value(alloc, source, d, ts),
        },
    }
}

/// A `do`, behind the statement inside.
pub fn read_do_behind<'a>(
    alloc: Global,
    source: &[u8],
    d: u32,
    t: Token,
    body: Read<'a, Boxed<RawStmt>>,
) -> Result<Read<'a, Boxed<RawStmt>>, ReadError>
    requires { d < 2 ^ 20 }
    ensures { gives.Gives result (heads.do_behind (spec.expression source.now d) t body.entry.tree body.entry.rest.now) }
{
    let behind_while = past(Expected::While, body.rest)?;
    let test = read_round(alloc, source, d, behind_while)?;
    let test = followed_by(Expected::Semicolon, test)?;
    do_loop(alloc, t.place, body, test)
}

// How deep the first part of a `for` may nest, since it is a statement of its own.
fn depth_of_first(d: u32) -> u32
    ensures value { result ≡ pred d }
    ensures within { result ≤ d }
{
    d.saturating_sub(1)
}

/// A `for` before the statement inside.
pub fn read_for_head<'a>(
    alloc: Global,
    source: &[u8],
    d: u32,
    ts: &'a [Token],
) -> Result<Read<'a, ForHead>, ReadError>
    requires { d < 2 ^ 20 }
    ensures { gives.Gives result (heads.for_head source.now (spec.expression source.now d) (spec.expression source.now (pred d)) ts.now) }
{
    let inner = past(Expected::OpenRound, ts)?;
    let first = read_first(alloc, source, depth_of_first(d), inner)?;
    let test = read_maybe(alloc, source, d, Expected::Semicolon, first.rest)?;
    let test = followed_by(Expected::Semicolon, test)?;
    let third = read_maybe(alloc, source, d, Expected::CloseRound, test.rest)?;
    let third = followed_by(Expected::CloseRound, third)?;
    Ok(for_parts(first, test, third))
}

// The last thread number of a `spawn`, up to and with the `{`.
fn read_last_thread<'a>(
    alloc: Global,
    source: &[u8],
    d: u32,
    ts: &'a [Token],
) -> Result<Read<'a, Boxed<RawExpr>>, ReadError>
    requires { d < 2 ^ 20 }
    ensures { gives.Gives result (heads.last_thread (spec.expression source.now d) ts.now) }
{
    let high = expression(alloc, source, d, ts)?;
    let high = followed_by(Expected::CloseRound, high)?;
    followed_by(Expected::OpenCurly, high)
}

/// A `spawn` before the statements inside.
pub fn read_spawn_head<'a>(
    alloc: Global,
    source: &[u8],
    d: u32,
    ts: &'a [Token],
) -> Result<Read<'a, Bounds>, ReadError>
    requires { d < 2 ^ 20 }
    ensures { gives.Gives result (heads.spawn_head (spec.expression source.now d) ts.now) }
{
    let inner = past(Expected::OpenRound, ts)?;
    let low = expression(alloc, source, d, inner)?;
    let low = followed_by(Expected::Comma, low)?;
    let high = read_last_thread(alloc, source, d, low.rest)?;
    Ok(low_and_high(low, high))
}
