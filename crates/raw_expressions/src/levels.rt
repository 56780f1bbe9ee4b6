//! Reads an expression from the front of some tokens.

ghost use Rattle.std.specs.Prelude.{MatchOption, [], ◌∷◌, ◌≡◌, ◌≤◌, ◌<◌, ◌+◌, ◌^◌, IfOk, suc};
ghost use Rattle.raw_tree.specs.Reading as spec;
ghost use Rattle.raw_tree.specs.Level as level;
ghost use Rattle.raw_tree.specs.Grammar as grammar;
ghost use Rattle.raw_tree.specs.Gives as gives;
ghost use Rattle.raw_expressions.specs.Parts as parts;

use crate::nodes::{
    assigned_by, boxed_spot, bracketed, called, choose_with, indexed, joined, leaf, prefixed,
    stepped, stepped_before, values_close,
};
use raw_tree::kinds::{
    Expected, close_round, colon, is_prefix, is_step, joins, mark_of, open_round, open_square,
};
use raw_tree::read::{Read, ReadError, behind, name_of};
use raw_tree::{RawExpr, RawExprKind, RawSpot};
use sqlite_items::{Boxed, Items};
use std::alloc::Global;
use xmt_lex::{Mark, Token, TokenKind};

/// Which part is read at one depth less.
#[derive(Clone, Copy)]
pub enum Part {
    Unary,
    Cond,
    Whole,
}

/// The first token, and those behind it.
fn cut(ts: &[Token]) -> Option<(Token, &[Token])>
    ensures { MatchOption result (ts.now ≡ []) (λ p. ts.now ≡ p.0 ∷ p.1.now) }
{
    match ts {
        [t, more @ ..] => Some((*t, more)),
        _ => None,
    }
}

// At most d deep.
#[cycle(reading)]
fn inside<'a>(
    alloc: Global,
    source: &[u8],
    d: u32,
    part: Part,
    ts: &'a [Token],
) -> Result<Read<'a, Boxed<RawExpr>>, ReadError>
    requires { d < 2 ^ 20 }
    ensures value { gives.Gives result (parts.part_of part (spec.readers source.now d) ts.now) }
    ensures nest { IfOk result (λ r. r.nest ≤ d) }
{
    if d == 0 {
        Err(ReadError::Syntax(ts.len()))
    } else {
        match part {
            Part::Unary => unary(alloc, source, d - 1, ts),
            Part::Cond => cond(alloc, source, d - 1, ts),
            Part::Whole => whole(alloc, source, d - 1, ts),
        }
    }
}

#[cycle(reading)]
fn behind_name<'a>(
    alloc: Global,
    source: &[u8],
    d: u32,
    t: Token,
    ts: &'a [Token],
) -> Result<Read<'a, RawSpot>, ReadError>
    requires { d < 2 ^ 20 }
    ensures value { gives.Gives result (spec.read_spot (spec.readers source.now d).of_expr (grammar.name_of source.now t) ts.now) }
    ensures nest { IfOk result (λ r. r.nest ≤ d) }
{
    match ts {
        [o, more @ ..] if open_square(o.kind) => {
            let inner = inside(alloc, source, d, Part::Whole, more)?;
            indexed(alloc, source, t, inner)
        }
        _ => {
            let name = name_of(alloc, source, t)?;
            Ok(Read {
                tree: RawSpot::Name(name),
                nest: 0,
                rest: ts,
            })
        }
    }
}

// Values parted by commas.
#[cycle(reading)]
fn list<'a>(
    alloc: Global,
    source: &[u8],
    d: u32,
    ts: &'a [Token],
) -> Result<Read<'a, Items<RawExpr>>, ReadError>
    requires { d < 2 ^ 20 }
    ensures value { gives.Gives result (spec.read_parted (spec.readers source.now d).of_expr ts.now) }
    ensures nest { IfOk result (λ r. r.nest ≤ d) }
{
    let mut values = Items::new(alloc);
    let mut nest = 0;
    let mut left = ts;
    let mut turns = ts.len();
    'parts: loop {
        let one = inside(alloc, source, d, Part::Whole, left)?;
        let Read {
            tree,
            nest: inner,
            rest,
        } = one;
        values.push(tree.into_inner())?;
        nest = inner.max(nest);
        match behind(Expected::Comma, rest) {
            None => {
                return Ok(Read {
                    tree: values,
                    nest,
                    rest,
                });
            }
            Some(more) => {
                if turns == 0 {
                    return Err(ReadError::Syntax(more.len()));
                }
                turns -= 1;
                left = more;
            }
        }
    }
}

// The values of a call, up to and with the `)`.
#[cycle(reading)]
fn call_values<'a>(
    alloc: Global,
    source: &[u8],
    d: u32,
    ts: &'a [Token],
) -> Result<Read<'a, Items<RawExpr>>, ReadError>
    requires { d < 2 ^ 20 }
    ensures value { gives.Gives result (spec.read_values (spec.readers source.now d).of_expr ts.now) }
    ensures nest { IfOk result (λ r. r.nest ≤ d) }
{
    match ts {
        [] => Err(ReadError::Syntax(0)),
        [t, more @ ..] => {
            if close_round(t.kind) {
                Ok(Read {
                    tree: Items::new(alloc),
                    nest: 0,
                    rest: more,
                })
            } else {
                let values = list(alloc, source, d, ts)?;
                values_close(values)
            }
        }
    }
}

// A name that begins an expression: a call, or a place.
#[cycle(reading)]
fn named<'a>(
    alloc: Global,
    source: &[u8],
    d: u32,
    t: Token,
    ts: &'a [Token],
) -> Result<Read<'a, Boxed<RawExpr>>, ReadError>
    requires { d < 2 ^ 20 }
    ensures value { gives.Gives result (spec.named source.now (spec.readers source.now d).of_expr t ts.now) }
    ensures nest { IfOk result (λ r. r.nest ≤ d + 1) }
{
    match ts {
        [o, more @ ..] if open_round(o.kind) => {
            let values = call_values(alloc, source, d, more)?;
            called(alloc, source, t, values)
        }
        _ => {
            let place = behind_name(alloc, source, d, t, ts)?;
            stepped(alloc, t.place, place)
        }
    }
}

#[cycle(reading)]
fn begun<'a>(
    alloc: Global,
    source: &[u8],
    d: u32,
    t: Token,
    ts: &'a [Token],
) -> Result<Read<'a, Boxed<RawExpr>>, ReadError>
    requires { d < 2 ^ 20 }
    ensures value { gives.Gives result (spec.begun source.now (spec.readers source.now d).of_expr t t.kind ts.now) }
    ensures nest { IfOk result (λ r. r.nest ≤ d + 1) }
{
    match t.kind {
        TokenKind::Number(v) => leaf(alloc, t.place, RawExprKind::Number(v), ts),
        TokenKind::Name => named(alloc, source, d, t, ts),
        TokenKind::Mark(Mark::Dollar) => leaf(alloc, t.place, RawExprKind::Dollar, ts),
        TokenKind::Mark(Mark::OpenRound) => {
            let inner = inside(alloc, source, d, Part::Whole, ts)?;
            bracketed(alloc, t.place, inner)
        }
        _ => Err(ReadError::Syntax(ts.len() + 1)),
    }
}

#[cycle(reading)]
fn unary<'a>(
    alloc: Global,
    source: &[u8],
    d: u32,
    ts: &'a [Token],
) -> Result<Read<'a, Boxed<RawExpr>>, ReadError>
    requires { d < 2 ^ 20 }
    ensures value { gives.Gives result (spec.read_unary source.now (spec.readers source.now d).of_expr (spec.readers source.now d).of_unary ts.now) }
    ensures nest { IfOk result (λ r. r.nest ≤ d + 1) }
{
    match ts {
        [t, more @ ..] => match t.kind {
            TokenKind::Mark(m) => {
                if is_prefix(m) {
                    let inner = inside(alloc, source, d, Part::Unary, more)?;
                    prefixed(alloc, t.place, m, inner)
                } else if is_step(m) {
                    match more {
                        [u, most @ ..] if u.kind == TokenKind::Name => {
                            let place = behind_name(alloc, source, d, *u, most)?;
                            stepped_before(alloc, t.place, m, place)
                        }
                        _ => Err(ReadError::Syntax(more.len())),
                    }
                } else {
                    begun(alloc, source, d, *t, more)
                }
            }
            _ => begun(alloc, source, d, *t, more),
        },
        _ => Err(ReadError::Syntax(ts.len())),
    }
}

#[cycle(reading)]
fn chain<'a>(
    alloc: Global,
    source: &[u8],
    d: u32,
    k: u32,
    left: Read<'a, Boxed<RawExpr>>,
) -> Result<Read<'a, Boxed<RawExpr>>, ReadError>
    requires depth { d < 2 ^ 20 }
    requires rank { k < 10 }
    requires nest { left.nest ≤ d + 1 }
    ensures value { gives.Gives result (spec.chain (suc d) (suc (suc k)) (spec.read_at source.now d (level.Tight k)) (suc d) left.entry.tree left.entry.nest left.entry.rest.now) }
    ensures nest { IfOk result (λ r. r.nest ≤ d + 1) }
{
    match cut(left.rest) {
        None => Ok(left),
        Some((t, more)) => {
            if joins(t.kind) == k + 2 {
                match binary(alloc, source, d, k, more) {
                    Err(e) => Err(e),
                    Ok(right) => {
                        if left.nest.max(right.nest) <= d {
                            let Read { tree, nest, .. } = left;
                            let both = joined(alloc, mark_of(t.kind), tree, nest, right)?;
                            chain(alloc, source, d, k, both)
                        } else {
                            Err(ReadError::Syntax(more.len()))
                        }
                    }
                }
            } else {
                Ok(left)
            }
        }
    }
}

#[cycle(reading)]
fn binary<'a>(
    alloc: Global,
    source: &[u8],
    d: u32,
    k: u32,
    ts: &'a [Token],
) -> Result<Read<'a, Boxed<RawExpr>>, ReadError>
    requires depth { d < 2 ^ 20 }
    requires rank { k ≤ 10 }
    ensures value { gives.Gives result (spec.read_at source.now d (level.Tight k) ts.now) }
    ensures nest { IfOk result (λ r. r.nest ≤ d + 1) }
{
    let mut left = unary(alloc, source, d, ts)?;
    for level in 0..k {
        left = chain(alloc, source, d, level, left)?;
    }
    Ok(left)
}

#[cycle(reading)]
fn chosen<'a>(
    alloc: Global,
    source: &[u8],
    d: u32,
    test: Read<'a, Boxed<RawExpr>>,
    middle: Read<'a, Boxed<RawExpr>>,
) -> Result<Read<'a, Boxed<RawExpr>>, ReadError>
    requires depth { d < 2 ^ 20 }
    requires test { test.nest ≤ d }
    requires middle { middle.nest ≤ d }
    ensures value { gives.Gives result (spec.chosen_colon (suc d) (spec.readers source.now d).of_cond test.entry.tree test.entry.nest middle.entry.tree middle.entry.nest middle.entry.rest.now) }
    ensures nest { IfOk result (λ r. r.nest ≤ d + 1) }
{
    match middle.rest {
        [u, end @ ..] if colon(u.kind) => {
            let last = inside(alloc, source, d, Part::Cond, end)?;
            choose_with(alloc, test, middle, last)
        }
        _ => Err(ReadError::Syntax(middle.rest.len())),
    }
}

#[cycle(reading)]
fn cond<'a>(
    alloc: Global,
    source: &[u8],
    d: u32,
    ts: &'a [Token],
) -> Result<Read<'a, Boxed<RawExpr>>, ReadError>
    requires { d < 2 ^ 20 }
    ensures value { gives.Gives result (spec.read_at source.now d level.Cond ts.now) }
    ensures nest { IfOk result (λ r. r.nest ≤ d + 1) }
{
    let test = binary(alloc, source, d, 10, ts)?;
    match test.rest {
        [t, more @ ..] if joins(t.kind) == 12 => {
            if test.nest <= d {
                let middle = inside(alloc, source, d, Part::Whole, more)?;
                chosen(alloc, source, d, test, middle)
            } else {
                Err(ReadError::Syntax(more.len()))
            }
        }
        _ => Ok(test),
    }
}

#[cycle(reading)]
fn whole<'a>(
    alloc: Global,
    source: &[u8],
    d: u32,
    ts: &'a [Token],
) -> Result<Read<'a, Boxed<RawExpr>>, ReadError>
    requires { d < 2 ^ 20 }
    ensures value { gives.Gives result (spec.read_at source.now d level.Whole ts.now) }
    ensures nest { IfOk result (λ r. r.nest ≤ d + 1) }
{
    let place = cond(alloc, source, d, ts)?;
    match place.rest {
        [t, more @ ..] if joins(t.kind) == 13 => {
            let mark = mark_of(t.kind);
            let value = inside(alloc, source, d, Part::Whole, more)?;
            assigned_by(alloc, more.len() + 1, place, mark, value)
        }
        _ => Ok(place),
    }
}

/// A part of nesting at most depth at the front of the tokens.
pub fn read_part<'a>(
    alloc: Global,
    source: &[u8],
    depth: u32,
    part: Part,
    ts: &'a [Token],
) -> Result<Read<'a, Boxed<RawExpr>>, ReadError>
    requires { depth < 2 ^ 20 }
    ensures { gives.Gives result (parts.part_of part (spec.readers source.now depth) ts.now) }
{
    inside(alloc, source, depth, part, ts)
}

/// The expression at the front of the tokens, of nesting at most depth.
pub fn expression<'a>(
    alloc: Global,
    source: &[u8],
    depth: u32,
    ts: &'a [Token],
) -> Result<Read<'a, Boxed<RawExpr>>, ReadError>
    requires { depth < 2 ^ 20 }
    ensures { gives.Gives result (spec.expression source.now depth ts.now) }
{
    inside(alloc, source, depth, Part::Whole, ts)
}

/// One expression or more, parted by commas.
pub fn expressions<'a>(
    alloc: Global,
    source: &[u8],
    depth: u32,
    ts: &'a [Token],
) -> Result<Read<'a, Items<RawExpr>>, ReadError>
    requires { depth < 2 ^ 20 }
    ensures { gives.Gives result (spec.read_parted (spec.expression source.now depth) ts.now) }
{
    list(alloc, source, depth, ts)
}

/// A place: a name, or a name with an index.
pub fn place<'a>(
    alloc: Global,
    source: &[u8],
    depth: u32,
    ts: &'a [Token],
) -> Result<Read<'a, Boxed<RawSpot>>, ReadError>
    requires { depth < 2 ^ 20 }
    ensures { gives.Gives result (spec.step_place source.now (spec.expression source.now depth) ts.now) }
{
    match ts {
        [] => Err(ReadError::Syntax(0)),
        [t, more @ ..] => match t.kind {
            TokenKind::Name => {
                let spot = behind_name(alloc, source, depth, *t, more)?;
                boxed_spot(alloc, spot)
            }
            _ => Err(ReadError::Syntax(ts.len())),
        },
    }
}
