//! Expressions as texts: a node with parts stands in round brackets behind its mark, and what the source has in
//! round brackets stands in angle brackets.

use crate::text::{put_bytes, put_mark, put_number};
use std::alloc::{AllocError, Global};
use xmt_parse::{RawExpr, RawExprKind, RawName, RawSpot};

/// Puts a name.
pub fn put_name(out: &mut String, name: &RawName) -> Result<(), AllocError> {
    put_bytes(out, name.bytes.as_slice())
}

/// Puts a place: a name, with its index if it has one.
#[cycle(expressions)]
pub fn put_spot(alloc: Global, out: &mut String, spot: &RawSpot) -> Result<(), AllocError> {
    match spot {
        RawSpot::Name(name) => put_name(out, name),
        RawSpot::Element(name, index) => {
            put_name(out, name)?;
            out.push_str("[")?;
            put_expr(alloc, out, index.get())?;
            out.push_str("]")
        }
    }
}

// Puts a space and an expression.
#[cycle(expressions)]
fn put_part(alloc: Global, out: &mut String, part: &RawExpr) -> Result<(), AllocError> {
    out.push_str(" ")?;
    put_expr(alloc, out, part)
}

/// Puts an expression.
#[cycle(expressions)]
pub fn put_expr(alloc: Global, out: &mut String, expr: &RawExpr) -> Result<(), AllocError> {
    match &expr.kind {
        RawExprKind::Assign(spot, mark, value) => {
            out.push_str("(")?;
            put_mark(alloc, out, *mark)?;
            out.push_str(" ")?;
            put_spot(alloc, out, spot)?;
            put_part(alloc, out, value.get())?;
            out.push_str(")")
        }
        RawExprKind::Choose(test, yes, no) => {
            out.push_str("(?")?;
            put_part(alloc, out, test.get())?;
            put_part(alloc, out, yes.get())?;
            put_part(alloc, out, no.get())?;
            out.push_str(")")
        }
        RawExprKind::Binary(mark, left, right) => {
            out.push_str("(")?;
            put_mark(alloc, out, *mark)?;
            put_part(alloc, out, left.get())?;
            put_part(alloc, out, right.get())?;
            out.push_str(")")
        }
        RawExprKind::Prefix(mark, operand) => {
            out.push_str("(")?;
            put_mark(alloc, out, *mark)?;
            put_part(alloc, out, operand.get())?;
            out.push_str(")")
        }
        RawExprKind::StepBefore(mark, spot) => {
            out.push_str("(")?;
            put_mark(alloc, out, *mark)?;
            out.push_str(" ")?;
            put_spot(alloc, out, spot)?;
            out.push_str(")")
        }
        RawExprKind::StepAfter(spot, mark) => {
            out.push_str("(")?;
            put_spot(alloc, out, spot)?;
            out.push_str(" ")?;
            put_mark(alloc, out, *mark)?;
            out.push_str(")")
        }
        RawExprKind::Read(spot) => put_spot(alloc, out, spot),
        RawExprKind::Call(name, values) => {
            out.push_str("(call ")?;
            put_name(out, name)?;
            for value in values.as_slice() {
                put_part(alloc, out, value)?;
            }
            out.push_str(")")
        }
        RawExprKind::Number(value) => put_number(alloc, out, *value),
        RawExprKind::Dollar => out.push_str("$"),
        RawExprKind::Brackets(inner) => {
            out.push_str("<")?;
            put_expr(alloc, out, inner.get())?;
            out.push_str(">")
        }
    }
}
