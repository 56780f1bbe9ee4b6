//! Statements as texts.

use crate::expressions::{put_expr, put_name, put_spot};
use crate::text::put_bytes;
use sqlite_items::Boxed;
use std::alloc::{AllocError, Global};
use xmt_parse::{Qualifier, RawDecl, RawExpr, RawFirst, RawStmt, RawStmtKind, RawText, RawType};

/// Puts a type.
pub fn put_type(out: &mut String, ty: &RawType) -> Result<(), AllocError> {
    for qualifier in ty.qualifiers.as_slice() {
        match qualifier {
            Qualifier::Const => out.push_str("const ")?,
            Qualifier::Volatile => out.push_str("volatile ")?,
        }
    }
    out.push_str("int")
}

/// Puts an expression behind some text, where there is one.
pub fn put_value(
    alloc: Global,
    out: &mut String,
    before: &str,
    value: &Option<Boxed<RawExpr>>,
) -> Result<(), AllocError> {
    match value {
        Some(value) => {
            out.push_str(before)?;
            put_expr(alloc, out, value.get())
        }
        None => Ok(()),
    }
}

// Puts a declaration.
fn put_decl(alloc: Global, out: &mut String, decl: &RawDecl) -> Result<(), AllocError> {
    out.push_str("(")?;
    put_type(out, &decl.ty)?;
    for local in decl.locals.as_slice() {
        out.push_str(" ")?;
        put_name(out, &local.name)?;
        put_value(alloc, out, "=", &local.value)?;
    }
    out.push_str(")")
}

// Puts a keyword and the test behind it.
fn put_test(alloc: Global, out: &mut String, word: &str, test: &RawExpr) -> Result<(), AllocError> {
    out.push_str("(")?;
    out.push_str(word)?;
    out.push_str(" ")?;
    put_expr(alloc, out, test)?;
    out.push_str(" ")
}

// Puts the first part of a `for`.
fn put_first(alloc: Global, out: &mut String, first: &RawFirst) -> Result<(), AllocError> {
    match first {
        RawFirst::Decl(decl) => put_decl(alloc, out, decl),
        RawFirst::Value(value) => put_value(alloc, out, "", value),
    }
}

// Puts a `for` before its body.
fn put_for(
    alloc: Global,
    out: &mut String,
    first: &RawFirst,
    test: &Option<Boxed<RawExpr>>,
    third: &Option<Boxed<RawExpr>>,
) -> Result<(), AllocError> {
    out.push_str("(for ")?;
    put_first(alloc, out, first)?;
    out.push_str(";")?;
    put_value(alloc, out, "", test)?;
    out.push_str(";")?;
    put_value(alloc, out, "", third)?;
    out.push_str(" ")
}

// Puts a `printf`.
fn put_print(
    alloc: Global,
    out: &mut String,
    text: &RawText,
    values: &[RawExpr],
) -> Result<(), AllocError> {
    out.push_str("(printf '")?;
    put_bytes(out, text.bytes.as_slice())?;
    out.push_str("'")?;
    for value in values {
        out.push_str(" ")?;
        put_expr(alloc, out, value)?;
    }
    out.push_str(")")
}

// Puts a statement that holds no other.
fn put_simple(alloc: Global, out: &mut String, kind: &RawStmtKind) -> Result<(), AllocError> {
    match kind {
        RawStmtKind::Decl(decl) => put_decl(alloc, out, decl.get()),
        RawStmtKind::Empty => out.push_str(";"),
        RawStmtKind::Value(value) => {
            put_expr(alloc, out, value.get())?;
            out.push_str(";")
        }
        RawStmtKind::Break => out.push_str("break;"),
        RawStmtKind::Continue => out.push_str("continue;"),
        RawStmtKind::Return(value) => {
            out.push_str("(return")?;
            put_value(alloc, out, " ", value)?;
            out.push_str(")")
        }
        RawStmtKind::Ps(variable, base) => {
            out.push_str("(ps ")?;
            put_name(out, variable)?;
            out.push_str(" ")?;
            put_name(out, base)?;
            out.push_str(")")
        }
        RawStmtKind::Psm(variable, place) => {
            out.push_str("(psm ")?;
            put_name(out, variable)?;
            out.push_str(" ")?;
            put_spot(alloc, out, place.get())?;
            out.push_str(")")
        }
        RawStmtKind::Print(text, values) => put_print(alloc, out, text, values.as_slice()),
        _ => Ok(()),
    }
}

/// Puts a statement.
#[cycle(statements)]
pub fn put_stmt(alloc: Global, out: &mut String, statement: &RawStmt) -> Result<(), AllocError> {
    match &statement.kind {
        RawStmtKind::Block(body) => {
            out.push_str("{")?;
            for one in body.as_slice() {
                put_stmt(alloc, out, one)?;
            }
            out.push_str("}")
        }
        RawStmtKind::If(test, branch, other) => {
            put_test(alloc, out, "if", test.get())?;
            put_stmt(alloc, out, branch.get())?;
            if let Some(other) = other {
                out.push_str(" else ")?;
                put_stmt(alloc, out, other.get())?;
            }
            out.push_str(")")
        }
        RawStmtKind::While(test, body) => {
            put_test(alloc, out, "while", test.get())?;
            put_stmt(alloc, out, body.get())?;
            out.push_str(")")
        }
        RawStmtKind::Do(body, test) => {
            out.push_str("(do ")?;
            put_stmt(alloc, out, body.get())?;
            out.push_str(" ")?;
            put_expr(alloc, out, test.get())?;
            out.push_str(")")
        }
        RawStmtKind::For(first, test, third, body) => {
            put_for(alloc, out, first.get(), test, third)?;
            put_stmt(alloc, out, body.get())?;
            out.push_str(")")
        }
        RawStmtKind::Spawn(low, high, body) => {
            put_test(alloc, out, "spawn", low.get())?;
            put_expr(alloc, out, high.get())?;
            out.push_str(" ")?;
            for one in body.as_slice() {
                put_stmt(alloc, out, one)?;
            }
            out.push_str(")")
        }
        kind => put_simple(alloc, out, kind),
    }
}
