//! Items as texts.

use crate::expressions::{put_expr, put_name};
use crate::statements::{put_stmt, put_type, put_value};
use std::alloc::{AllocError, Global};
use xmt_parse::{RawGlobal, RawItem, RawItemKind, RawParams, RawResult, RawValues};

// Puts the values that an array opens with.
fn put_values(alloc: Global, out: &mut String, values: &RawValues) -> Result<(), AllocError> {
    out.push_str("={")?;
    for value in values.values.as_slice() {
        put_expr(alloc, out, value)?;
        out.push_str(" ")?;
    }
    out.push_str(if values.comma { ",}" } else { "}" })
}

// Puts a global.
fn put_global(alloc: Global, out: &mut String, global: &RawGlobal) -> Result<(), AllocError> {
    match global {
        RawGlobal::Scalar(name, value) => {
            put_name(out, name)?;
            put_value(alloc, out, "=", value)?;
        }
        RawGlobal::Array(name, length, values) => {
            put_name(out, name)?;
            out.push_str("[")?;
            put_expr(alloc, out, length.get())?;
            out.push_str("]")?;
            if let Some(values) = values {
                put_values(alloc, out, values)?;
            }
        }
        RawGlobal::Open(name, values) => {
            put_name(out, name)?;
            out.push_str("[]")?;
            put_values(alloc, out, values)?;
        }
    }
    Ok(())
}

// Puts what stands between the brackets of a head.
fn put_params(out: &mut String, params: &RawParams) -> Result<(), AllocError> {
    match params {
        RawParams::Nothing => out.push_str("()"),
        RawParams::Void => out.push_str("(void)"),
        RawParams::Some(all) => {
            for p in all.as_slice() {
                out.push_str(" (")?;
                put_type(out, &p.ty)?;
                if let Some(name) = &p.name {
                    out.push_str(" ")?;
                    put_name(out, name)?;
                }
                out.push_str(")")?;
            }
            Ok(())
        }
    }
}

// Puts the head of a function.
fn put_head(out: &mut String, head: &RawResult, params: &RawParams) -> Result<(), AllocError> {
    match head {
        RawResult::Int(name) => {
            out.push_str("int ")?;
            put_name(out, name)?;
        }
        RawResult::Void(name) => {
            out.push_str("void ")?;
            put_name(out, name)?;
        }
        RawResult::Main(name) => put_name(out, name)?,
    }
    put_params(out, params)
}

/// Puts an item.
pub fn put_item(alloc: Global, out: &mut String, item: &RawItem) -> Result<(), AllocError> {
    match &item.kind {
        RawItemKind::Globals(ty, all) => {
            put_type(out, ty)?;
            for global in all.as_slice() {
                out.push_str(" ")?;
                put_global(alloc, out, global)?;
            }
            out.push_str(";")
        }
        RawItemKind::Registers(int, all) => {
            out.push_str(if *int { "register int" } else { "register" })?;
            for one in all.as_slice() {
                out.push_str(" ")?;
                put_name(out, &one.name)?;
                put_value(alloc, out, "=", &one.value)?;
            }
            out.push_str(";")
        }
        RawItemKind::Function(head, params, body) => {
            put_head(out, head, params)?;
            out.push_str("{")?;
            for one in body.as_slice() {
                put_stmt(alloc, out, one)?;
            }
            out.push_str("}")
        }
        RawItemKind::Proto(head, params) => {
            put_head(out, head, params)?;
            out.push_str(";")
        }
    }
}
