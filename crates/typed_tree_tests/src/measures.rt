//! How large and how deep a program is, and how many values wait in it.
use source_meaning::{Expr, Program, Stmt, StmtKind};
use std::alloc::{AllocError, Global};
use tree_measures::{nest_depth, node_count, statement_waiting, waiting};

/// The nodes and the nesting of a program, how many values wait in each statement of its first
/// function, and how many in each expression that such a statement computes or prints.
pub fn measures_of(alloc: Global, program: &Program) -> Result<String, AllocError> {
    let body = match program.functions.get(0) {
        Some(function) => function.body.as_slice(),
        None => &[],
    };
    let statements = waiting_in_statements(alloc, body)?;
    let values = waiting_in_values(alloc, body)?;
    let nodes = node_count(program);
    let depth = nest_depth(program);
    format!(in alloc; "{nodes} nodes, depth {depth}, statements{statements}, values{values}")
}

// How many values wait in each statement.
fn waiting_in_statements(alloc: Global, body: &[Stmt]) -> Result<String, AllocError> {
    let mut text = String::new(alloc);
    for s in body {
        add_number(alloc, &mut text, statement_waiting(s))?;
    }
    Ok(text)
}

// How many values wait in each expression that a statement computes or prints.
fn waiting_in_values(alloc: Global, body: &[Stmt]) -> Result<String, AllocError> {
    let mut text = String::new(alloc);
    for s in body {
        match &s.kind {
            StmtKind::Value(e) => add_number(alloc, &mut text, waiting(e.get()))?,
            StmtKind::Print(_, values) => add_values(alloc, &mut text, values.as_slice())?,
            _ => {}
        }
    }
    Ok(text)
}

// Adds how many values wait in each of these.
fn add_values(alloc: Global, text: &mut String, values: &[Expr]) -> Result<(), AllocError> {
    for e in values {
        add_number(alloc, text, waiting(e))?;
    }
    Ok(())
}

// Adds a number behind a space.
fn add_number(alloc: Global, text: &mut String, number: u64) -> Result<(), AllocError> {
    let word = format!(in alloc; " {number}")?;
    text.push_str(word.as_str())?;
    Ok(())
}
