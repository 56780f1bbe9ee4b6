//! The typed trees of sources, tested by the rules of spawn blocks and measured: a line for each row.
//!
//! A row has a `source`, and what is found of it under one of three keys: as `met` the first rule of
//! spawn blocks that it breaks, as `measures` its nodes, its nesting and the values that wait, or as
//! `written` the variables that a block writes.
#![tactic(auto)]

mod blocks;
mod measures;
mod trees;
mod written;

use crate::blocks::rule_met;
use crate::measures::measures_of;
use crate::trees::{Tree, tree_of};
use crate::written::written_in;
use anyhow::Result;
use source_meaning::Program;
use std::alloc::{AllocError, Global};
use std::env;
use test_rows::{Row, read_rows, verdict};

fn main(rt: HostRuntime) -> Result<()> {
    let alloc = rt.alloc();
    for file in env::args(&rt)?.skip(1) {
        let rows = read_rows(&rt, alloc, file.as_str())?;
        for row in rows.iter() {
            let line = line_of(alloc, row)?;
            println!(rt; "{line}")?;
        }
        println!(rt; "{file}: {} rows", rows.len())?;
    }
    Ok(())
}

// The line of a row.
fn line_of(alloc: Global, row: &Row) -> Result<String, AllocError> {
    let source = row.text_or_empty("source").as_bytes();
    let found = match tree_of(alloc, source) {
        Tree::Typed(program) => found_of(alloc, row, program)?,
        Tree::Refused(by) => String::from_str(alloc, by)?,
    };
    verdict(alloc, row.name(), found.as_str(), wanted_of(row))
}

// What is found of the tree of a row.
fn found_of(alloc: Global, row: &Row, program: Program) -> Result<String, AllocError> {
    if let Some(outside) = row.number("outside") {
        written_in(alloc, program, outside)
    } else if row.text("measures").is_some() {
        measures_of(alloc, &program)
    } else {
        rule_met(alloc, program, row.text_or_empty("change"))
    }
}

// What a row wants.
fn wanted_of(row: &Row) -> &str {
    match row.text("met") {
        Some(rule) => rule,
        None => match row.text("measures") {
            Some(measures) => measures,
            None => row.text_or_empty("written"),
        },
    }
}
