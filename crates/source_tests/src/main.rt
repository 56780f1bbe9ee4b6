//! Reads the sources of its tables with the front end, and prints a line for each row.
//!
//! A row wants `accepted`, or the rule that its source breaks first, with the line and the column. It has its `source` as
//! a text, or as `pieces`, each of which stands as often as its number in `times` says; the first `#` of a piece is the
//! number of the copy, from 0.
#![tactic(auto)]

mod sources;

use crate::sources::source_of;
use anyhow::Result;
use front_end::{SourceRefusal, front};
use std::alloc::{AllocError, Global};
use std::env;
use test_rows::{Row, read_rows, verdict};
use xmt_base::Place;

fn main(rt: HostRuntime) -> Result<()> {
    let alloc = rt.alloc();
    for file in env::args(&rt)?.skip(1) {
        let rows = read_rows(&rt, alloc, file.as_str())?;
        for row in rows.iter() {
            let line = line_of(alloc, row)?;
            println!(rt; "{line}")?;
        }
        println!(rt; "{file}: {} rows", rows.len())?;
    }
    Ok(())
}

// The line of a row.
fn line_of(alloc: Global, row: &Row) -> Result<String, AllocError> {
    let source = source_of(alloc, row)?;
    let found = answer_of(alloc, source.as_slice())?;
    verdict(alloc, row.name(), found.as_str(), row.text_or_empty("want"))
}

// What the front end answers, in words.
fn answer_of(alloc: Global, source: &[u8]) -> Result<String, AllocError> {
    match front(alloc, source) {
        Ok(_) => String::from_str(alloc, "accepted"),
        Err(SourceRefusal::Refused(kind, Place { line, column })) => {
            format!(in alloc; "{kind:?} {line}:{column}")
        }
        Err(SourceRefusal::NoMemory) => String::from_str(alloc, "out of memory"),
    }
}
