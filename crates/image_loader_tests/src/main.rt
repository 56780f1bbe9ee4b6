//! Makes the images of its tables, or takes their bytes, and prints a line for each row: the image is accepted, or the
//! first test that it fails is the one that the row wants.
#![tactic(auto)]

mod answers;
mod parts;

use answers::answer_of;
use anyhow::Result;
use std::alloc::{AllocError, Global};
use std::env;
use test_rows::{Row, read_rows, verdict};

fn main(rt: HostRuntime) -> Result<()> {
    let alloc = rt.alloc();
    for file in env::args(&rt)?.skip(1) {
        let rows = read_rows(&rt, alloc, file.as_str())?;
        for row in rows.iter() {
            let line = line_of(alloc, row)?;
            println!(rt; "{line}")?;
        }
        println!(rt; "{file}: {} rows", rows.len())?;
    }
    Ok(())
}

// The line of a row.
fn line_of(alloc: Global, row: &Row) -> Result<String, AllocError> {
    let found = answer_of(alloc, row)?;
    verdict(alloc, row.name(), found.as_str(), row.text_or_empty("want"))
}
