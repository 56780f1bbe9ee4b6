//! Runs the programs of its tables over a host in memory, and prints a line for each row.
//!
//! A row has a `source` or the bytes of an `image`, and what its run gives: the exit `code`, what it prints (`out`) and
//! the line on the error stream (`err`), where 0 and nothing are left out. It runs under each of its `words`, or else by
//! default, on one unit, and on many in an order that a seed picks. Without a seed each unit is a host thread, and no
//! row's answer hangs on which schedule that is. `failing` is the number of the print that fails.
#![tactic(auto)]

mod runs;

use crate::runs::{outcome_of, wanted};
use anyhow::Result;
use std::alloc::{AllocError, Global};
use std::env;
use std::thread::Threads;
use test_rows::{Row, read_rows, verdict};

// The words of a row that names none.
const USUAL: [&str; 3] = [
    "run p.xmtc",
    "run p.xmtc --units 1",
    "run p.xmtc --units 17 --seed 9",
];

fn main(rt: HostRuntime) -> Result<()> {
    let alloc = rt.alloc();
    for file in env::args(&rt)?.skip(1) {
        let rows = read_rows(&rt, alloc, file.as_str())?;
        for row in rows.iter() {
            let line = line_of(&rt, alloc, row)?;
            println!(rt; "{line}")?;
        }
        println!(rt; "{file}: {} rows", rows.len())?;
    }
    Ok(())
}

// The line of a row: of the first words under which it gives something else, if there are any.
fn line_of<R: Threads + Sync>(rt: &R, alloc: Global, row: &Row) -> Result<String, AllocError> {
    let wanted = wanted(alloc, row)?;
    let mut found = wanted.clone()?;
    for words in words_of(alloc, row)?.iter() {
        if found == wanted {
            found = outcome_of(rt, alloc, row, words.as_str())?;
        }
    }
    verdict(alloc, row.name(), found.as_str(), wanted.as_str())
}

// The words under which a row runs.
fn words_of(alloc: Global, row: &Row) -> Result<Vec<String>, AllocError> {
    let mut words = row.texts(alloc, "words")?;
    if words.is_empty() {
        for usual in USUAL {
            words.push(String::from_str(alloc, usual)?)?;
        }
    }
    Ok(words)
}
