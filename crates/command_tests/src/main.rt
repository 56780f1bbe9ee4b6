//! The commands over a host in memory, from rows: words and files, and what a call leaves.
//!
//! A row has lists of calls, each made on a host of its own: `files` names the files that are there, whose bytes stand under their names; `before` has the calls that
//! are made first; `fails` and `after` say which call of the host fails. It then has the `code`, the output `out` and the error stream `err`; `watched` names files
//! whose bytes stand under `NAME left`, or that are not there; `made` names files that are there, and `changed` files that are no more what they were. A row with a
//! `job` says which job its words are.
#![tactic(auto)]

mod calls;
mod hosts;
mod jobs;
mod left;

use crate::calls::call_line;
use crate::jobs::job_line;
use anyhow::Error;
use std::alloc::{AllocError, Global};
use std::env;
use std::thread::Threads;
use test_rows::{Row, read_rows};

fn main(rt: HostRuntime) -> Result<(), Error> {
    for file in env::args(&rt)?.skip(1) {
        for row in read_rows(&rt, rt.alloc(), file.as_str())?.iter() {
            show(&rt, rt.alloc(), row)?;
        }
    }
    Ok(())
}

// Prints a line for each call of a row.
fn show<R: Threads + Sync + Print>(rt: &R, alloc: Global, row: &Row) -> Result<(), Error> {
    for call in row.texts(alloc, "calls")?.iter() {
        let line = line_of(rt, alloc, row, call.as_str())?;
        println!(rt; "{line}")?;
    }
    Ok(())
}

// The line of one call of a row.
fn line_of<R: Threads + Sync>(
    rt: &R,
    alloc: Global,
    row: &Row,
    call: &str,
) -> Result<String, AllocError> {
    match row.text("job") {
        Some(job) => job_line(alloc, call, job),
        None => call_line(rt, alloc, row, call),
    }
}
