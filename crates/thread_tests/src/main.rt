//! Runs programs whose threads meet at shared places, over a host in memory and without a seed, and prints a line for
//! each row. Units pass a gate that lets them go on two by two.
//!
//! A row has a `source` and all that its run may give: the texts that it may print (`answers`), and the lines on the
//! error stream (`faults`) with which it may end instead, with `before` printed and the exit code of such a line. It
//! runs under each of its `words`, or else on 1, 2, 4 and 64 units; `failing` is the number of the print that fails. No
//! line tells which of its answers a row gave, so the lines are the same however the threads are mixed.
#![tactic(auto)]

mod allowed;
mod gate;
mod runs;

use crate::allowed::{answer_count, is_allowed};
use crate::runs::{outcome_of, outcome_text};
use anyhow::Result;
use std::alloc::{AllocError, Global};
use std::env;
use std::thread::Threads;
use test_rows::{Row, read_rows};

// The words of a row that names none.
const USUAL: [&str; 4] = [
    "run p.xmtc --units 1",
    "run p.xmtc --units 2",
    "run p.xmtc --units 4",
    "run p.xmtc --units 64",
];

fn main(rt: HostRuntime) -> Result<()> {
    let alloc = rt.alloc();
    for file in env::args(&rt)?.skip(1) {
        let rows = read_rows(&rt, alloc, file.as_str())?;
        for row in rows.iter() {
            let line = line_of(&rt, alloc, row)?;
            println!(rt; "{line}")?;
        }
        println!(rt; "{file}: {} rows", rows.len())?;
    }
    Ok(())
}

// The line of a row: of the first words under which it gives none of its answers, if there are any.
fn line_of<R: Threads + Sync>(rt: &R, alloc: Global, row: &Row) -> Result<String, AllocError> {
    let mut wrong = String::new(alloc);
    for words in words_of(alloc, row)?.iter() {
        if wrong.is_empty() {
            wrong = wrong_under(rt, alloc, row, words.as_str())?;
        }
    }
    let name = row.name();
    if !wrong.is_empty() {
        return format!(in alloc; "{name}: {wrong}");
    }
    match answer_count(alloc, row)? {
        1 => format!(in alloc; "{name}: its one answer"),
        count => format!(in alloc; "{name}: one of its {count} answers"),
    }
}

// What is wrong with the run of a row under these words; nothing where it gives one of its answers.
fn wrong_under<R: Threads + Sync>(
    rt: &R,
    alloc: Global,
    row: &Row,
    words: &str,
) -> Result<String, AllocError> {
    let outcome = outcome_of(rt, alloc, row, words)?;
    if is_allowed(alloc, row, &outcome)? {
        return Ok(String::new(alloc));
    }
    let found = outcome_text(alloc, &outcome)?;
    format!(in alloc; "none of its answers under {words:?}, but {found}")
}

// The words under which a row runs.
fn words_of(alloc: Global, row: &Row) -> Result<Vec<String>, AllocError> {
    let mut words = row.texts(alloc, "words")?;
    if words.is_empty() {
        for usual in USUAL {
            words.push(String::from_str(alloc, usual)?)?;
        }
    }
    Ok(words)
}
