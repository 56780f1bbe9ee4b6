//! Calls over a host in memory.
use crate::hosts::host_of;
use crate::left::{found_in, wanted_by};
use spawn_join::OpenGate;
use std::alloc::{AllocError, Global};
use std::thread::Threads;
use test_rows::{Row, verdict};
use xmt_host::MemoryHost;
use xmt_top::xmt;

/// The words of a line, parted by single spaces.
pub(crate) fn words_of(alloc: Global, line: &str) -> Result<Vec<String>, AllocError> {
    let mut words = Vec::new(alloc);
    for word in line.split(' ') {
        words.push(String::from_str(alloc, word)?)?;
    }
    Ok(words)
}

// The code of a call with these words.
fn code_of<R: Threads + Sync>(
    rt: &R,
    alloc: Global,
    host: &mut MemoryHost,
    line: &str,
) -> Result<u8, AllocError> {
    let words = words_of(alloc, line)?;
    Ok(xmt(rt, alloc, words.as_slice(), host, &OpenGate).code)
}

// Makes the calls that come before.
fn prepare<R: Threads + Sync>(
    rt: &R,
    alloc: Global,
    row: &Row,
    host: &mut MemoryHost,
) -> Result<(), AllocError> {
    for line in row.texts(alloc, "before")?.iter() {
        let _code = code_of(rt, alloc, host, line.as_str())?;
    }
    Ok(())
}

// What a call of a row leaves, as a text.
fn found_by<R: Threads + Sync>(
    rt: &R,
    alloc: Global,
    row: &Row,
    line: &str,
) -> Result<String, AllocError> {
    let mut host = host_of(alloc, row)?;
    prepare(rt, alloc, row, &mut host)?;
    let code = code_of(rt, alloc, &mut host, line)?;
    found_in(alloc, row, code, &host)
}

/// The line of a call.
pub(crate) fn call_line<R: Threads + Sync>(
    rt: &R,
    alloc: Global,
    row: &Row,
    line: &str,
) -> Result<String, AllocError> {
    let found = found_by(rt, alloc, row, line)?;
    let wanted = wanted_by(alloc, row)?;
    let name = format!(in alloc; "{} ({line})", row.name())?;
    verdict(alloc, name.as_str(), found.as_str(), wanted.as_str())
}
