//! One run of a row's source.
use crate::gate::PairGate;
use std::alloc::{AllocError, Global};
use std::thread::Threads;
use test_rows::{Row, shown};
use xmt_host::{HostCall, MemoryHost};
use xmt_top::xmt;

/// What a run gives: its exit code, what it prints, and what stands on the error stream.
#[derive(Drop)]
pub(crate) struct Outcome {
    pub(crate) code: i64,
    pub(crate) out: String,
    pub(crate) err: String,
}

/// An outcome as a text.
pub(crate) fn outcome_text(alloc: Global, outcome: &Outcome) -> Result<String, AllocError> {
    let code = outcome.code;
    let out = outcome.out.as_str();
    let err = outcome.err.as_str();
    format!(in alloc; "code {code}, out {out:?}, err {err:?}")
}

// The words of a line, parted by single spaces.
fn split(alloc: Global, line: &str) -> Result<Vec<String>, AllocError> {
    let mut words = Vec::new(alloc);
    for word in line.split(' ') {
        words.push(String::from_str(alloc, word)?)?;
    }
    Ok(words)
}

// A host in memory with the row's source, of which the named print fails.
fn host_of(alloc: Global, row: &Row) -> Result<MemoryHost, AllocError> {
    let mut failing = Vec::new(alloc);
    if let Some(number) = row.number("failing") {
        failing.push((HostCall::Print, number.unsigned_abs()))?;
    }
    let mut host = MemoryHost::new(alloc, failing);
    let source = Vec::from_slice(alloc, row.text_or_empty("source").as_bytes())?;
    host.with_file("p.xmtc", source)?;
    Ok(host)
}

/// What a row's source gives under these words.
pub(crate) fn outcome_of<R: Threads + Sync>(
    rt: &R,
    alloc: Global,
    row: &Row,
    line: &str,
) -> Result<Outcome, AllocError> {
    let mut host = host_of(alloc, row)?;
    let words = split(alloc, line)?;
    let gate = PairGate::new();
    let status = xmt(rt, alloc, words.as_slice(), &mut host, &gate);
    let out = shown(alloc, host.out.as_slice())?;
    let err = shown(alloc, host.err.as_slice())?;
    Ok(Outcome {
        code: i64::from(status.code),
        out,
        err,
    })
}
