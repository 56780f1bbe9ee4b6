//! One run of a row's source.
use spawn_join::OpenGate;
use std::alloc::{AllocError, Global};
use std::thread::Threads;
use test_rows::{Row, shown};
use xmt_host::{HostCall, MemoryHost};
use xmt_top::xmt;

// An outcome as a text: code, output and error stream.
fn outcome(alloc: Global, code: i64, out: &[u8], err: &[u8]) -> Result<String, AllocError> {
    let out = shown(alloc, out)?;
    let err = shown(alloc, err)?;
    format!(in alloc; "code {code}, out {out:?}, err {err:?}")
}

/// What a row wants.
pub(crate) fn wanted(alloc: Global, row: &Row) -> Result<String, AllocError> {
    let code = row.number("code").unwrap_or(0);
    let out = row.text_or_empty("out").as_bytes();
    outcome(alloc, code, out, row.text_or_empty("err").as_bytes())
}

// The words of a line, parted by single spaces.
fn split(alloc: Global, line: &str) -> Result<Vec<String>, AllocError> {
    let mut words = Vec::new(alloc);
    for word in line.split(' ') {
        words.push(String::from_str(alloc, word)?)?;
    }
    Ok(words)
}

// A host in memory with the row's source and the bytes of its image, of which the named print fails.
fn host_of(alloc: Global, row: &Row) -> Result<MemoryHost, AllocError> {
    let mut failing = Vec::new(alloc);
    if let Some(number) = row.number("failing") {
        if let Ok(number) = u64::try_from(number) {
            failing.push((HostCall::Print, number))?;
        }
    }
    let mut host = MemoryHost::new(alloc, failing);
    let source = Vec::from_slice(alloc, row.text_or_empty("source").as_bytes())?;
    host.with_file("p.xmtc", source)?;
    host.with_file("p.img", row.bytes(alloc, "image")?)?;
    Ok(host)
}

/// What a row's source gives under these words.
pub(crate) fn outcome_of<R: Threads + Sync>(
    rt: &R,
    alloc: Global,
    row: &Row,
    line: &str,
) -> Result<String, AllocError> {
    let mut host = host_of(alloc, row)?;
    let words = split(alloc, line)?;
    let status = xmt(rt, alloc, words.as_slice(), &mut host, &OpenGate);
    outcome(
        alloc,
        i64::from(status.code),
        host.out.as_slice(),
        host.err.as_slice(),
    )
}
