//! Hosts in memory, as rows describe them.
use std::alloc::{AllocError, Global};
use test_rows::Row;
use xmt_host::{HostCall, MemoryHost};

/// A host with the files of a row, of which the named call fails.
pub(crate) fn host_of(alloc: Global, row: &Row) -> Result<MemoryHost, AllocError> {
    let failing = failing_of(alloc, row)?;
    let mut host = MemoryHost::new(alloc, failing);
    put_files(alloc, row, &mut host)?;
    Ok(host)
}

// Puts the files of a row into the host.
fn put_files(alloc: Global, row: &Row, host: &mut MemoryHost) -> Result<(), AllocError> {
    for name in row.texts(alloc, "files")?.iter() {
        let bytes = row.bytes(alloc, name.as_str())?;
        host.with_file(name.as_str(), bytes)?;
    }
    Ok(())
}

// The kind of call that a word names.
fn kind_of(word: &str) -> Option<HostCall> {
    match word {
        "read" => Some(HostCall::Read),
        "put" => Some(HostCall::Put),
        "print" => Some(HostCall::Print),
        "complain" => Some(HostCall::Complain),
        _ => None,
    }
}

// The calls that fail, by the row's `fails` and `after`.
fn failing_of(alloc: Global, row: &Row) -> Result<Vec<(HostCall, u64)>, AllocError> {
    let mut failing = Vec::new(alloc);
    if let Some(kind) = kind_of(row.text_or_empty("fails")) {
        failing.push((kind, row.number("after").unwrap_or(0).unsigned_abs()))?;
    }
    Ok(failing)
}
