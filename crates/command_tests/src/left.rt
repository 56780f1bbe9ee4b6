//! What a call leaves, as a text, and what a row says of it.
use std::alloc::{AllocError, Global};
use test_rows::{Row, shown};
use xmt_host::MemoryHost;

const NO_FILE: &str = "no file";

// A code and both streams.
fn streams(alloc: Global, code: i64, out: &[u8], err: &[u8]) -> Result<String, AllocError> {
    let out = shown(alloc, out)?;
    let err = shown(alloc, err)?;
    format!(in alloc; "code {code}, output {out:?}, errors {err:?}")
}

// Adds what is said of a file.
fn add(alloc: Global, text: &mut String, name: &str, state: &str) -> Result<(), AllocError> {
    let part = format!(in alloc; ", {name}: {state}")?;
    text.push_str(part.as_str())?;
    Ok(())
}

// The bytes of a file of the host, if it is there.
fn bytes_in(alloc: Global, host: &MemoryHost, name: &str) -> Result<String, AllocError> {
    match host.files.get(name) {
        None => String::from_str(alloc, NO_FILE),
        Some(bytes) => shown(alloc, bytes.as_slice()),
    }
}

// The bytes that the row wants in a file, if it is to be there.
fn bytes_wanted(alloc: Global, row: &Row, name: &str) -> Result<String, AllocError> {
    let key = format!(in alloc; "{name} left")?;
    match row.text(key.as_str()) {
        None => String::from_str(alloc, NO_FILE),
        Some(_) => {
            let bytes = row.bytes(alloc, key.as_str())?;
            shown(alloc, bytes.as_slice())
        }
    }
}

// Whether a file is there.
fn making(host: &MemoryHost, name: &str) -> &'static str {
    if host.files.get(name).is_some() {
        "made"
    } else {
        NO_FILE
    }
}

// Whether a file is still what the row says that it was.
fn change(host: &MemoryHost, name: &str, before: &[u8]) -> &'static str {
    match host.files.get(name) {
        None => NO_FILE,
        Some(bytes) if bytes.as_slice() == before => "as before",
        Some(_) => "changed",
    }
}

/// What a call has left in the host.
pub(crate) fn found_in(
    alloc: Global,
    row: &Row,
    code: u8,
    host: &MemoryHost,
) -> Result<String, AllocError> {
    let mut text = streams(alloc, code as i64, host.out.as_slice(), host.err.as_slice())?;
    for name in row.texts(alloc, "watched")?.iter() {
        let state = bytes_in(alloc, host, name.as_str())?;
        add(alloc, &mut text, name.as_str(), state.as_str())?;
    }
    for name in row.texts(alloc, "made")?.iter() {
        add(alloc, &mut text, name.as_str(), making(host, name.as_str()))?;
    }
    for name in row.texts(alloc, "changed")?.iter() {
        let before = row.bytes(alloc, name.as_str())?;
        add(
            alloc,
            &mut text,
            name.as_str(),
            change(host, name.as_str(), before.as_slice()),
        )?;
    }
    Ok(text)
}

/// What the row says that a call leaves.
pub(crate) fn wanted_by(alloc: Global, row: &Row) -> Result<String, AllocError> {
    let out = row.bytes(alloc, "out")?;
    let err = row.bytes(alloc, "err")?;
    let code = row.number("code").unwrap_or(0);
    let mut text = streams(alloc, code, out.as_slice(), err.as_slice())?;
    for name in row.texts(alloc, "watched")?.iter() {
        let state = bytes_wanted(alloc, row, name.as_str())?;
        add(alloc, &mut text, name.as_str(), state.as_str())?;
    }
    for name in row.texts(alloc, "made")?.iter() {
        add(alloc, &mut text, name.as_str(), "made")?;
    }
    for name in row.texts(alloc, "changed")?.iter() {
        add(alloc, &mut text, name.as_str(), "changed")?;
    }
    Ok(text)
}
