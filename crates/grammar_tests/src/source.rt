//! The source of a row.

use std::alloc::{AllocError, Global};
use test_rows::Row;

// Puts bytes so many times.
fn put_times(out: &mut Vec<u8>, bytes: &[u8], times: i64) -> Result<(), AllocError> {
    for _ in 0..times {
        out.extend_from_slice(bytes)?;
    }
    Ok(())
}

/// The source of a row: its `source`, or, where it says `repeat`, that many of its `open`, its `inner`, and as many of
/// its `close`, between its `head` and its `tail`.
pub fn source_of(alloc: Global, row: &Row) -> Result<Vec<u8>, AllocError> {
    let Some(times) = row.number("repeat") else {
        return row.bytes(alloc, "source");
    };
    let mut source = row.bytes(alloc, "head")?;
    let open = row.bytes(alloc, "open")?;
    put_times(&mut source, &open, times)?;
    let inner = row.bytes(alloc, "inner")?;
    source.extend_from_slice(&inner)?;
    let close = row.bytes(alloc, "close")?;
    put_times(&mut source, &close, times)?;
    let tail = row.bytes(alloc, "tail")?;
    source.extend_from_slice(&tail)?;
    Ok(source)
}
