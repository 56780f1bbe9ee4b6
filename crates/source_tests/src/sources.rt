//! The source of a row.
use std::alloc::{AllocError, Global};
use test_rows::Row;

/// The bytes of a row's source: its text, and then its pieces.
pub(crate) fn source_of(alloc: Global, row: &Row) -> Result<Vec<u8>, AllocError> {
    let mut source = Vec::from_slice(alloc, row.text_or_empty("source").as_bytes())?;
    let pieces = row.texts(alloc, "pieces")?;
    let times = row.texts(alloc, "times")?;
    for (piece, times) in pieces.iter().zip(times.iter()) {
        let times = times.as_str().parse::<u32>().unwrap_or(0);
        push_copies(alloc, &mut source, piece.as_str(), times)?;
    }
    Ok(source)
}

// Copies of a piece, each with its number in the place of a `#`.
fn push_copies(
    alloc: Global,
    source: &mut Vec<u8>,
    piece: &str,
    times: u32,
) -> Result<(), AllocError> {
    for number in 0..times {
        match piece.split_once('#') {
            None => source.extend_from_slice(piece.as_bytes())?,
            Some((front, back)) => {
                let copy = format!(in alloc; "{front}{number}{back}")?;
                source.extend_from_slice(copy.as_str().as_bytes())?;
            }
        }
    }
    Ok(())
}
