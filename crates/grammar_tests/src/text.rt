//! Pieces of texts.

use std::alloc::{AllocError, Global};
use xmt_lex::Mark;

/// Puts bytes as the characters with these numbers.
pub fn put_bytes(out: &mut String, bytes: &[u8]) -> Result<(), AllocError> {
    for byte in bytes {
        let character = char::from(*byte);
        out.push(character)?;
    }
    Ok(())
}

/// Puts a mark's own name, as `Plus`.
pub fn put_mark(alloc: Global, out: &mut String, mark: Mark) -> Result<(), AllocError> {
    let text = format!(in alloc; "{mark:?}")?;
    out.push_str(&text)
}

/// Puts a number in decimal.
pub fn put_number(alloc: Global, out: &mut String, number: u32) -> Result<(), AllocError> {
    let text = format!(in alloc; "{number}")?;
    out.push_str(&text)
}
