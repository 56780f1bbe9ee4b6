//! What the loader answers to a row.
use crate::parts::{code_of, count, functions_of, numbers_of, symbols_of, texts_of};
use image_loader::{LoadRefusal, Loaded, admit, encode, load};
use std::alloc::{AllocError, Global};
use test_rows::Row;
use xmt_isa::Image;

/// What the loader answers to the row's image: bytes under `bytes`, each proper front of those under `fronts_of`, or
/// else an image of the parts that the row names.
pub(crate) fn answer_of(alloc: Global, row: &Row) -> Result<String, AllocError> {
    if row.text("bytes").is_some() {
        let bytes = row.bytes(alloc, "bytes")?;
        return answer_to_bytes(alloc, bytes.as_slice());
    }
    if row.text("fronts_of").is_some() {
        let bytes = row.bytes(alloc, "fronts_of")?;
        return answer_to_fronts(alloc, bytes.as_slice());
    }
    answer_to_image(alloc, row)
}

// What bytes are: an image that is spelled so, or refused.
fn answer_to_bytes(alloc: Global, bytes: &[u8]) -> Result<String, AllocError> {
    match load(alloc, bytes) {
        Ok(loaded) => spelled_so(alloc, &loaded, bytes),
        Err(refusal) => refused(alloc, refusal),
    }
}

// What all proper fronts of the bytes are refused for, or the answer to the first that differs from its elder.
fn answer_to_fronts(alloc: Global, bytes: &[u8]) -> Result<String, AllocError> {
    let shortest = answer_to_bytes(alloc, &[])?;
    for count in 1..bytes.len() {
        let answer = answer_to_bytes(alloc, &bytes[..count])?;
        if answer != shortest {
            return format!(in alloc; "{answer} with {count} bytes");
        }
    }
    Ok(shortest)
}

// What the image of a row's parts is; where the row has bytes that it is to be spelled by, they are compared.
fn answer_to_image(alloc: Global, row: &Row) -> Result<String, AllocError> {
    let image = image_of(alloc, row)?;
    match admit(alloc, image) {
        Err(refusal) => refused(alloc, refusal),
        Ok(loaded) => match row.text("spelled") {
            None => String::from_str(alloc, "accepted"),
            Some(_) => {
                let wanted = row.bytes(alloc, "spelled")?;
                spelled_so(alloc, &loaded, wanted.as_slice())
            }
        },
    }
}

fn image_of(alloc: Global, row: &Row) -> Result<Image, AllocError> {
    let code = code_of(alloc, row)?;
    let lines = numbers_of(alloc, 1, count(row, "lines", code.len()))?;
    Ok(Image {
        code,
        lines,
        functions: functions_of(alloc, row)?,
        texts: texts_of(alloc, row)?,
        symbols: symbols_of(alloc, row)?,
        words: numbers_of(alloc, 0, count(row, "words", 0))?,
        ps: [0; 8],
        outer: number(row, "outer"),
        entry: number(row, "entry"),
    })
}

// A number of the image.
fn number(row: &Row, key: &str) -> u32 {
    u32::try_from(count(row, key, 0)).unwrap_or(u32::MAX)
}

// Whether the image is spelled by these bytes.
fn spelled_so(alloc: Global, loaded: &Loaded, bytes: &[u8]) -> Result<String, AllocError> {
    let spelling = encode(alloc, loaded.image())?;
    let answer = if spelling.as_slice() == bytes {
        "accepted"
    } else {
        "spelled otherwise"
    };
    String::from_str(alloc, answer)
}

// The name of a refusal.
fn refused(alloc: Global, refusal: LoadRefusal) -> Result<String, AllocError> {
    match refusal {
        LoadRefusal::Refused(kind) => format!(in alloc; "{kind:?}"),
        LoadRefusal::NoMemory => String::from_str(alloc, "out of memory"),
    }
}
