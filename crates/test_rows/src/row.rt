//! One row: a name, and texts under keys.
use std::alloc::{AllocError, Global};

// One text of a row, under its key.
#[derive(Drop)]
pub(crate) struct Entry {
    pub(crate) key: String,
    pub(crate) text: String,
}

/// A row of a table of tests: its name, and texts under keys. A number stands as its decimal text, and a list of texts
/// as several texts under one key.
#[derive(Drop)]
pub struct Row {
    pub(crate) name: String,
    pub(crate) entries: Vec<Entry>,
}

impl Row {
    /// Its name, which is empty where none was given.
    pub fn name(&self) -> &str {
        self.name.as_str()
    }

    /// The first text under a key.
    pub fn text(&self, key: &str) -> Option<&str> {
        for entry in self.entries.iter() {
            if entry.key.as_str() == key {
                return Some(entry.text.as_str());
            }
        }
        None
    }

    /// The first text under a key, and an empty one where there is none.
    pub fn text_or_empty(&self, key: &str) -> &str {
        self.text(key).unwrap_or("")
    }

    /// The whole number under a key.
    pub fn number(&self, key: &str) -> Option<i64> {
        match self.text(key) {
            Some(text) => text.parse::<i64>().ok(),
            None => None,
        }
    }

    /// All texts under a key, in their order.
    pub fn texts(&self, alloc: Global, key: &str) -> Result<Vec<String>, AllocError> {
        let mut texts = Vec::new(alloc);
        for entry in self.entries.iter() {
            if entry.key.as_str() == key {
                texts.push(entry.text.clone()?)?;
            }
        }
        Ok(texts)
    }

    /// The bytes of the text under a key, in which `\xHH` is the byte with these two hexadecimal digits and `\\` a
    /// backslash; any other backslash stands for itself. There are none where there is no such text.
    pub fn bytes(&self, alloc: Global, key: &str) -> Result<Vec<u8>, AllocError> {
        unescaped(alloc, self.text_or_empty(key).as_bytes())
    }
}

// The value of a hexadecimal digit.
fn digit(byte: u8) -> Option<u8> {
    (byte as char).to_digit(16).map(|value| value as u8)
}

// The byte that two hexadecimal digits are.
fn byte_of(high: u8, low: u8) -> Option<u8> {
    match (digit(high), digit(low)) {
        (Some(high), Some(low)) => Some(high.wrapping_mul(16) | low),
        _ => None,
    }
}

// What the front of the bytes stands for, and how many of them that takes.
fn first(bytes: &[u8]) -> (u8, usize) {
    match bytes {
        [b'\\', b'\\', ..] => (b'\\', 2),
        [b'\\', b'x', high, low, ..] => match byte_of(*high, *low) {
            Some(byte) => (byte, 4),
            None => (b'\\', 1),
        },
        [byte, ..] => (*byte, 1),
        [] => (0, 1),
    }
}

// The bytes with their escapes undone.
fn unescaped(alloc: Global, bytes: &[u8]) -> Result<Vec<u8>, AllocError> {
    let mut found = Vec::new(alloc);
    let mut skipped = 0;
    for at in 0..bytes.len() {
        if skipped > 0 {
            skipped -= 1;
        } else {
            let (byte, count) = first(&bytes[at..]);
            found.push(byte)?;
            skipped = count.saturating_sub(1);
        }
    }
    Ok(found)
}
