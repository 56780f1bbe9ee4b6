//! The parts of an image, as a row names them.
use sqlite_items::Items;
use std::alloc::{AllocError, Global};
use test_rows::Row;
use xmt_base::Symbol;
use xmt_isa::{FunctionEntry, Instr};

const RETURN: Instr = Instr {
    op: 24,
    a: 0,
    b: 0,
    c: 0,
    imm: 0,
};

/// The count under a key, or the usual one where there is none.
pub(crate) fn count(row: &Row, key: &str, usual: usize) -> usize {
    match row.number(key) {
        Some(number) => usize::try_from(number).unwrap_or(0),
        None => usual,
    }
}

/// So many times the same number.
pub(crate) fn numbers_of(
    alloc: Global,
    number: u32,
    count: usize,
) -> Result<Items<u32>, AllocError> {
    Ok(Items::from_vec(vec![in alloc; number; count]?))
}

// The number at a place of a list of words, and 0 where there is none.
fn number_at(words: &str, place: usize) -> u32 {
    match words.split_whitespace().nth(place) {
        Some(word) => word.parse::<u32>().unwrap_or(0),
        None => 0,
    }
}

fn byte_at(words: &str, place: usize) -> u8 {
    u8::try_from(number_at(words, place)).unwrap_or(0)
}

// An instruction of five numbers: its own, three registers, and the immediate.
fn instruction(words: &str) -> Instr {
    Instr {
        op: byte_at(words, 0),
        a: byte_at(words, 1),
        b: byte_at(words, 2),
        c: byte_at(words, 3),
        imm: number_at(words, 4),
    }
}

/// The instructions under `code`, and as many returns as stand under `returns`.
pub(crate) fn code_of(alloc: Global, row: &Row) -> Result<Items<Instr>, AllocError> {
    let mut code = vec![in alloc; RETURN; count(row, "returns", 0)]?;
    for words in row.texts(alloc, "code")?.iter() {
        code.push(instruction(words.as_str()))?;
    }
    Ok(Items::from_vec(code))
}

// A function of three numbers: its first instruction, its slots, and whether blocks may call it.
fn function(words: &str) -> FunctionEntry {
    FunctionEntry {
        start: number_at(words, 0),
        slots: number_at(words, 1),
        inner: number_at(words, 2),
    }
}

/// The functions under `functions`, and as many of one instruction each as stand under `small_functions`.
pub(crate) fn functions_of(alloc: Global, row: &Row) -> Result<Items<FunctionEntry>, AllocError> {
    let mut functions = Vec::new(alloc);
    for words in row.texts(alloc, "functions")?.iter() {
        functions.push(function(words.as_str()))?;
    }
    for start in 0..count(row, "small_functions", 0) {
        functions.push(FunctionEntry {
            start: u32::try_from(start).unwrap_or(0),
            slots: 0,
            inner: 0,
        })?;
    }
    Ok(Items::from_vec(functions))
}

fn text(alloc: Global, text: &str) -> Result<Items<u8>, AllocError> {
    Items::from_slice(alloc, text.as_bytes())
}

/// The texts under `texts`, and as many empty ones as stand under `empty_texts`.
pub(crate) fn texts_of(alloc: Global, row: &Row) -> Result<Items<Items<u8>>, AllocError> {
    let mut texts = Items::new(alloc);
    for given in row.texts(alloc, "texts")?.iter() {
        texts.push(text(alloc, given.as_str())?)?;
    }
    for _ in 0..count(row, "empty_texts", 0) {
        texts.push(text(alloc, "")?)?;
    }
    Ok(texts)
}

// A symbol of two numbers and a name: its first word, how many it has, and all that stands behind the second space.
fn symbol(alloc: Global, words: &str) -> Result<Symbol, AllocError> {
    let rest = words.split_once(' ').map_or("", |parts| parts.1);
    let name = rest.split_once(' ').map_or("", |parts| parts.1);
    Ok(Symbol {
        name: text(alloc, name)?,
        base: number_at(words, 0),
        length: number_at(words, 1),
    })
}

// The scalar at a word, named after it.
fn scalar(alloc: Global, base: u32) -> Result<Symbol, AllocError> {
    let name = format!(in alloc; "s{base}")?;
    Ok(Symbol {
        name: text(alloc, name.as_str())?,
        base,
        length: 1,
    })
}

/// The symbols under `symbols`, and as many scalars as stand under `scalars`.
pub(crate) fn symbols_of(alloc: Global, row: &Row) -> Result<Items<Symbol>, AllocError> {
    let mut symbols = Items::new(alloc);
    for words in row.texts(alloc, "symbols")?.iter() {
        symbols.push(symbol(alloc, words.as_str())?)?;
    }
    for base in 0..count(row, "scalars", 0) {
        symbols.push(scalar(alloc, u32::try_from(base).unwrap_or(0))?)?;
    }
    Ok(symbols)
}
