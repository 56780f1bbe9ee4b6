//! Reads the maps of its tables over `int A[2] = {1}; int x;`, and prints a line for each row.
//!
//! A row has a `map`, and wants the dump of the memory that it leaves, or the refusal with its line.
#![tactic(auto)]

ghost use Rattle.std.specs.Prelude.{◌≡◌, ◌<◌, ◌^◌, IfOk, length};
ghost use Rattle.xmt_isa.specs.Symbols.{AreSymbols};

use anyhow::Result;
use memory_map::{read_map, write_map};
use sqlite_items::Items;
use std::alloc::{AllocError, Global};
use std::env;
use test_rows::{Row, read_rows, shown, verdict};
use xmt_base::{Memory, Symbol};

fn main(rt: HostRuntime) -> Result<()> {
    let alloc = rt.alloc();
    for file in env::args(&rt)?.skip(1) {
        let rows = read_rows(&rt, alloc, file.as_str())?;
        for row in rows.iter() {
            let line = line_of(alloc, row)?;
            println!(rt; "{line}")?;
        }
        println!(rt; "{file}: {} rows", rows.len())?;
    }
    Ok(())
}

// The line of a row.
fn line_of(alloc: Global, row: &Row) -> Result<String, AllocError> {
    let found = answer_of(alloc, row.text_or_empty("map").as_bytes())?;
    verdict(alloc, row.name(), found.as_str(), row.text_or_empty("want"))
}

// The dump that a map leaves, or its refusal.
fn answer_of(alloc: Global, map: &[u8]) -> Result<String, AllocError> {
    if map.len() >= 1 << 20 {
        return String::from_str(alloc, "the map of a row is too long");
    }
    let symbols = two_symbols(alloc)?;
    let opening = opening_words(alloc)?;
    match read_map(alloc, map, &symbols, &opening) {
        Ok(memory) => shown(alloc, write_map(alloc, &memory, &symbols)?.as_slice()),
        Err(refusal) => format!(in alloc; "{refusal:?}"),
    }
}

// `int A[2]; int x;`
fn two_symbols(alloc: Global) -> Result<[Symbol; 2], AllocError>
    ensures { IfOk result (λ symbols. AreSymbols symbols 3) }
{
    let array = Symbol {
        name: Items::from_slice(alloc, b"A")?,
        base: 0,
        length: 2,
    };
    let scalar = Symbol {
        name: Items::from_slice(alloc, b"x")?,
        base: 2,
        length: 1,
    };
    Ok([array, scalar])
}

// The words before a map.
fn opening_words(alloc: Global) -> Result<Memory, AllocError>
    ensures { IfOk result (λ memory. length memory.words ≡ 3) }
{
    let words = Items::from_slice(alloc, &[1, 0, 0])?;
    Ok(Memory { words })
}
