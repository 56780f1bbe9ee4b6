//! Reading a map.
ghost use Rattle.std.specs.Prelude.{ℕ, ◌≡◌, ◌≢◌, ◌+◌, ◌<◌, ◌≤◌, AllPairs, ◌^◌, ◌==◌, ◌-◌, Some, None, Ok, Err, false, [], ◌∷◌, ◌++◌, OnOk, MatchResult, MatchBool, IfOk, IfErr, map, count_by, length, slice_get};
ghost use Rattle.std.specs.List.{list_any};
ghost use Rattle.std.specs.Str.{bytes_eq};
ghost use Rattle.xmt_base.specs.declared.values.Symbol.{Symbol};
ghost use Rattle.xmt_isa.specs.Symbols.{AreSymbols};
ghost use Rattle.memory_map.specs.MapText.{MapText, IsRefused, index_of, put_values, read_line, read_named};

use crate::lines::{first_line, words_of};
use crate::numbers::value_of;
use indexmap::IndexSet;
use sqlite_items::Items;
use std::alloc::{AllocError, Global};
use thiserror::Error;
use xmt_base::{Memory, Symbol, is_name};

/// Why a map is refused. Each reason but want of memory has the number of the first faulty line,
/// counted from 1; where several hold of that line, the first of this list is given.
#[derive(Clone, Copy, Debug, PartialEq, Eq, Error)]
pub enum MapRefusal {
    #[error("line {0} doesn't begin with a name")]
    BadLine(u32),
    #[error("line {0} names no symbol")]
    UnknownName(u32),
    #[error("line {0} names a symbol that an earlier line named")]
    DoubleName(u32),
    #[error("line {0} has more values than the symbol has words")]
    TooManyValues(u32),
    #[error("line {0} has a word that is no value")]
    BadNumber(u32),
    #[error("no memory is left")]
    NoMemory,
}

impl From<AllocError> for MapRefusal {
    ghost use Rattle.std.specs.Prelude.{◌≡◌};
    ghost use Rattle.memory_map.specs.declared.read.MapRefusal.TheVariants.{NoMemory};

    ghost from_gives = { λ _ refusal. refusal ≡ NoMemory };

    fn from(_: AllocError) -> Self {
        MapRefusal::NoMemory
    }
}

/// The words so far, and which symbols were named, by their places.
#[derive(Debug, Drop)]
pub struct Reading {
    pub words: Items<u32>,
    pub named: Items<bool>,
}

// Adds a name that isn't there yet.
fn add_name(names: &mut IndexSet<Vec<u8>>, name: Vec<u8>) -> Result<(), AllocError>
    requires { list_any (bytes_eq name.items) (map (λ key. key.items) names.old.keys) ≡ false }
    ensures { OnOk result (map (λ key. key.items) names.new.keys ≡ map (λ key. key.items) names.old.keys ++ name.items ∷ []) }
{
    names.insert_full(name)?;
    Ok(())
}

// The names of the symbols, in order.
fn names_of(alloc: Global, symbols: &[Symbol]) -> Result<IndexSet<Vec<u8>>, AllocError>
    requires { AllPairs (λ s t. s.name ≢ t.name) symbols.now }
    ensures { IfOk result (λ names. map (λ name. name.items) names.keys ≡ map (λ s. s.name) symbols.now) }
{
    let mut names = IndexSet::with_capacity(alloc, symbols.len())?;
    for symbol in symbols {
        let name = Vec::from_slice(alloc, symbol.name.as_slice())?;
        add_name(&mut names, name)?;
    }
    Ok(names)
}

// The place of the symbol with this name.
fn index_of(names: &IndexSet<Vec<u8>>, name: &[u8], symbols: &[Symbol]) -> Option<usize>
    requires { map (λ name. name.items) names.now.keys ≡ map (λ s. s.name) symbols.now }
    ensures { result ≡ index_of symbols.now name.now }
{
    names.get_index_of(name)
}

// Puts the values of these texts at a place, where each text is a value.
fn put_values(words: &mut Items<u32>, at: usize, texts: &[&[u8]]) -> bool
    requires { at + length texts.now ≤ length words.old }
    ensures put { MatchBool result (put_values at words.old (map (λ text. text.now) texts.now) ≡ Some words.new) (put_values at words.old (map (λ text. text.now) texts.now) ≡ None) }
    ensures length { length words.new ≡ length words.old }
{
    let _room = words.len();
    for (k, text) in texts.iter().enumerate() {
        match value_of(text) {
            None => return false,
            Some(value) => words.set(at + k, value),
        }
    }
    true
}

// Reads the values of the symbol at a place.
fn read_named(
    symbols: &[Symbol],
    number: u32,
    reading: &mut Reading,
    place: Option<usize>,
    texts: &[&[u8]],
) -> Result<(), MapRefusal>
    requires named { length reading.old.named ≡ length symbols.now }
    requires fits { (k : ℕ) (s : Symbol) → slice_get symbols.now k ≡ Some s → s.base + s.length ≤ length reading.old.words }
    ensures read { MatchResult result (λ _. read_named symbols.now number reading.old place (map (λ text. text.now) texts.now) ≡ Ok reading.new) (λ refusal. read_named symbols.now number reading.old place (map (λ text. text.now) texts.now) ≡ Err refusal) }
    ensures words { length reading.new.words ≡ length reading.old.words }
    ensures named { length reading.new.named ≡ length reading.old.named }
{
    let Some(k) = place else {
        return Err(MapRefusal::UnknownName(number));
    };
    if reading.named.get(k).copied().unwrap_or(false) {
        return Err(MapRefusal::DoubleName(number));
    }
    match symbols.get(k) {
        None => Err(MapRefusal::UnknownName(number)),
        Some(symbol) => {
            if texts.len() > symbol.length as usize {
                return Err(MapRefusal::TooManyValues(number));
            }
            if put_values(&mut reading.words, symbol.base as usize, texts) {
                reading.named.set(k, true);
                Ok(())
            } else {
                Err(MapRefusal::BadNumber(number))
            }
        }
    }
}

// Reads the line with these words.
fn read_line(
    names: &IndexSet<Vec<u8>>,
    symbols: &[Symbol],
    number: u32,
    reading: &mut Reading,
    words: &[&[u8]],
) -> Result<(), MapRefusal>
    requires names { map (λ name. name.items) names.now.keys ≡ map (λ s. s.name) symbols.now }
    requires named { length reading.old.named ≡ length symbols.now }
    requires fits { (k : ℕ) (s : Symbol) → slice_get symbols.now k ≡ Some s → s.base + s.length ≤ length reading.old.words }
    ensures read { MatchResult result (λ _. read_line symbols.now number reading.old (map (λ text. text.now) words.now) ≡ Ok reading.new) (λ refusal. read_line symbols.now number reading.old (map (λ text. text.now) words.now) ≡ Err refusal) }
    ensures words { length reading.new.words ≡ length reading.old.words }
    ensures named { length reading.new.named ≡ length reading.old.named }
{
    match words {
        [] => Ok(()),
        [name, texts @ ..] => {
            if !is_name(name) {
                return Err(MapRefusal::BadLine(number));
            }
            read_named(
                symbols,
                number,
                reading,
                index_of(names, name, symbols),
                texts,
            )
        }
    }
}

/// The opening words, with the values of the map over the first words of the symbols that it
/// names. The first faulty line decides.
pub fn read_map(
    alloc: Global,
    bytes: &[u8],
    symbols: &[Symbol],
    opening: &Memory,
) -> Result<Memory, MapRefusal>
    requires newlines { count_by (λ c. c == 10) bytes.now < 2 ^ 32 - 1 }
    requires symbols { AreSymbols symbols.now (length opening.now.words) }
    ensures ok { IfOk result (λ memory. MapText bytes.now symbols.now opening.now.words memory.words) }
    ensures size { IfOk result (λ memory. length memory.words ≡ length opening.now.words) }
    ensures err { IfErr result (λ refusal. IsRefused bytes.now symbols.now opening.now.words refusal) }
{
    let names = names_of(alloc, symbols)?;
    let mut reading = Reading {
        words: Items::from_slice(alloc, opening.words.as_slice())?,
        named: Items::from_vec(vec![in alloc; false; symbols.len()]?),
    };
    let mut number = 1u32;
    let mut rest = bytes;
    loop {
        let (line, next) = first_line(rest);
        let words = words_of(alloc, line)?;
        match read_line(&names, symbols, number, &mut reading, words.as_slice()) {
            Err(refusal) => return Err(refusal),
            Ok(()) => match next {
                None => {
                    let Reading { words, named: _ } = reading;
                    return Ok(Memory { words });
                }
                Some(after) => {
                    number += 1;
                    rest = after;
                }
            },
        }
    }
}
