//! Where the globals lie, and what they open with.

ghost use Rattle.std.specs.Prelude.{◌≡◌, ◌+◌, ◌-◌, ◌++◌, length, replicate, IfOk, OnOk};
ghost use Rattle.source_meaning.specs.Layout.{symbols_from, opening_words, all_words};

use source_meaning::GlobalVar;
use sqlite_items::Items;
use std::alloc::{AllocError, Global};
use xmt_base::Symbol;

/// The globals with the symbols of their layout and the number of their words.
#[derive(Drop)]
pub struct Layout<'a> {
    pub globals: &'a [GlobalVar],
    pub symbols: &'a [Symbol],
    pub words: u32,
    ghost laid: { symbols.now ≡ symbols_from 0 globals.now },
    ghost whole: { words ≡ all_words globals.now },
}

// More words than 2^32 - 1 have no room.
fn more(words: u32, length: u32) -> Result<u32, AllocError>
    ensures { IfOk result (λ sum. sum ≡ words + length) }
{
    match words.checked_add(length) {
        Some(sum) => Ok(sum),
        None => Err(AllocError),
    }
}

/// How many words the globals have.
pub(crate) fn word_count(globals: &[GlobalVar]) -> Result<u32, AllocError>
    ensures { IfOk result (λ words. words ≡ all_words globals.now) }
{
    let mut words = 0;
    for global in globals {
        words = more(words, global.length)?;
    }
    Ok(words)
}

// A global as a symbol that begins at this word.
fn symbol_of(alloc: Global, global: &GlobalVar, base: u32) -> Result<Symbol, AllocError>
    ensures { IfOk result (λ symbol. symbol ≡ record { name = global.now.name; base = base; length = global.now.length }) }
{
    Ok(Symbol {
        name: Items::from_slice(alloc, global.name.as_slice())?,
        base,
        length: global.length,
    })
}

/// The globals as symbols, one behind the other.
pub(crate) fn symbols_of(alloc: Global, globals: &[GlobalVar]) -> Result<Items<Symbol>, AllocError>
    ensures { IfOk result (λ symbols. symbols ≡ symbols_from 0 globals.now) }
{
    let mut symbols = Items::new(alloc);
    let mut base = 0;
    for global in globals {
        symbols.push(symbol_of(alloc, global, base)?)?;
        base = more(base, global.length)?;
    }
    Ok(symbols)
}

// The words of a global: the given values, and 0 for the rest of its length.
fn add_words(words: &mut Items<u32>, alloc: Global, global: &GlobalVar) -> Result<(), AllocError>
    ensures { OnOk result (words.new ≡ words.old ++ (global.now.opening ++ replicate (global.now.length - length global.now.opening) 0)) }
{
    let given = global.opening.as_slice();
    let rest = (global.length as usize).saturating_sub(given.len());
    words.append(Items::from_slice(alloc, given)?)?;
    words.append(Items::from_vec(vec![in alloc; 0; rest]?))?;
    Ok(())
}

/// The words that the globals open with.
pub(crate) fn words_at_start(alloc: Global, globals: &[GlobalVar]) -> Result<Items<u32>, AllocError>
    ensures { IfOk result (λ words. words ≡ opening_words globals.now) }
{
    let mut words = Items::new(alloc);
    for global in globals {
        add_words(&mut words, alloc, global)?;
    }
    Ok(words)
}
