//! The test of symbols.
ghost use Rattle.std.specs.Prelude.{◌≡◌, ◌↔◌, ◌≤◌, ◌++◌, [], ◌∷◌, All, IfOk, IsTrue, length, map, not, true};
ghost use Rattle.std.specs.List.{list_any};
ghost use Rattle.std.specs.Str.{bytes_eq};
ghost use Rattle.xmt_isa.specs.Symbols.{Covers};
ghost use Rattle.xmt_isa.specs.Valid.{HasSymbols};
ghost use Rattle.image_loader.specs.Symbols.{SymbolHolds, NamesDiffer};

use indexmap::IndexSet;
use std::alloc::{AllocError, Global};
use xmt_base::{Symbol, is_name};
use xmt_isa::Image;

fn symbol_holds(symbol: &Symbol) -> bool
    ensures { IsTrue result ↔ SymbolHolds symbol.now }
{
    is_name(symbol.name.as_slice()) && symbol.name.len() < 1 << 32 && 1 <= symbol.length
}

fn symbols_hold(symbols: &[Symbol]) -> bool
    ensures { IsTrue result ↔ All SymbolHolds symbols.now }
{
    for symbol in symbols {
        if !symbol_holds(symbol) {
            return false;
        }
    }
    true
}

// The symbols follow each other from word 0 to the last.
fn covers(symbols: &[Symbol], words: usize) -> bool
    requires { length symbols.now ≤ 4096 }
    ensures { IsTrue result ↔ Covers 0 symbols.now words }
{
    let mut from = 0;
    for item in symbols {
        if item.base as usize != from {
            return false;
        }
        from += item.length as usize;
    }
    from == words
}

// Adds a name, and tells whether it is new.
fn add_name(names: &mut IndexSet<Vec<u8>>, name: Vec<u8>) -> Result<bool, AllocError>
    ensures new { IfOk result (λ new. new ≡ not (list_any (bytes_eq name.items) (map (λ key. key.items) names.old.keys))) }
    ensures keys { IfOk result (λ new. new ≡ true → map (λ key. key.items) names.new.keys ≡ map (λ key. key.items) names.old.keys ++ name.items ∷ []) }
{
    let (_, new) = names.insert_full(name)?;
    Ok(new)
}

fn names_differ(alloc: Global, symbols: &[Symbol]) -> Result<bool, AllocError>
    ensures { IfOk result (λ answer. IsTrue answer ↔ NamesDiffer symbols.now) }
{
    let mut names = IndexSet::with_capacity(alloc, symbols.len())?;
    for symbol in symbols {
        let name = Vec::from_slice(alloc, symbol.name.as_slice())?;
        let new = add_name(&mut names, name)?;
        if !new {
            return Ok(false);
        }
    }
    Ok(true)
}

/// The symbols have names that differ, and follow each other over all data words.
pub fn has_symbols(alloc: Global, image: &Image) -> Result<bool, AllocError>
    requires { length image.now.symbols ≤ 4096 }
    ensures { IfOk result (λ answer. IsTrue answer ↔ HasSymbols image.now) }
{
    let symbols = image.symbols.as_slice();
    if !symbols_hold(symbols) {
        return Ok(false);
    }
    if !covers(symbols, image.words.len()) {
        return Ok(false);
    }
    names_differ(alloc, symbols)
}
