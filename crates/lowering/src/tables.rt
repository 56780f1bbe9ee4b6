//! What lowering looks up.
ghost use Rattle.std.specs.Prelude.{◌≡◌, length};
ghost use Rattle.source_meaning.specs.Layout.{first_word, words_of, symbols_from, all_words};
ghost use Rattle.source_meaning.specs.Variables.{shared_below};
ghost use Rattle.quad_code.specs.Functions.{outer_of};
ghost use Rattle.lowering.specs.Emitted.{outer_numbers};

use source_meaning::{GlobalVar, Stmt};
use spawn_check::is_shared;
use xmt_base::Symbol;

/// The globals with the symbols of their layout and the number of their words; and of each variable
/// of a function its number among the shared ones of that function, or none.
#[derive(Drop)]
pub struct Tables<'a> {
    pub globals: &'a [GlobalVar],
    pub symbols: &'a [Symbol],
    pub words: u32,
    /// The body of the function.
    pub body: &'a [Stmt],
    pub outer: &'a [Option<u32>],
    ghost laid: { symbols.now ≡ symbols_from 0 globals.now },
    ghost whole: { words ≡ all_words globals.now },
    ghost numbered: { outer.now ≡ outer_numbers body.now (length outer.now) },
}

/// The first word of a global.
#[tactic(auto, using(crate::proofs::Laid::first_of, crate::proofs::Laid::first_past))]
pub(crate) fn base_of(tables: &Tables<'_>, global: u32) -> u32
    ensures { result ≡ first_word tables.now.globals.now global }
{
    match tables.symbols.get(global as usize) {
        Some(symbol) => symbol.base,
        None => tables.words,
    }
}

/// How many words a global has.
#[tactic(auto, using(crate::proofs::Laid::size_of, crate::proofs::Laid::size_past))]
pub(crate) fn size_of(tables: &Tables<'_>, global: u32) -> u32
    ensures { result ≡ words_of tables.now.globals.now global }
{
    match tables.symbols.get(global as usize) {
        Some(symbol) => symbol.length,
        None => 0,
    }
}

// How many variables below this one are shared.
fn count_below(body: &[Stmt], slot: u32) -> u32
    ensures { result ≡ shared_below body.now slot }
{
    let mut count = 0;
    for below in 0..slot {
        if is_shared(body, below) {
            count += 1;
        }
    }
    count
}

/// The number of a variable among the shared ones of the function with this body, or none.
pub(crate) fn outer_number(body: &[Stmt], slot: u32) -> Option<u32>
    ensures { result ≡ outer_of body.now slot }
{
    if is_shared(body, slot) {
        Some(count_below(body, slot))
    } else {
        None
    }
}

/// The number of a variable among the shared ones, or none.
#[tactic(auto, using(crate::proofs::Laid::outer_at))]
pub(crate) fn outer_in(tables: &Tables<'_>, slot: u32) -> Option<u32>
    ensures { result ≡ outer_of tables.now.body.now slot }
{
    match tables.outer.get(slot as usize) {
        Some(number) => *number,
        None => outer_number(tables.body, slot),
    }
}
