//! The image of a quad program.
ghost use Rattle.std.specs.Prelude.{◌≡◌, ◌≤◌, if◌then◌else◌, length, sum_by, All, IfOk};
ghost use Rattle.xmt_isa.specs.Valid.{IsValid};
ghost use Rattle.xmt_quads.specs.Allocation.{IsAllocationOf, HasOwnSlots};
ghost use Rattle.xmt_quads.specs.WellFormed.{IsWellFormed};
ghost use Rattle.quad_images.specs.Image.{size_of, IsImageOf};
ghost use Rattle.emit.specs.Emitted.{IsEmittable, IsBuilt};

use crate::code::{Code, no_code};
use crate::functions::push_function;
use sqlite_items::Items;
use std::alloc::{AllocError, Global};
use xmt_base::Symbol;
use xmt_isa::{FunctionEntry, Image};
use xmt_quads::{Allocation, Home, QuadFunction, QuadProgram};

/// The code of functions, and where each begins.
#[derive(Drop)]
pub(crate) struct Built {
    pub code: Code,
    pub entries: Items<FunctionEntry>,
}

// The entry of a function that begins there.
fn entry(f: &QuadFunction, start: u32) -> FunctionEntry
    ensures { result ≡ record { start = start; slots = 512; inner = if f.now.inner then 1 else 0 } }
{
    FunctionEntry {
        start,
        slots: 512,
        inner: if f.inner { 1 } else { 0 },
    }
}

// The functions, one behind the other.
fn build(
    alloc: Global,
    functions: &[QuadFunction],
    homes: &[Items<Home>],
) -> Result<Built, AllocError>
    requires each { All IsEmittable functions.now }
    requires one_each { length homes.now ≡ length functions.now }
    requires light { sum_by (λ f. size_of f.quads) functions.now ≤ 4194304 }
    ensures { IfOk result (IsBuilt homes.now functions.now) }
{
    let mut code = no_code(alloc);
    let mut entries = Items::new(alloc);
    for i in 0..functions.len() {
        let f = &functions[i];
        let start = code.code.len() as u32;
        entries.push(entry(f, start))?;
        push_function(alloc, &mut code, homes[i].as_slice(), f, start)?;
    }
    Ok(Built { code, entries })
}

fn copy_texts(alloc: Global, texts: &[Items<u8>]) -> Result<Items<Items<u8>>, AllocError>
    ensures { IfOk result (λ copy. copy ≡ texts.now) }
{
    let mut copy = Items::new(alloc);
    for text in texts {
        copy.push(Items::from_slice(alloc, text.as_slice())?)?;
    }
    Ok(copy)
}

fn copy_symbol(alloc: Global, symbol: &Symbol) -> Result<Symbol, AllocError>
    ensures { IfOk result (λ copy. copy ≡ symbol.now) }
{
    Ok(Symbol {
        name: Items::from_slice(alloc, symbol.name.as_slice())?,
        base: symbol.base,
        length: symbol.length,
    })
}

fn copy_symbols(alloc: Global, symbols: &[Symbol]) -> Result<Items<Symbol>, AllocError>
    ensures { IfOk result (λ copy. copy ≡ symbols.now) }
{
    let mut copy = Items::new(alloc);
    for symbol in symbols {
        copy.push(copy_symbol(alloc, symbol)?)?;
    }
    Ok(copy)
}

/// The image of a well-formed program each of whose virtual registers lives in a slot of its own.
/// It is valid, and each of its spawns has a mask of 0, since no register is broadcast.
pub fn emit(
    alloc: Global,
    program: &QuadProgram,
    allocation: &Allocation,
    _masks: &[u32],
) -> Result<Image, AllocError>
    requires well { IsWellFormed program.now }
    requires homes { IsAllocationOf program.now allocation.now.homes }
    requires slots { All HasOwnSlots allocation.now.homes }
    requires masks { All (λ mask. mask ≡ 0) _masks.now }
    ensures image { IfOk result (IsImageOf program.now allocation.now.homes) }
    ensures valid { IfOk result IsValid }
{
    let Built { code, entries } = build(
        alloc,
        program.functions.as_slice(),
        allocation.homes.as_slice(),
    )?;
    let Code { code, lines } = code;
    Ok(Image {
        code,
        lines,
        functions: entries,
        texts: copy_texts(alloc, program.texts.as_slice())?,
        symbols: copy_symbols(alloc, program.symbols.as_slice())?,
        words: Items::from_slice(alloc, program.words.as_slice())?,
        ps: program.ps,
        outer: program.outer,
        entry: program.main,
    })
}
