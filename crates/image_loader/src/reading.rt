//! Reading an image from left to right.
ghost use Rattle.std.specs.Prelude.{◌≡◌, length, IfOk};
ghost use Rattle.xmt_isa.specs.declared.image.Image.{Image};
ghost use Rattle.image_loader.specs.Layout.{Bytes};
ghost use Rattle.image_loader.specs.Header.{view};
ghost use Rattle.image_loader.specs.Reading.{Gives, number_at, instruction_at, function_at, text_at, symbol_at, items_at, mark_at, version_at, numbers_at, body_at, image_at};

use crate::refusal::{LoadKind, LoadRefusal};
use byteorder::{ByteOrder, LittleEndian};
use sqlite_items::Items;
use std::alloc::Global;
use xmt_base::Symbol;
use xmt_isa::{FunctionEntry, Image, Instr};

/// The numbers of a header.
#[derive(Clone, Copy)]
struct Numbers {
    code: u32,
    functions: u32,
    texts: u32,
    symbols: u32,
    words: u32,
    outer: u32,
    ps: [u32; 8],
    entry: u32,
}

fn number_of(bytes: &[u8]) -> Result<(u32, &[u8]), LoadRefusal>
    ensures { Gives (λ x. (x.0, x.1.now)) result (number_at bytes.now) }
{
    if bytes.len() < 4 {
        return Err(LoadRefusal::Refused(LoadKind::Short));
    }
    let (_, rest) = bytes.split_at(4);
    Ok((LittleEndian::read_u32(bytes), rest))
}

fn instruction_of(bytes: &[u8]) -> Result<(Instr, &[u8]), LoadRefusal>
    ensures { Gives (λ x. (x.0, x.1.now)) result (instruction_at bytes.now) }
{
    if bytes.len() < 8 {
        return Err(LoadRefusal::Refused(LoadKind::Short));
    }
    let (_, number) = bytes.split_at(4);
    let (_, rest) = bytes.split_at(8);
    let instruction = Instr {
        op: bytes[0],
        a: bytes[1],
        b: bytes[2],
        c: bytes[3],
        imm: LittleEndian::read_u32(number),
    };
    Ok((instruction, rest))
}

#[tactic(auto, unfolding(crate::specs::Reading::function_at))]
fn function_of(bytes: &[u8]) -> Result<(FunctionEntry, &[u8]), LoadRefusal>
    ensures { Gives (λ x. (x.0, x.1.now)) result (function_at bytes.now) }
{
    let (start, rest) = number_of(bytes)?;
    let (slots, rest) = number_of(rest)?;
    let (inner, rest) = number_of(rest)?;
    Ok((
        FunctionEntry {
            start,
            slots,
            inner,
        },
        rest,
    ))
}

#[tactic(auto, unfolding(crate::specs::Reading::text_at))]
fn text_of(alloc: Global, bytes: &[u8]) -> Result<(Items<u8>, &[u8]), LoadRefusal>
    ensures { Gives (λ x. (x.0, x.1.now)) result (text_at bytes.now) }
{
    let (len, rest) = number_of(bytes)?;
    let len = len as usize;
    if rest.len() < len {
        return Err(LoadRefusal::Refused(LoadKind::Short));
    }
    let (text, rest) = rest.split_at(len);
    Ok((Items::from_slice(alloc, text)?, rest))
}

#[tactic(auto, unfolding(crate::specs::Reading::symbol_at))]
fn symbol_of(alloc: Global, bytes: &[u8]) -> Result<(Symbol, &[u8]), LoadRefusal>
    ensures { Gives (λ x. (x.0, x.1.now)) result (symbol_at bytes.now) }
{
    let (base, rest) = number_of(bytes)?;
    let (length, rest) = number_of(rest)?;
    let (name, rest) = text_of(alloc, rest)?;
    Ok((Symbol { name, base, length }, rest))
}

fn numbers_of(alloc: Global, count: u32, bytes: &[u8]) -> Result<(Vec<u32>, &[u8]), LoadRefusal>
    ensures { Gives (λ x. (x.0.items, x.1.now)) result (items_at number_at count bytes.now) }
{
    let mut items = Vec::new(alloc);
    let mut rest = bytes;
    for _ in 0..count {
        let (item, after) = number_of(rest)?;
        items.push(item)?;
        rest = after;
    }
    Ok((items, rest))
}

fn instructions_of(
    alloc: Global,
    count: u32,
    bytes: &[u8],
) -> Result<(Vec<Instr>, &[u8]), LoadRefusal>
    ensures { Gives (λ x. (x.0.items, x.1.now)) result (items_at instruction_at count bytes.now) }
{
    let mut items = Vec::new(alloc);
    let mut rest = bytes;
    for _ in 0..count {
        let (item, after) = instruction_of(rest)?;
        items.push(item)?;
        rest = after;
    }
    Ok((items, rest))
}

fn functions_of(
    alloc: Global,
    count: u32,
    bytes: &[u8],
) -> Result<(Vec<FunctionEntry>, &[u8]), LoadRefusal>
    ensures { Gives (λ x. (x.0.items, x.1.now)) result (items_at function_at count bytes.now) }
{
    let mut items = Vec::new(alloc);
    let mut rest = bytes;
    for _ in 0..count {
        let (item, after) = function_of(rest)?;
        items.push(item)?;
        rest = after;
    }
    Ok((items, rest))
}

fn texts_of(alloc: Global, count: u32, bytes: &[u8]) -> Result<(Vec<Items<u8>>, &[u8]), LoadRefusal>
    ensures { Gives (λ x. (x.0.items, x.1.now)) result (items_at text_at count bytes.now) }
{
    let mut items = Vec::new(alloc);
    let mut rest = bytes;
    for _ in 0..count {
        let (item, after) = text_of(alloc, rest)?;
        items.push(item)?;
        rest = after;
    }
    Ok((items, rest))
}

fn symbols_of(alloc: Global, count: u32, bytes: &[u8]) -> Result<(Vec<Symbol>, &[u8]), LoadRefusal>
    ensures { Gives (λ x. (x.0.items, x.1.now)) result (items_at symbol_at count bytes.now) }
{
    let mut items = Vec::new(alloc);
    let mut rest = bytes;
    for _ in 0..count {
        let (item, after) = symbol_of(alloc, rest)?;
        items.push(item)?;
        rest = after;
    }
    Ok((items, rest))
}

/// The eight opening values of registers.
fn openings_of(bytes: &[u8]) -> Result<([u32; 8], &[u8]), LoadRefusal>
    ensures { Gives (λ x. (x.0, x.1.now)) result (items_at number_at 8 bytes.now) }
{
    let mut ps = [0; 8];
    let mut rest = bytes;
    for i in 0..8 {
        let (item, after) = number_of(rest)?;
        ps[i] = item;
        rest = after;
    }
    Ok((ps, rest))
}

fn unmarked(bytes: &[u8]) -> Result<&[u8], LoadRefusal>
    ensures { Gives (λ x. x.now) result (mark_at bytes.now) }
{
    if bytes.len() < 4 {
        return Err(LoadRefusal::Refused(LoadKind::Short));
    }
    if bytes[0] == b'X' && bytes[1] == b'M' && bytes[2] == b'T' && bytes[3] == b'I' {
        let (_, rest) = bytes.split_at(4);
        Ok(rest)
    } else {
        Err(LoadRefusal::Refused(LoadKind::BadMark))
    }
}

#[tactic(auto, unfolding(crate::specs::Reading::version_at))]
fn versioned(bytes: &[u8]) -> Result<&[u8], LoadRefusal>
    ensures { Gives (λ x. x.now) result (version_at bytes.now) }
{
    let (version, rest) = number_of(bytes)?;
    if version != 1 {
        return Err(LoadRefusal::Refused(LoadKind::BadVersion));
    }
    Ok(rest)
}

#[tactic(auto, unfolding(crate::specs::Reading::numbers_at))]
fn header_of(bytes: &[u8]) -> Result<(Numbers, &[u8]), LoadRefusal>
    ensures { Gives (λ x. (view x.0, x.1.now)) result (numbers_at bytes.now) }
{
    let (code, rest) = number_of(bytes)?;
    let (functions, rest) = number_of(rest)?;
    let (texts, rest) = number_of(rest)?;
    let (symbols, rest) = number_of(rest)?;
    let (words, rest) = number_of(rest)?;
    let (outer, rest) = number_of(rest)?;
    let (ps, rest) = openings_of(rest)?;
    let (entry, rest) = number_of(rest)?;
    let numbers = Numbers {
        code,
        functions,
        texts,
        symbols,
        words,
        outer,
        ps,
        entry,
    };
    Ok((numbers, rest))
}

#[tactic(auto, unfolding(crate::specs::Reading::body_at))]
fn body_of(alloc: Global, numbers: Numbers, bytes: &[u8]) -> Result<(Image, &[u8]), LoadRefusal>
    ensures { Gives (λ x. (x.0, x.1.now)) result (body_at (view numbers) bytes.now) }
{
    let ps = numbers.ps;
    let (code, rest) = instructions_of(alloc, numbers.code, bytes)?;
    let (lines, rest) = numbers_of(alloc, numbers.code, rest)?;
    let (functions, rest) = functions_of(alloc, numbers.functions, rest)?;
    let (texts, rest) = texts_of(alloc, numbers.texts, rest)?;
    let (symbols, rest) = symbols_of(alloc, numbers.symbols, rest)?;
    let (words, rest) = numbers_of(alloc, numbers.words, rest)?;
    let image = Image {
        code: Items::from_vec(code),
        lines: Items::from_vec(lines),
        functions: Items::from_vec(functions),
        texts: Items::from_vec(texts),
        symbols: Items::from_vec(symbols),
        words: Items::from_vec(words),
        ps,
        outer: numbers.outer,
        entry: numbers.entry,
    };
    Ok((image, rest))
}

#[tactic(auto, unfolding(crate::specs::Reading::image_at))]
fn whole(alloc: Global, bytes: &[u8]) -> Result<Image, LoadRefusal>
    ensures { Gives (λ image. image) result (image_at bytes.now) }
{
    let rest = unmarked(bytes)?;
    let rest = versioned(rest)?;
    let (numbers, rest) = header_of(rest)?;
    let (image, rest) = body_of(alloc, numbers, rest)?;
    if !rest.is_empty() {
        return Err(LoadRefusal::Refused(LoadKind::Extra));
    }
    Ok(image)
}

/// The image that the bytes spell, all of the bytes.
pub fn decode(alloc: Global, bytes: &[u8]) -> Result<Image, LoadRefusal>
    // What is read is spelled so.
    ensures found { IfOk result (λ image. Bytes image bytes.now) }
    // What is spelled so is read, unless memory runs out.
    ensures only { (image : Image) → Bytes image bytes.now → Gives (λ i. i) result (Ok image) }
    // Which fault it is: the first one from the left.
    ensures exact { Gives (λ i. i) result (image_at bytes.now) }
{
    whole(alloc, bytes)
}
