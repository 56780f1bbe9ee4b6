//! Writing an image.
ghost use Rattle.std.specs.Prelude.{◌≡◌, ◌++◌, All, OnOk, IfOk};
ghost use Rattle.std.specs.List.{flat_map};
ghost use Rattle.xmt_isa.specs.Valid.{HasSizes, IsValid};
ghost use Rattle.image_loader.specs.Layout.{number, instruction, function, text, symbol, mark, counts, openings, header, body, Bytes, InstructionFits, FunctionFits, TextFits, SymbolFits, OpeningsFit, PartsFit, IsWord};

use byteorder::{ByteOrder, LittleEndian};
use sqlite_items::Items;
use std::alloc::{AllocError, Global};
use xmt_base::Symbol;
use xmt_isa::{FunctionEntry, Image, Instr};

fn put_number(out: &mut Vec<u8>, n: u32) -> Result<(), AllocError>
    ensures { OnOk result (out.new.items ≡ out.old.items ++ number n) }
{
    let mut bytes = [0; 4];
    LittleEndian::write_u32(&mut bytes, n);
    out.extend_from_slice(&bytes)
}

fn put_numbers(out: &mut Vec<u8>, items: &[u32]) -> Result<(), AllocError>
    ensures written { OnOk result (out.new.items ≡ out.old.items ++ flat_map number items.now) }
    ensures fits { OnOk result (All IsWord items.now) }
{
    for item in items {
        put_number(out, *item)?;
    }
    Ok(())
}

fn put_instruction(out: &mut Vec<u8>, i: Instr) -> Result<(), AllocError>
    ensures written { OnOk result (out.new.items ≡ out.old.items ++ instruction i) }
    ensures fits { OnOk result (InstructionFits i) }
{
    out.extend_from_slice(&[i.op, i.a, i.b, i.c])?;
    put_number(out, i.imm)
}

fn put_instructions(out: &mut Vec<u8>, items: &[Instr]) -> Result<(), AllocError>
    ensures written { OnOk result (out.new.items ≡ out.old.items ++ flat_map instruction items.now) }
    ensures fits { OnOk result (All InstructionFits items.now) }
{
    for item in items {
        put_instruction(out, *item)?;
    }
    Ok(())
}

fn put_function(out: &mut Vec<u8>, f: FunctionEntry) -> Result<(), AllocError>
    ensures written { OnOk result (out.new.items ≡ out.old.items ++ function f) }
    ensures fits { OnOk result (FunctionFits f) }
{
    put_number(out, f.start)?;
    put_number(out, f.slots)?;
    put_number(out, f.inner)
}

fn put_functions(out: &mut Vec<u8>, items: &[FunctionEntry]) -> Result<(), AllocError>
    ensures written { OnOk result (out.new.items ≡ out.old.items ++ flat_map function items.now) }
    ensures fits { OnOk result (All FunctionFits items.now) }
{
    for item in items {
        put_function(out, *item)?;
    }
    Ok(())
}

fn put_text(out: &mut Vec<u8>, bytes: &[u8]) -> Result<(), AllocError>
    requires { TextFits bytes.now }
    ensures { OnOk result (out.new.items ≡ out.old.items ++ text bytes.now) }
{
    put_number(out, bytes.len() as u32)?;
    out.extend_from_slice(bytes)
}

fn put_texts(out: &mut Vec<u8>, items: &[Items<u8>]) -> Result<(), AllocError>
    requires { All TextFits items.now }
    ensures { OnOk result (out.new.items ≡ out.old.items ++ flat_map text items.now) }
{
    for item in items {
        put_text(out, item.as_slice())?;
    }
    Ok(())
}

fn put_symbol(out: &mut Vec<u8>, s: &Symbol) -> Result<(), AllocError>
    requires { TextFits s.now.name }
    ensures written { OnOk result (out.new.items ≡ out.old.items ++ symbol s.now) }
    ensures fits { OnOk result (SymbolFits s.now) }
{
    put_number(out, s.base)?;
    put_number(out, s.length)?;
    put_text(out, s.name.as_slice())
}

fn put_symbols(out: &mut Vec<u8>, items: &[Symbol]) -> Result<(), AllocError>
    requires { All (λ s. TextFits s.name) items.now }
    ensures written { OnOk result (out.new.items ≡ out.old.items ++ flat_map symbol items.now) }
    ensures fits { OnOk result (All SymbolFits items.now) }
{
    for item in items {
        put_symbol(out, item)?;
    }
    Ok(())
}

fn put_mark(out: &mut Vec<u8>) -> Result<(), AllocError>
    ensures { OnOk result (out.new.items ≡ out.old.items ++ (mark ++ number 1)) }
{
    out.extend_from_slice(&[b'X', b'M', b'T', b'I'])?;
    put_number(out, 1)
}

fn put_counts(out: &mut Vec<u8>, image: &Image) -> Result<(), AllocError>
    requires { HasSizes image.now }
    ensures { OnOk result (out.new.items ≡ out.old.items ++ counts image.now) }
{
    let code = image.code.len() as u32;
    let functions = image.functions.len() as u32;
    let texts = image.texts.len() as u32;
    let symbols = image.symbols.len() as u32;
    let words = image.words.len() as u32;
    put_numbers(out, &[code, functions, texts, symbols, words])
}

fn put_openings(out: &mut Vec<u8>, image: &Image) -> Result<(), AllocError>
    ensures written { OnOk result (out.new.items ≡ out.old.items ++ openings image.now) }
    ensures fits { OnOk result (OpeningsFit image.now) }
{
    put_number(out, image.outer)?;
    put_numbers(out, &image.ps)?;
    put_number(out, image.entry)
}

fn put_header(out: &mut Vec<u8>, image: &Image) -> Result<(), AllocError>
    requires { HasSizes image.now }
    ensures written { OnOk result (out.new.items ≡ out.old.items ++ header image.now) }
    ensures fits { OnOk result (OpeningsFit image.now) }
{
    put_mark(out)?;
    put_counts(out, image)?;
    put_openings(out, image)?;
    Ok(())
}

fn put_body(out: &mut Vec<u8>, image: &Image) -> Result<(), AllocError>
    requires { IsValid image.now }
    ensures written { OnOk result (out.new.items ≡ out.old.items ++ body image.now) }
    ensures fits { OnOk result (PartsFit image.now) }
{
    put_instructions(out, image.code.as_slice())?;
    put_numbers(out, image.lines.as_slice())?;
    put_functions(out, image.functions.as_slice())?;
    put_texts(out, image.texts.as_slice())?;
    put_symbols(out, image.symbols.as_slice())?;
    put_numbers(out, image.words.as_slice())
}

/// The one spelling of a valid image.
pub fn encode(alloc: Global, image: &Image) -> Result<Vec<u8>, AllocError>
    requires { IsValid image.now }
    ensures { IfOk result (λ bytes. Bytes image.now bytes.items) }
{
    let mut out = Vec::new(alloc);
    put_header(&mut out, image)?;
    put_body(&mut out, image)?;
    Ok(out)
}
