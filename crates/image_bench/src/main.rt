//! Encodes and loads an image: `image_bench INSTRUCTIONS BYTES`, with one text of so many bytes.
//!
//! It prints how long the encoded image is. With a third word `time` it prints in place of that
//! the nanoseconds that admitting, encoding and loading it took.
#![tactic(auto)]

use image_loader::{LoadRefusal, Loaded, admit, encode, load};
use sqlite_items::Items;
use std::alloc::{AllocError, Global};
use std::time::{Clock, Instant};
use std::{env, io};
use xmt_isa::{FunctionEntry, Image, Instr};

const RETURN: Instr = Instr {
    op: 24,
    a: 0,
    b: 0,
    c: 0,
    imm: 0,
};

const FUNCTION: FunctionEntry = FunctionEntry {
    start: 0,
    slots: 0,
    inner: 0,
};

fn text_of(alloc: Global, bytes: usize) -> Result<Items<u8>, AllocError> {
    Ok(Items::from_vec(vec![in alloc; b'x'; bytes]?))
}

fn code_of(alloc: Global, instructions: usize) -> Result<Items<Instr>, AllocError> {
    Ok(Items::from_vec(vec![in alloc; RETURN; instructions]?))
}

fn lines_of(alloc: Global, instructions: usize) -> Result<Items<u32>, AllocError> {
    Ok(Items::from_vec(vec![in alloc; 1; instructions]?))
}

// One function of so many returns, without a text.
fn returns(alloc: Global, instructions: usize) -> Result<Image, AllocError> {
    Ok(Image {
        code: code_of(alloc, instructions)?,
        lines: lines_of(alloc, instructions)?,
        functions: Items::from_slice(alloc, &[FUNCTION])?,
        texts: Items::new(alloc),
        symbols: Items::new(alloc),
        words: Items::new(alloc),
        ps: [0; 8],
        outer: 0,
        entry: 0,
    })
}

// One function of so many returns, and a text of so many bytes.
fn image_of(alloc: Global, instructions: usize, bytes: usize) -> Result<Image, AllocError> {
    let mut image = returns(alloc, instructions)?;
    image.texts.push(text_of(alloc, bytes)?)?;
    Ok(image)
}

// The image, or an error that says why there is none.
fn taken(outcome: Result<Loaded, LoadRefusal>) -> io::Result<Loaded> {
    match outcome {
        Ok(loaded) => Ok(loaded),
        Err(LoadRefusal::NoMemory) => Err(io::ErrorKind::OutOfMemory.into()),
        Err(LoadRefusal::Refused(_)) => Err(io::ErrorKind::InvalidInput.into()),
    }
}

// Each step gives the nanoseconds that it took beside its result.

fn admitted<R: Clock>(rt: &R, alloc: Global, image: Image) -> io::Result<(Loaded, u128)> {
    let start = Instant::now(rt)?;
    let loaded = taken(admit(alloc, image))?;
    Ok((loaded, start.elapsed(rt)?.as_nanos()))
}

fn encoded<R: Clock>(rt: &R, alloc: Global, loaded: &Loaded) -> io::Result<(Vec<u8>, u128)> {
    let start = Instant::now(rt)?;
    let bytes = encode(alloc, loaded.image())?;
    Ok((bytes, start.elapsed(rt)?.as_nanos()))
}

// The count of instructions that were loaded.
fn counted<R: Clock>(rt: &R, alloc: Global, bytes: &[u8]) -> io::Result<(usize, u128)> {
    let start = Instant::now(rt)?;
    let loaded = taken(load(alloc, bytes))?;
    let time = start.elapsed(rt)?.as_nanos();
    Ok((loaded.image().code.len(), time))
}

fn main(rt: HostRuntime) -> io::Result<()> {
    let alloc = rt.alloc();
    let given: Vec<String> = env::args(&rt)?.collect(alloc)?;
    let (Some(instructions), Some(bytes)) = (given.get(1), given.get(2)) else {
        return eprintln!(rt; "usage: image_bench INSTRUCTIONS BYTES [time]");
    };
    let (Ok(instructions), Ok(bytes)) = (instructions.parse::<usize>(), bytes.parse::<usize>())
    else {
        return eprintln!(rt; "usage: image_bench INSTRUCTIONS BYTES [time]");
    };
    let image = image_of(alloc, instructions, bytes)?;
    let (loaded, admitting) = admitted(&rt, alloc, image)?;
    let (spelling, encoding) = encoded(&rt, alloc, &loaded)?;
    let (count, loading) = counted(&rt, alloc, spelling.as_slice())?;
    if given.len() > 3 {
        return println!(rt; "{admitting} {encoding} {loading}");
    }
    let length = spelling.len();
    println!(rt; "{length} bytes for {count} instructions")
}
