//! Small images whose third instruction is a spawn, and what it broadcasts.
ghost use Rattle.std.specs.Prelude.{◌≡◌, ◌+◌, ◌*◌, ◌≤◌, ◌^◌, length, vec_len, slice_index, IfOk};
ghost use Rattle.xmt_isa.specs.Fits.{StartFits};

use image_loader::{Loaded, admit};
use sqlite_items::Items;
use std::alloc::{AllocError, Global};
use std::test::Fail;
use xmt_base::Symbol;
use xmt_isa::{FunctionEntry, Image, Instr, Start};

/// Operation, registers and number. Instruction k stands in line k + 1.
pub type Row = (u8, u8, u8, u8, u32);

// The number of the operation of a spawn.
const SPAWN: u8 = 44;

fn code_of(alloc: Global, rows: &[Row]) -> Result<Items<Instr>, AllocError> {
    let mut code = Items::new(alloc);
    for row in rows {
        code.push(Instr {
            op: row.0,
            a: row.1,
            b: row.2,
            c: row.3,
            imm: row.4,
        })?;
    }
    Ok(code)
}

fn lines_of(alloc: Global, rows: &[Row]) -> Result<Items<u32>, AllocError> {
    let mut lines = Items::new(alloc);
    let mut line = 0u32;
    for _ in rows {
        line = line.saturating_add(1);
        lines.push(line)?;
    }
    Ok(lines)
}

// One array has all data words.
fn symbols_of(alloc: Global) -> Result<Items<Symbol>, AllocError> {
    let mut symbols = Items::new(alloc);
    symbols.push(Symbol {
        name: Items::from_slice(alloc, b"A")?,
        base: 0,
        length: 5,
    })?;
    Ok(symbols)
}

// An image of one function and five data words.
fn image_of(alloc: Global, rows: &[Row]) -> Result<Image, AllocError> {
    let function = FunctionEntry {
        start: 0,
        slots: 0,
        inner: 0,
    };
    Ok(Image {
        code: code_of(alloc, rows)?,
        lines: lines_of(alloc, rows)?,
        functions: Items::from_slice(alloc, &[function])?,
        texts: Items::new(alloc),
        symbols: symbols_of(alloc)?,
        words: Items::from_slice(alloc, &[0; 5])?,
        ps: [0; 8],
        outer: 0,
        entry: 0,
    })
}

/// The image of this code.
pub fn loaded(alloc: Global, rows: &[Row]) -> Result<Loaded, Fail> {
    let image = image_of(alloc, rows)?;
    match admit(alloc, image) {
        Ok(image) => Ok(image),
        Err(_) => Err("the image is refused")?,
    }
}

/// What the spawn in place 2 broadcasts: so many threads from number 0 on, and registers and slots that are all 0.
pub fn start_behind_spawn(alloc: Global, image: &Loaded, count: u64) -> Result<Start, Fail>
    requires { count ≤ 2 ^ 32 }
    ensures { IfOk result (λ start. StartFits image.now start) }
{
    let code = image.image().code.as_slice();
    if code.len() < 3 || code[2].op != SPAWN {
        return Err("no spawn")?;
    }
    Ok(Start {
        at: 3,
        low: 0,
        count,
        depth: 0,
        regs: [0; 32],
        frame: Items::from_vec(vec![in alloc; 0; 512]?),
    })
}

/// The words of an image of five data words, all 0.
pub fn zero_words(alloc: Global, image: &Loaded) -> Result<Vec<u64>, Fail>
    ensures long { IfOk result (λ words. vec_len words ≡ 12 + length image.now.words + 257 * image.now.outer) }
    ensures none_drawn { IfOk result (λ words. slice_index words.items 0 ≡ 0) }
{
    let image = image.image();
    if image.words.len() != 5 || image.outer != 0 {
        return Err("other words")?;
    }
    Ok(vec![in alloc; 0; 17]?)
}
