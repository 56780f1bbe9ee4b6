//! Blocks and functions.
ghost use Rattle.std.specs.Prelude.{◌≡◌, ◌↔◌, ◌≤◌, ◌<◌, ℕ, length, IfOk, IfSome, IsTrue, slice_get};
ghost use Rattle.xmt_isa.specs.Operation.{operation_of};
ghost use Rattle.xmt_isa.specs.declared.image.Image.{Image};
ghost use Rattle.xmt_isa.specs.Image.{HasStarts};
ghost use Rattle.xmt_isa.specs.Regions.{HasRegions};
ghost use Rattle.image_loader.specs.Blocks.{open_after, open_at, IsTable, HasOpenRegions, CallsInner, OpenFits, JumpFits, PlaceHolds, InnerHolds, FunctionHolds, RegionParts, inner_of, op_at};

use crate::targets::{end, has_starts, start};
use std::alloc::{AllocError, Global};
use xmt_isa::{Image, Instr, Operation};

const JUMP: u8 = 20;

const IF_ZERO: u8 = 21;

const IF_NOT: u8 = 22;

const RETURN: u8 = 24;

const READ_MASTER: u8 = 29;

const PRINT: u8 = 43;

const SPAWN: u8 = 44;

const JOIN: u8 = 45;

// The spawn that is open behind an instruction.
fn behind(code: &[Instr], at: usize, open: Option<u32>) -> Option<u32>
    requires at_code { at < length code.now }
    requires small { length code.now ≤ 4194304 }
    ensures { result ≡ open_after code.now at «open» }
{
    let op = code[at].op;
    if op == SPAWN {
        Some(at as u32)
    } else if op == JOIN {
        None
    } else {
        open
    }
}

// Before each instruction, and behind the last, the spawn that is open there.
fn opened(alloc: Global, code: &[Instr]) -> Result<Vec<Option<u32>>, AllocError>
    requires { length code.now ≤ 4194304 }
    ensures { IfOk result (λ table. IsTable code.now table.items) }
{
    let mut table = Vec::new(alloc);
    let mut before = None;
    table.push(before)?;
    for at in 0..code.len() {
        before = behind(code, at, before);
        table.push(before)?;
    }
    Ok(table)
}

fn calls_inner(image: &Image, i: Instr) -> bool
    ensures { IsTrue result ↔ CallsInner image.now (operation_of i) }
{
    match i.operation() {
        Some(Operation::Call(f)) => match image.functions.get(f as usize) {
            Some(entry) => entry.inner == 1,
            None => false,
        },
        Some(_) => true,
        None => true,
    }
}

fn open_fits(image: &Image, open: Option<u32>, i: Instr) -> bool
    ensures { IsTrue result ↔ OpenFits image.now «open» i }
{
    match open {
        Some(_) => i.op != RETURN && i.op != SPAWN && i.op != PRINT && calls_inner(image, i),
        None => i.op != JOIN && i.op != READ_MASTER,
    }
}

fn open_within(code: &[Instr], table: &[Option<u32>], at: usize) -> Option<u32>
    requires table { IsTable code.now table.now }
    requires within { at ≤ length code.now }
    ensures { result ≡ open_at code.now at }
{
    match table.get(at) {
        Some(found) => *found,
        None => None,
    }
}

#[tactic(auto, using(crate::proofs::Table::open_past))]
fn open_of(code: &[Instr], table: &[Option<u32>], at: usize) -> Option<u32>
    requires { IsTable code.now table.now }
    ensures { result ≡ open_at code.now at }
{
    if at < code.len() {
        open_within(code, table, at)
    } else {
        open_within(code, table, code.len())
    }
}

fn jump_fits(code: &[Instr], table: &[Option<u32>], at: usize, i: Instr) -> bool
    requires { IsTable code.now table.now }
    ensures { IsTrue result ↔ JumpFits code.now at i }
{
    if i.op == JUMP || i.op == IF_ZERO || i.op == IF_NOT {
        open_of(code, table, at) == open_of(code, table, i.imm as usize)
    } else {
        true
    }
}

fn place_holds(image: &Image, table: &[Option<u32>], at: usize, i: Instr) -> bool
    requires { IsTable image.now.code table.now }
    ensures { IsTrue result ↔ PlaceHolds image.now at i }
{
    let code = image.code.as_slice();
    open_fits(image, open_of(code, table, at), i) && jump_fits(code, table, at, i)
}

fn has_places(image: &Image, table: &[Option<u32>], code: &[Instr]) -> bool
    requires same { code.now ≡ image.now.code }
    requires table { IsTable image.now.code table.now }
    ensures { IsTrue result ↔ ((at : ℕ) → IfSome (slice_get code.now at) (PlaceHolds image.now at)) }
{
    for at in 0..code.len() {
        if !place_holds(image, table, at, code[at]) {
            return false;
        }
    }
    true
}

fn inner_holds(image: &Image, i: Instr) -> bool
    ensures { IsTrue result ↔ InnerHolds image.now i }
{
    i.op != SPAWN && i.op != PRINT && calls_inner(image, i)
}

fn body_holds(image: &Image, code: &[Instr], start: usize, end: usize) -> bool
    requires { end ≤ length code.now }
    ensures { IsTrue result ↔ ((at : ℕ) → start ≤ at → at < end → IfSome (slice_get code.now at) (InnerHolds image.now)) }
{
    for at in start..end {
        if !inner_holds(image, code[at]) {
            return false;
        }
    }
    true
}

fn inner(image: &Image, f: usize) -> u32
    ensures { result ≡ inner_of image.now f }
{
    match image.functions.get(f) {
        Some(entry) => entry.inner,
        None => 0,
    }
}

fn op(code: &[Instr], at: usize) -> u8
    ensures { result ≡ op_at code.now at }
{
    match code.get(at) {
        Some(i) => i.op,
        None => 0,
    }
}

fn function_holds(image: &Image, table: &[Option<u32>], code: &[Instr], f: usize) -> bool
    requires same { code.now ≡ image.now.code }
    requires table { IsTable code.now table.now }
    requires starts { HasStarts image.now }
    requires within { f < length image.now.functions }
    ensures { IsTrue result ↔ FunctionHolds image.now f }
{
    let kind = inner(image, f);
    let first = start(image, f);
    let behind = end(image, f);
    let last = op(code, behind.saturating_sub(1));
    kind <= 1
        && (last == JUMP || last == RETURN)
        && open_of(code, table, first).is_none()
        && (kind != 1 || body_holds(image, code, first, behind))
}

fn has_functions(image: &Image, table: &[Option<u32>], code: &[Instr]) -> bool
    requires same { code.now ≡ image.now.code }
    requires table { IsTable code.now table.now }
    requires starts { HasStarts image.now }
    ensures { IsTrue result ↔ ((f : ℕ) → f < length image.now.functions → FunctionHolds image.now f) }
{
    for f in 0..image.functions.len() {
        if !function_holds(image, table, code, f) {
            return false;
        }
    }
    true
}

fn has_parts(image: &Image, table: &[Option<u32>], code: &[Instr]) -> bool
    requires same { code.now ≡ image.now.code }
    requires table { IsTable code.now table.now }
    requires starts { HasStarts image.now }
    ensures { IsTrue result ↔ RegionParts image.now }
{
    has_places(image, table, code)
        && has_functions(image, table, code)
        && open_of(code, table, code.len()).is_none()
}

/// Functions, blocks and jumps nest.
pub fn has_regions(alloc: Global, image: &Image) -> Result<bool, AllocError>
    requires { length image.now.code ≤ 4194304 }
    ensures { IfOk result (λ answer. IsTrue answer ↔ HasRegions image.now) }
{
    if !has_starts(image) {
        return Ok(false);
    }
    let code = image.code.as_slice();
    let table = opened(alloc, code)?;
    Ok(has_parts(image, table.as_slice(), code))
}
