//! The test of targets.
ghost use Rattle.std.specs.Prelude.{◌≡◌, ◌↔◌, ◌≤◌, ◌<◌, ◌+◌, ℕ, All, IfSome, IsTrue, slice_get, length};
ghost use Rattle.xmt_isa.specs.declared.image.Image.{Image};
ghost use Rattle.xmt_isa.specs.Operation.{operation_of};
ghost use Rattle.xmt_isa.specs.Image.{start_of, HasStarts, end_of};
ghost use Rattle.xmt_isa.specs.Targets.{LocationFits, TargetFits, HasTargets};
ghost use Rattle.image_loader.specs.Ranges.{RangeFits, RangesFit, code_operation, slots_of};

use xmt_isa::{Image, Instr, Location, Operation};

fn location_fits(image: &Image, location: Location) -> bool
    ensures { IsTrue result ↔ LocationFits image.now location }
{
    match location {
        Location::Word(i) => (i as usize) < image.words.len(),
        Location::Indexed(_, _) => true,
        Location::Outer(i) => i < image.outer,
        Location::Register(i) => i < 8,
    }
}

fn target_fits(image: &Image, i: Instr) -> bool
    ensures { IsTrue result ↔ IfSome (operation_of i) (TargetFits image.now i.imm) }
{
    match i.operation() {
        None => true,
        Some(Operation::Call(f)) => (f as usize) < image.functions.len(),
        Some(Operation::WriteArgument(_, at)) => at < 16,
        Some(Operation::ReadArgument(_, at)) => at < 16,
        Some(Operation::Check(_, n)) => 1 <= n && n <= 1048576,
        Some(Operation::Load(_, location)) => location_fits(image, location),
        Some(Operation::Store(_, location)) => location_fits(image, location),
        Some(Operation::Add(_, location)) => location_fits(image, location),
        Some(Operation::Print(text)) => (text as usize) < image.texts.len(),
        Some(Operation::Spawn(_, _, mask)) => mask % 4 == 0,
        Some(Operation::Unary(_, _, _)) => i.imm == 0,
        Some(Operation::Binary(_, _, _, _)) => i.imm == 0,
        Some(Operation::Return) => i.imm == 0,
        Some(Operation::Join) => i.imm == 0,
        Some(Operation::Set(_, _)) => true,
        Some(Operation::Jump(_)) => true,
        Some(Operation::IfZero(_, _)) => true,
        Some(Operation::IfNot(_, _)) => true,
        Some(Operation::ReadSlot(_, _)) => true,
        Some(Operation::WriteSlot(_, _)) => true,
        Some(Operation::ReadMaster(_, _)) => true,
    }
}

fn has_each_target(image: &Image, code: &[Instr]) -> bool
    ensures { IsTrue result ↔ All (λ i. IfSome (operation_of i) (TargetFits image.now i.imm)) code.now }
{
    for item in code {
        if !target_fits(image, *item) {
            return false;
        }
    }
    true
}

// What is tested of an instruction of a function that reaches from one place to another.
fn range_fits(i: Instr, start: usize, end: usize, slots: u32) -> bool
    ensures { IsTrue result ↔ IfSome (operation_of i) (RangeFits start end slots) }
{
    match i.operation() {
        Some(Operation::Jump(to)) => start <= to as usize && (to as usize) < end,
        Some(Operation::IfZero(_, to)) => start <= to as usize && (to as usize) < end,
        Some(Operation::IfNot(_, to)) => start <= to as usize && (to as usize) < end,
        Some(Operation::ReadSlot(_, at)) => at < slots,
        Some(Operation::WriteSlot(_, at)) => at < slots,
        Some(Operation::ReadMaster(_, at)) => at < slots,
        Some(_) => true,
        None => true,
    }
}

fn has_range(code: &[Instr], start: usize, end: usize, slots: u32) -> bool
    requires { end ≤ length code.now }
    ensures { IsTrue result ↔ ((at : ℕ) → start ≤ at → at < end → IfSome (code_operation code.now at) (RangeFits start end slots)) }
{
    for at in start..end {
        if !range_fits(code[at], start, end, slots) {
            return false;
        }
    }
    true
}

// Where a function ends.
#[tactic(auto, using(std::proofs::lemmas::Option::slice_get_past))]
pub(crate) fn end(image: &Image, f: usize) -> usize
    requires { f < length image.now.functions }
    ensures { result ≡ end_of image.now f }
{
    let count = image.functions.len();
    let next = f + 1;
    if count <= next {
        return image.code.len();
    }
    match image.functions.get(next) {
        Some(entry) => entry.start as usize,
        None => image.code.len(),
    }
}

pub(crate) fn start(image: &Image, f: usize) -> usize
    ensures { result ≡ start_of image.now f }
{
    match image.functions.get(f) {
        Some(entry) => entry.start as usize,
        None => 0,
    }
}

fn slots(image: &Image, f: usize) -> u32
    ensures { result ≡ slots_of image.now f }
{
    match image.functions.get(f) {
        Some(entry) => entry.slots,
        None => 0,
    }
}

/// The functions' starts rise strictly from 0 and lie in the code.
pub fn has_starts(image: &Image) -> bool
    ensures { IsTrue result ↔ HasStarts image.now }
{
    if start(image, 0) != 0 {
        return false;
    }
    for f in 0..image.functions.len() {
        let first = start(image, f);
        if image.code.len() <= first {
            return false;
        }
        if f + 1 < image.functions.len() && start(image, f + 1) <= first {
            return false;
        }
    }
    true
}

fn has_function_targets(image: &Image) -> bool
    requires { HasStarts image.now }
    ensures { IsTrue result ↔ ((f : ℕ) → f < length image.now.functions → RangesFit image.now f) }
{
    for f in 0..image.functions.len() {
        if !has_range(
            image.code.as_slice(),
            start(image, f),
            end(image, f),
            slots(image, f),
        ) {
            return false;
        }
    }
    true
}

/// The number of each instruction is one that its operation may have.
pub fn has_targets(image: &Image) -> bool
    ensures { IsTrue result ↔ HasTargets image.now }
{
    has_each_target(image, image.code.as_slice())
        && (!has_starts(image) || has_function_targets(image))
}
