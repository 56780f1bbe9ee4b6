//! One instruction of one unit.
ghost use Rattle.std.specs.Prelude.{◌≡◌, ◌+◌, ◌^◌, ◌<◌, ◌==◌, if◌then◌else◌, true, false, nat_lt, unwrap_or, length, slice_index, slice_set, OnSome};
ghost use Rattle.xmt_isa.specs.declared.unit.Request.TheVariants as request;
ghost use Rattle.xmt_isa.specs.declared.unit.Next.TheVariants.{Local, Trap};
ghost use Rattle.xmt_base.specs.Operators.{binary_value};
ghost use Rattle.xmt_isa.specs.Image.{operation_at, start_of};
ghost use Rattle.xmt_isa.specs.Step.{reg, goes, goes_on, sets, word_of, access, adds, divides, next_at, next_of, is_due, calls, returns, slot, local_at, local_of, more};
ghost use Rattle.unit_steps.specs.Steps.{begun};
ghost use Rattle.tcu_engine.specs.Looks.{is_local};
ghost use Rattle.tcu_engine.specs.Sizes.{IsSmall};

use crate::cells::{look, put, put_item};
use xmt_base::{BinOp, TrapKind, binary, unary};
use xmt_isa::{Image, Location, Next, Operation, Request, SpawnAsk, Start, Unit, UnitState};

/// The instruction at a place.
pub(crate) fn operation_at(image: &Image, at: u32) -> Option<Operation>
    ensures value { result ≡ operation_at image.now at }
    ensures inside { OnSome result (at < length image.now.code) }
{
    match image.code.get(at as usize) {
        None => None,
        Some(instr) => {
            let instr = *instr;
            instr.operation()
        }
    }
}

// What a register holds.
fn reg(unit: &Unit, x: u8) -> u32
    ensures { result ≡ reg unit.now x }
{
    look(&unit.regs, x as usize)
}

/// One more step, at another instruction.
pub(crate) fn goes(unit: &mut Unit, at: u32)
    ensures { unit.new ≡ goes unit.old at }
{
    unit.at = at;
    unit.counts.steps = unit.counts.steps.saturating_add(1);
}

/// One more step, at the next instruction.
pub(crate) fn goes_on(unit: &mut Unit)
    requires { unit.old.at + 1 < 2 ^ 32 }
    ensures { unit.new ≡ goes_on unit.old }
{
    let next = unit.at + 1;
    goes(unit, next);
}

/// One more step, with a value in a register.
pub(crate) fn sets(unit: &mut Unit, a: u8, value: u32)
    requires { unit.old.at + 1 < 2 ^ 32 }
    ensures { unit.new ≡ sets unit.old a value }
{
    put(&mut unit.regs, a as usize, value);
    goes_on(unit);
}

/// Due to draw, or of the master to begin.
pub(crate) fn is_due(state: UnitState) -> bool
    ensures { result ≡ is_due state }
{
    match state {
        UnitState::Draws => true,
        UnitState::Runs | UnitState::Stopped | UnitState::Halted => false,
    }
}

// The word that a location names.
fn word_of(image: &Image, start: &Start, unit: &Unit, location: Location) -> Option<u64>
    requires { IsSmall image.now }
    ensures { result ≡ word_of image.now start.now unit.now location }
{
    let data = image.words.len() as u64;
    match location {
        Location::Word(i) => Some(12 + i as u64),
        Location::Indexed(b, i) => {
            let at = i as u64 + reg(unit, b) as u64;
            if at < data { Some(12 + at) } else { None }
        }
        Location::Outer(i) => {
            let depth = if unit.number == 0 {
                unit.depth
            } else {
                start.depth
            };
            Some(12 + data + image.outer as u64 * depth as u64 + i as u64)
        }
        Location::Register(i) => Some(4 + i as u64),
    }
}

// A read of a word, or a trap where there is none.
fn load(word: Option<u64>) -> Next
    ensures { result ≡ access word (λ at. request.Load at) }
{
    match word {
        None => Next::Trap(TrapKind::Address),
        Some(at) => Next::Ask(Request::Load(at)),
    }
}

// A write of a word, or a trap where there is none.
fn store(word: Option<u64>, value: u32) -> Next
    ensures { result ≡ access word (λ at. request.Store at value) }
{
    match word {
        None => Next::Trap(TrapKind::Address),
        Some(at) => Next::Ask(Request::Store(at, value)),
    }
}

// An addition to a word, or a trap; a prefix-sum register takes 0 or 1.
fn add(word: Option<u64>, location: Location, value: u32) -> Next
    ensures { result ≡ adds word location value }
{
    if let Location::Register(_) = location
        && value > 1
    {
        return Next::Trap(TrapKind::PsIncrement);
    }
    match word {
        None => Next::Trap(TrapKind::Address),
        Some(at) => Next::Ask(Request::Add(at, value)),
    }
}

// A binary operation traps where it has no value.
fn divides(value: Option<u32>) -> Next
    ensures { result ≡ divides value }
{
    match value {
        None => Next::Trap(TrapKind::DivideByZero),
        Some(_) => Next::Local,
    }
}

// An instruction that touches the unit alone, or this trap.
fn local_if(holds: bool, kind: TrapKind) -> Next
    ensures { result ≡ (if holds then Local else Trap kind) }
{
    if holds { Next::Local } else { Next::Trap(kind) }
}

// What a unit does at an operation.
fn next_at(image: &Image, start: &Start, unit: &Unit, operation: Operation) -> Next
    requires small { IsSmall image.now }
    requires room { unit.now.at + 1 < 2 ^ 32 }
    ensures { result ≡ next_at image.now start.now unit.now operation }
{
    match operation {
        Operation::Binary(op, _, b, c) => divides(binary(op, reg(unit, b), reg(unit, c))),
        Operation::Call(_) => local_if(unit.depth < 256, TrapKind::CallDepth),
        Operation::Check(b, length) => local_if(reg(unit, b) < length, TrapKind::Index),
        Operation::Load(_, location) => load(word_of(image, start, unit, location)),
        Operation::Store(a, location) => store(word_of(image, start, unit, location), reg(unit, a)),
        Operation::Add(a, location) => add(
            word_of(image, start, unit, location),
            location,
            reg(unit, a),
        ),
        Operation::Print(text) => Next::Ask(Request::Print(text)),
        Operation::Spawn(a, b, mask) => Next::Ask(Request::Spawn(SpawnAsk {
            at: unit.at + 1,
            low: reg(unit, a),
            high: reg(unit, b),
            mask,
        })),
        Operation::Join => Next::Ask(Request::Draw),
        Operation::Set(_, _)
        | Operation::Unary(_, _, _)
        | Operation::Jump(_)
        | Operation::IfZero(_, _)
        | Operation::IfNot(_, _)
        | Operation::Return
        | Operation::ReadSlot(_, _)
        | Operation::WriteSlot(_, _)
        | Operation::WriteArgument(_, _)
        | Operation::ReadArgument(_, _)
        | Operation::ReadMaster(_, _) => Next::Local,
    }
}

/// What a unit does next.
pub(crate) fn next(image: &Image, start: &Start, unit: &Unit) -> Next
    requires { IsSmall image.now }
    ensures { result ≡ next_of image.now start.now unit.now }
{
    if is_due(unit.state) {
        return Next::Ask(Request::Draw);
    }
    match operation_at(image, unit.at) {
        None => Next::Trap(TrapKind::Address),
        Some(operation) => next_at(image, start, unit, operation),
    }
}

// The first instruction of a function.
fn start_of(image: &Image, function: u32) -> u32
    ensures { result ≡ start_of image.now function }
{
    match image.functions.get(function as usize) {
        None => 0,
        Some(entry) => entry.start,
    }
}

/// The master that is due to begin begins.
pub(crate) fn begin(image: &Image, unit: &mut Unit)
    ensures { unit.new ≡ begun image.now unit.old }
{
    if unit.number == 0 && is_due(unit.state) {
        unit.state = UnitState::Runs;
        unit.at = start_of(image, image.entry);
        unit.depth = 0;
    }
}

// In a function, one frame deeper.
fn calls(image: &Image, unit: &mut Unit, function: u32)
    requires room { unit.old.at + 1 < 2 ^ 32 }
    requires shallow { unit.old.depth < 256 }
    ensures { unit.new ≡ calls image.now unit.old function }
{
    let back = unit.at + 1;
    let depth = unit.depth;
    put_item(&mut unit.back, depth as usize, back);
    unit.depth = depth + 1;
    goes(unit, start_of(image, function));
}

// Back from a call.
fn returns(unit: &mut Unit)
    ensures { unit.new ≡ returns unit.old }
{
    if unit.depth == 0 {
        unit.state = UnitState::Halted;
        let at = unit.at;
        goes(unit, at);
    } else {
        let depth = unit.depth - 1;
        unit.depth = depth;
        let at = look(unit.back.as_slice(), depth as usize);
        goes(unit, at);
    }
}

// The place of a slot of the present frame among all frames.
fn slot(unit: &Unit, i: u32) -> usize
    ensures { result ≡ slot unit.now i }
{
    512 * unit.depth as usize + i as usize
}

// To another instruction where the register is 0, else to the next one.
fn goes_if_zero(unit: &mut Unit, b: u8, to: u32)
    requires { unit.old.at + 1 < 2 ^ 32 }
    ensures { unit.new ≡ goes unit.old (if reg unit.old b == 0 then to else unit.old.at + 1) }
{
    if reg(unit, b) == 0 {
        goes(unit, to);
    } else {
        goes_on(unit);
    }
}

// To another instruction where the register isn't 0, else to the next one.
fn goes_if_not(unit: &mut Unit, b: u8, to: u32)
    requires { unit.old.at + 1 < 2 ^ 32 }
    ensures { unit.new ≡ goes unit.old (if reg unit.old b == 0 then unit.old.at + 1 else to) }
{
    if reg(unit, b) == 0 {
        goes_on(unit);
    } else {
        goes(unit, to);
    }
}

// Sets a register to a slot of the present frame.
fn read_slot(unit: &mut Unit, a: u8, i: u32)
    requires { unit.old.at + 1 < 2 ^ 32 }
    ensures { unit.new ≡ sets unit.old a (slice_index unit.old.frames (slot unit.old i)) }
{
    let value = look(unit.frames.as_slice(), slot(unit, i));
    sets(unit, a, value);
}

// Sets a register to a place of the argument list.
fn read_argument(unit: &mut Unit, a: u8, i: u32)
    requires { unit.old.at + 1 < 2 ^ 32 }
    ensures { unit.new ≡ sets unit.old a (slice_index unit.old.list i) }
{
    let value = look(&unit.list, i as usize);
    sets(unit, a, value);
}

// Sets a slot of the present frame to a register.
fn write_slot(unit: &mut Unit, b: u8, i: u32)
    requires { unit.old.at + 1 < 2 ^ 32 }
    ensures { unit.new ≡ record (goes_on unit.old) { frames = slice_set unit.old.frames (slot unit.old i) (reg unit.old b) } }
{
    let value = reg(unit, b);
    let place = slot(unit, i);
    put_item(&mut unit.frames, place, value);
    goes_on(unit);
}

// Sets a place of the argument list to a register.
fn write_argument(unit: &mut Unit, b: u8, i: u32)
    requires { unit.old.at + 1 < 2 ^ 32 }
    ensures { unit.new ≡ record (goes_on unit.old) { list = slice_set unit.old.list i (reg unit.old b) } }
{
    let value = reg(unit, b);
    put(&mut unit.list, i as usize, value);
    goes_on(unit);
}

// Sets a register to a binary operation's value if it has one, and says whether it has.
fn run_binary(unit: &mut Unit, op: BinOp, a: u8, b: u8, c: u8) -> bool
    requires { unit.old.at + 1 < 2 ^ 32 }
    ensures local { result ≡ is_local (divides (binary_value op (reg unit.old b) (reg unit.old c))) }
    ensures unit { unit.new ≡ (if result then sets unit.old a (unwrap_or (binary_value op (reg unit.old b) (reg unit.old c)) 0) else unit.old) }
    ensures steps { result ≡ true → unit.new.counts.steps ≡ more unit.old.counts.steps }
{
    match binary(op, reg(unit, b), reg(unit, c)) {
        None => false,
        Some(value) => {
            sets(unit, a, value);
            true
        }
    }
}

// Enters a function if the unit isn't too deep, and says whether it did.
fn run_call(image: &Image, unit: &mut Unit, function: u32) -> bool
    requires { unit.old.at + 1 < 2 ^ 32 }
    ensures local { result ≡ nat_lt unit.old.depth 256 }
    ensures unit { unit.new ≡ (if result then calls image.now unit.old function else unit.old) }
    ensures steps { result ≡ true → unit.new.counts.steps ≡ more unit.old.counts.steps }
{
    let holds = unit.depth < 256;
    if holds {
        calls(image, unit, function);
    }
    holds
}

// Goes on if the register is below this length, and says whether it is.
fn run_check(unit: &mut Unit, b: u8, length: u32) -> bool
    requires { unit.old.at + 1 < 2 ^ 32 }
    ensures local { result ≡ nat_lt (reg unit.old b) length }
    ensures unit { unit.new ≡ (if result then goes_on unit.old else unit.old) }
    ensures steps { result ≡ true → unit.new.counts.steps ≡ more unit.old.counts.steps }
{
    let holds = reg(unit, b) < length;
    if holds {
        goes_on(unit);
    }
    holds
}

// Runs the instruction at an operation if it touches the unit alone, and says whether it does.
fn run_at(image: &Image, start: &Start, unit: &mut Unit, operation: Operation) -> bool
    requires small { IsSmall image.now }
    requires room { unit.old.at + 1 < 2 ^ 32 }
    ensures local { result ≡ is_local (next_at image.now start.now unit.old operation) }
    ensures unit { unit.new ≡ (if result then local_at image.now start.now unit.old operation else unit.old) }
    ensures steps { result ≡ true → unit.new.counts.steps ≡ more unit.old.counts.steps }
{
    match operation {
        Operation::Set(a, value) => sets(unit, a, value),
        Operation::Unary(op, a, b) => {
            let value = unary(op, reg(unit, b));
            sets(unit, a, value);
        }
        Operation::Binary(op, a, b, c) => return run_binary(unit, op, a, b, c),
        Operation::Jump(to) => goes(unit, to),
        Operation::IfZero(b, to) => goes_if_zero(unit, b, to),
        Operation::IfNot(b, to) => goes_if_not(unit, b, to),
        Operation::Call(function) => return run_call(image, unit, function),
        Operation::Return => returns(unit),
        Operation::ReadSlot(a, i) => read_slot(unit, a, i),
        Operation::WriteSlot(b, i) => write_slot(unit, b, i),
        Operation::WriteArgument(b, i) => write_argument(unit, b, i),
        Operation::ReadArgument(a, i) => read_argument(unit, a, i),
        Operation::ReadMaster(a, i) => {
            let value = look(start.frame.as_slice(), i as usize);
            sets(unit, a, value);
        }
        Operation::Check(b, length) => return run_check(unit, b, length),
        Operation::Load(_, _)
        | Operation::Store(_, _)
        | Operation::Add(_, _)
        | Operation::Print(_)
        | Operation::Spawn(_, _, _)
        | Operation::Join => return false,
    }
    true
}

/// Runs the next instruction of a unit that isn't due to draw if it touches the unit alone, and
/// says whether it does.
pub(crate) fn run_local(image: &Image, start: &Start, unit: &mut Unit) -> bool
    requires small { IsSmall image.now }
    requires runs { is_due unit.old.state ≡ false }
    ensures local { result ≡ is_local (next_of image.now start.now unit.old) }
    ensures unit { unit.new ≡ (if result then local_of image.now start.now unit.old else unit.old) }
    ensures steps { result ≡ true → unit.new.counts.steps ≡ more unit.old.counts.steps }
{
    match operation_at(image, unit.at) {
        None => false,
        Some(operation) => run_at(image, start, unit, operation),
    }
}
