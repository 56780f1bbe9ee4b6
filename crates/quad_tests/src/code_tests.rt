//! The quads of a loop, and their image.
//!
//! The quads are worked out by hand: an expression leaves its value in the register behind those of
//! the variables, and a loop has two jumps behind its test, for `break` and for `continue`. In the
//! image a register lives in the slot of its number, and machine registers 3 and 4 hold what is at
//! hand.
ghost use Rattle.std.specs.Prelude.{IfOk};
ghost use Rattle.xmt_quads.specs.WellFormed.{IsWellFormed};

use broadcast::{masks, slots_have_no_masks};
use emit::emit;
use front_end::front;
use lowering::lower;
use std::alloc::Global;
use std::test::Fail;
use xmt_isa::{FunctionEntry, Image};
use xmt_quads::{BinOp, Operand, Quad, QuadProgram, Where, plain};

const COUNTDOWN: &str = "int x; int main() { x = 2;\n while (x) x--; }";

fn quads_of(alloc: Global, source: &str) -> Result<QuadProgram, Fail>
    ensures { IfOk result IsWellFormed }
{
    match front(alloc, source.as_bytes()) {
        Ok(program) => Ok(lower(alloc, &program)?),
        Err(_) => Err("the source is refused".into()),
    }
}

fn image_of(alloc: Global, quads: &QuadProgram) -> Result<Image, Fail>
    requires { IsWellFormed quads.now }
{
    let allocation = plain(alloc, quads)?;
    let masks = masks(alloc, quads, &allocation)?;
    slots_have_no_masks(quads, &allocation, masks.as_slice());
    Ok(emit(alloc, quads, &allocation, masks.as_slice())?)
}

static QUADS: [Quad; 12] = [
    Quad::Store(Where::Word(0), Operand::Literal(2)),
    Quad::Copy(0, Operand::Literal(2)),
    Quad::Load(0, Where::Word(0)),
    Quad::IfNot(Operand::Reg(0), 6),
    Quad::Jump(11),
    Quad::Jump(10),
    Quad::Load(0, Where::Word(0)),
    Quad::Binary(BinOp::Sub, 1, Operand::Reg(0), Operand::Literal(1)),
    Quad::Store(Where::Word(0), Operand::Reg(1)),
    Quad::Copy(0, Operand::Reg(0)),
    Quad::Jump(2),
    Quad::Return(Operand::Literal(0)),
];

fn quads() -> &'static [Quad] {
    &QUADS
}

// The number of each instruction, its registers and its number of 32 bits.
static CODE: [(u8, u8, u8, u8, u32); 23] = [
    (1, 3, 0, 0, 2),
    (32, 0, 3, 0, 0),
    (1, 3, 0, 0, 2),
    (26, 0, 3, 0, 0),
    (31, 3, 0, 0, 0),
    (26, 0, 3, 0, 0),
    (25, 3, 0, 0, 0),
    (22, 0, 3, 0, 10),
    (20, 0, 0, 0, 21),
    (20, 0, 0, 0, 20),
    (31, 3, 0, 0, 0),
    (26, 0, 3, 0, 0),
    (25, 3, 0, 0, 0),
    (1, 4, 0, 0, 1),
    (4, 3, 3, 4, 0),
    (26, 0, 3, 0, 1),
    (25, 3, 0, 0, 1),
    (32, 0, 3, 0, 0),
    (25, 3, 0, 0, 0),
    (26, 0, 3, 0, 0),
    (20, 0, 0, 0, 4),
    (1, 2, 0, 0, 0),
    (24, 0, 0, 0, 0),
];

fn code() -> &'static [(u8, u8, u8, u8, u32)] {
    &CODE
}

#[test]
fn loop_is_lowered(rt: HostRuntime) -> Result<(), Fail> {
    let program = quads_of(rt.alloc(), COUNTDOWN)?;
    let function = program.functions.get(0).ok_or("no function")?;
    assert_eq!(rt; function.quads.as_slice(), quads());
    let lines = [1, 1, 2, 2, 2, 2, 2, 2, 2, 2, 2, 0];
    assert_eq!(rt; function.lines.as_slice(), lines.as_slice());
    assert_eq!(rt; (function.registers, function.inner), (256, true));
    assert_eq!(rt; program.words.as_slice(), [0].as_slice());
    Ok(())
}

#[test]
fn loop_is_emitted(rt: HostRuntime) -> Result<(), Fail> {
    let alloc = rt.alloc();
    let program = quads_of(alloc, COUNTDOWN)?;
    let image = image_of(alloc, &program)?;
    assert_eq!(rt; image.code.len(), code().len());
    for (i, wanted) in image.code.as_slice().iter().zip(code().iter()) {
        assert_eq!(rt; (i.op, i.a, i.b, i.c, i.imm), *wanted);
    }
    let main = [FunctionEntry {
        start: 0,
        slots: 512,
        inner: 1,
    }];
    assert_eq!(rt; image.functions.as_slice(), main.as_slice());
    Ok(())
}
