ghost use Rattle.std.specs.Prelude.{◌≡◌, [], ◌∷◌, map, All, length, IfOk};
ghost use Rattle.xmt_quads.specs.Allocation.{IsHome};

use broadcast::masks;
use sqlite_items::Items;
use std::alloc::{AllocError, Global};
use std::test::Fail;
use xmt_quads::Quad::{Copy, Join, Return, Spawn, Store};
use xmt_quads::{Allocation, Home, Operand, Quad, QuadFunction, QuadProgram, Where};

const NUMBER: Operand = Operand::Literal(0);

const X: Operand = Operand::Reg(0);

const Y: Operand = Operand::Reg(1);

const GLOBAL: Where = Where::Word(0);

fn function(alloc: Global, quads: &[Quad]) -> Result<QuadFunction, AllocError>
    ensures { IfOk result (λ function. function.registers ≡ 2) }
{
    Ok(QuadFunction {
        quads: Items::from_slice(alloc, quads)?,
        lines: Items::new(alloc),
        registers: 2,
        inner: false,
    })
}

fn program(alloc: Global, quads: &[Quad]) -> Result<QuadProgram, AllocError>
    ensures { IfOk result (λ program. map (λ f. f.registers) program.functions ≡ 2 ∷ []) }
{
    let mut functions = Items::new(alloc);
    functions.push(function(alloc, quads)?)?;
    Ok(QuadProgram {
        functions,
        main: 0,
        texts: Items::new(alloc),
        symbols: Items::new(alloc),
        words: Items::new(alloc),
        ps: [0; 8],
        outer: 0,
    })
}

fn allocation(alloc: Global, first: Home, second: Home) -> Result<Allocation, AllocError>
    ensures { IfOk result (λ allocation. allocation.homes ≡ (first ∷ second ∷ []) ∷ []) }
{
    let mut homes = Items::new(alloc);
    homes.push(Items::from_slice(alloc, &[first, second])?)?;
    Ok(Allocation { homes })
}

// The masks of a function with two registers, which live in these homes.
fn masks_of(
    alloc: Global,
    quads: &[Quad],
    first: Home,
    second: Home,
) -> Result<Vec<u32>, AllocError>
    requires first { IsHome first }
    requires second { IsHome second }
{
    let program = program(alloc, quads)?;
    let allocation = allocation(alloc, first, second)?;
    masks(alloc, &program, &allocation)
}

#[test]
fn what_a_block_reads_is_in_its_mask(rt: HostRuntime) -> Result<(), Fail> {
    let alloc = rt.alloc();
    let quads = [
        Copy(0, Operand::Literal(5)),
        Copy(1, Operand::Literal(6)),
        Spawn(NUMBER, Operand::Literal(1)),
        Store(GLOBAL, X),
        Join,
        Return(NUMBER),
    ];
    let found = masks_of(alloc, &quads, Home::Reg(8), Home::Reg(9))?;
    assert_eq!(rt; found.as_slice(), [256].as_slice());
    Ok(())
}

#[test]
fn each_spawn_has_a_mask_of_registers_alone(rt: HostRuntime) -> Result<(), Fail> {
    let alloc = rt.alloc();
    let quads = [
        Spawn(X, X),
        Store(GLOBAL, Y),
        Join,
        Spawn(NUMBER, Y),
        Store(GLOBAL, X),
        Join,
        Return(NUMBER),
    ];
    let found = masks_of(alloc, &quads, Home::Slot(0), Home::Reg(27))?;
    assert_eq!(rt; found.as_slice(), [134217728, 0].as_slice());
    Ok(())
}
