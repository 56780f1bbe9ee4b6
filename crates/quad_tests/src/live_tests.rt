use liveness::live_in;
use sqlite_items::Items;
use std::alloc::{AllocError, Global};
use std::test::Fail;
use xmt_quads::Quad::{Copy, IfZero, Join, Jump, Return, Spawn, Store};
use xmt_quads::{Operand, Quad, QuadFunction, Where};

const NUMBER: Operand = Operand::Literal(7);

const X: Operand = Operand::Reg(0);

const Y: Operand = Operand::Reg(1);

const GLOBAL: Where = Where::Word(0);

fn function(alloc: Global, quads: &[Quad]) -> Result<QuadFunction, AllocError> {
    Ok(QuadFunction {
        quads: Items::from_slice(alloc, quads)?,
        lines: Items::new(alloc),
        registers: 2,
        inner: false,
    })
}

// Whether just these registers are live at each position, from the first on.
fn lives(alloc: Global, quads: &[Quad], expected: &[&[u32]]) -> Result<bool, AllocError> {
    let function = function(alloc, quads)?;
    let mut at = 0u32;
    for registers in expected {
        if live_in(alloc, &function, at)?.as_slice() != *registers {
            return Ok(false);
        }
        at = at.saturating_add(1);
    }
    Ok(true)
}

const NONE: &[u32] = &[];

const FIRST: &[u32] = &[0];

const SECOND: &[u32] = &[1];

const BOTH: &[u32] = &[0, 1];

#[test]
fn a_spawn_leads_into_its_block_and_behind_its_join(rt: HostRuntime) -> Result<(), Fail> {
    let alloc = rt.alloc();
    let block_reads = [
        Copy(0, NUMBER),
        Copy(1, NUMBER),
        Spawn(NUMBER, NUMBER),
        Store(GLOBAL, X),
        Join,
        Return(NUMBER),
    ];
    assert!(rt;
        lives(
            alloc,
            &block_reads,
            &[NONE, FIRST, FIRST, FIRST, NONE, NONE]
        )?
    );
    let read_behind = [Spawn(X, X), Copy(0, NUMBER), Join, Return(Y)];
    assert!(rt; lives(alloc, &read_behind, &[BOTH, NONE, NONE, SECOND, NONE])?);
    Ok(())
}

#[test]
fn paths_go_round_loops_and_both_ways(rt: HostRuntime) -> Result<(), Fail> {
    let alloc = rt.alloc();
    let round = [IfZero(X, 3), Store(GLOBAL, Y), Jump(0), Return(NUMBER)];
    assert!(rt; lives(alloc, &round, &[BOTH, BOTH, BOTH, NONE])?);
    let ways = [IfZero(NUMBER, 2), Return(X), Copy(0, NUMBER), Return(Y)];
    assert!(rt; lives(alloc, &ways, &[BOTH, FIRST, SECOND, SECOND])?);
    Ok(())
}
