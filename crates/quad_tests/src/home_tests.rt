ghost use Rattle.std.specs.Prelude.{◌≡◌, ◌≤◌, All, IfOk};

use sqlite_items::Items;
use std::alloc::{AllocError, Global};
use std::test::Fail;
use xmt_quads::{Home, QuadFunction, QuadProgram, plain};

fn function(alloc: Global, registers: u32) -> QuadFunction
    ensures { result.registers ≡ registers }
{
    QuadFunction {
        quads: Items::new(alloc),
        lines: Items::new(alloc),
        registers,
        inner: false,
    }
}

// Two functions with so many registers.
fn program(alloc: Global, first: u32, second: u32) -> Result<QuadProgram, AllocError>
    requires first { first ≤ 456 }
    requires second { second ≤ 456 }
    ensures { IfOk result (λ program. All (λ f. f.registers ≤ 456) program.functions) }
{
    let mut functions = Items::new(alloc);
    functions.push(function(alloc, first))?;
    functions.push(function(alloc, second))?;
    Ok(QuadProgram {
        functions,
        main: 0,
        texts: Items::new(alloc),
        symbols: Items::new(alloc),
        words: Items::new(alloc),
        ps: [0; 8],
        outer: 0,
    })
}

#[test]
fn each_register_has_a_slot_of_its_own(rt: HostRuntime) -> Result<(), Fail> {
    let alloc = rt.alloc();
    let allocation = plain(alloc, &program(alloc, 3, 456)?)?;
    assert_eq!(rt; allocation.homes.len(), 2);
    let small = allocation.homes.get(0).ok_or("no list")?.as_slice();
    let slots = [Home::Slot(0), Home::Slot(1), Home::Slot(2)];
    assert_eq!(rt; small, slots.as_slice());
    let large = allocation.homes.get(1).ok_or("no list")?.as_slice();
    assert_eq!(rt; large.len(), 456);
    Ok(())
}
