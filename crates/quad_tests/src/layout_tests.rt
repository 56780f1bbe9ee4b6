//! Where the globals of `int a; int B[4] = {5, -1}; int c = 7; int D[2] = {8, 9};` lie, and what they
//! open with.
ghost use Rattle.std.specs.Prelude.{◌≡◌, ◌≤◌, ◌^◌, All, IfOk};
ghost use Rattle.source_meaning.specs.Layout.{all_words, HasRoom};

use source_meaning::{GlobalVar, Program, layout, opening};
use sqlite_items::Items;
use std::alloc::{AllocError, Global};
use std::test::Fail;

fn global(alloc: Global, name: &str, length: u32, opening: &[u32]) -> Result<GlobalVar, AllocError>
    ensures { IfOk result (λ g. (g.length ≡ length) × (g.opening ≡ opening.now)) }
{
    Ok(GlobalVar {
        name: Items::from_slice(alloc, name.as_bytes())?,
        array: length != 1,
        length,
        constant: false,
        opening: Items::from_slice(alloc, opening)?,
    })
}

fn globals(alloc: Global) -> Result<Items<GlobalVar>, AllocError>
    ensures words { IfOk result (λ globals. all_words globals ≤ 2 ^ 20) }
    ensures room { IfOk result (λ globals. All HasRoom globals) }
{
    let mut globals = Items::new(alloc);
    globals.push(global(alloc, "a", 1, &[])?)?;
    globals.push(global(alloc, "B", 4, &[5, u32::MAX])?)?;
    globals.push(global(alloc, "c", 1, &[7])?)?;
    globals.push(global(alloc, "D", 2, &[8, 9])?)?;
    Ok(globals)
}

fn program(alloc: Global) -> Result<Program, AllocError>
    ensures words { IfOk result (λ program. all_words program.globals ≤ 2 ^ 20) }
    ensures room { IfOk result (λ program. All HasRoom program.globals) }
{
    let globals = globals(alloc)?;
    Ok(Program {
        globals,
        registers: Items::new(alloc),
        functions: Items::new(alloc),
        main: 0,
    })
}

#[test]
fn globals_lie_one_after_another(rt: HostRuntime) -> Result<(), Fail> {
    let program = program(rt.alloc())?;
    let symbols = layout(rt.alloc(), &program)?;
    let want = [("a", 0, 1), ("B", 1, 4), ("c", 5, 1), ("D", 6, 2)];
    assert_eq!(rt; symbols.len(), want.len());
    for (symbol, (name, base, length)) in symbols.iter().zip(want) {
        assert_eq!(rt; symbol.name.as_slice(), name.as_bytes());
        assert_eq!(rt; (symbol.base, symbol.length), (base, length), "at {name}");
    }
    Ok(())
}

#[test]
fn globals_open_with_their_values(rt: HostRuntime) -> Result<(), Fail> {
    let program = program(rt.alloc())?;
    let memory = opening(rt.alloc(), &program)?;
    let words = [0, 5, u32::MAX, 0, 0, 7, 8, 9];
    assert_eq!(rt; memory.words.as_slice(), words.as_slice());
    Ok(())
}
