ghost use Rattle.std.specs.Prelude.{◌≡◌, ◌≤◌};

use crate::programs::*;
use image_loader::{Loaded, admit};
use machine_core::run_picked;
use run_options::{SimEnd, SimOptions};
use sqlite_items::Items;
use std::alloc::{AllocError, Global};
use std::process::Abort;
use std::test::Fail;
use xmt_base::{Memory, Symbol, Trap, TrapKind};
use xmt_host::{HostCall, MemoryHost};
use xmt_isa::{FunctionEntry, Image, Instr};

// How a run ends, without its memory.
#[derive(Clone, Copy, Debug, PartialEq, Eq)]
enum Ending {
    Done,
    Trap(Trap),
    Spent(u32, u64),
    WriteFault,
    NoMemory,
}

fn ending_of(end: SimEnd) -> Ending {
    match end {
        SimEnd::Done(_) => Ending::Done,
        SimEnd::Trap(trap) => Ending::Trap(trap),
        SimEnd::Spent { unit, steps } => Ending::Spent(unit, steps),
        SimEnd::WriteFault => Ending::WriteFault,
        SimEnd::NoMemory => Ending::NoMemory,
    }
}

fn code_of(alloc: Global, rows: &[Row]) -> Result<Items<Instr>, AllocError> {
    let mut code = Items::new(alloc);
    for row in rows {
        code.push(Instr {
            op: row.0,
            a: row.1,
            b: row.2,
            c: row.3,
            imm: row.4,
        })?;
    }
    Ok(code)
}

fn lines_of(alloc: Global, rows: &[Row]) -> Result<Items<u32>, AllocError> {
    let mut lines = Items::new(alloc);
    let mut line = 0u32;
    for _ in rows {
        line = line.saturating_add(1);
        lines.push(line)?;
    }
    Ok(lines)
}

// One array has all data words.
fn symbols_of(alloc: Global) -> Result<Items<Symbol>, AllocError> {
    let mut symbols = Items::new(alloc);
    symbols.push(Symbol {
        name: Items::from_slice(alloc, b"A")?,
        base: 0,
        length: 5,
    })?;
    Ok(symbols)
}

// An image of one function and five data words, whose text is a number in a line.
fn image_of(alloc: Global, rows: &[Row]) -> Result<Image, AllocError> {
    let function = FunctionEntry {
        start: 0,
        slots: 0,
        inner: 0,
    };
    Ok(Image {
        code: code_of(alloc, rows)?,
        lines: lines_of(alloc, rows)?,
        functions: Items::from_slice(alloc, &[function])?,
        texts: Items::new(alloc),
        symbols: symbols_of(alloc)?,
        words: Items::from_slice(alloc, &[0; 5])?,
        ps: [0; 8],
        outer: 0,
        entry: 0,
    })
}

fn loaded(alloc: Global, rows: &[Row]) -> Result<Loaded, Fail> {
    let mut image = image_of(alloc, rows)?;
    image.texts.push(Items::from_slice(alloc, b"%d\n")?)?;
    match admit(alloc, image) {
        Ok(image) => Ok(image),
        Err(_) => Err("the image is refused")?,
    }
}

fn zeros(alloc: Global) -> Result<Memory, AllocError> {
    let words = Items::from_slice(alloc, &[0; 5])?;
    Ok(Memory { words })
}

// Runs a program.
fn run(
    rt: &impl Abort,
    alloc: Global,
    rows: &[Row],
    options: &SimOptions,
    seed: u64,
    host: &mut MemoryHost,
) -> Result<SimEnd, Fail>
    requires some { 1 ≤ options.now.units }
    requires few { options.now.units ≤ 64 }
{
    let image = loaded(alloc, rows)?;
    let memory = zeros(alloc)?;
    assert!(rt; memory.words.len() == image.image().words.len());
    Ok(run_picked(alloc, &image, memory, options, seed, host))
}

fn options_of(units: u32, budget: u64) -> SimOptions
    ensures { result.units ≡ units }
{
    SimOptions {
        units,
        budget,
        seed: None,
    }
}

// Units, budget and seed, and how the run ends with what output.
type Case = (Program, u32, u64, u64, Ending, &'static str);

const NO_INDEX: Ending = Ending::Trap(Trap {
    kind: TrapKind::Index,
    line: 4,
    thread: Some(2),
});

const NO_INCREMENT: Ending = Ending::Trap(Trap {
    kind: TrapKind::PsIncrement,
    line: 2,
    thread: None,
});

const TOO_DEEP: Ending = Ending::Trap(Trap {
    kind: TrapKind::CallDepth,
    line: 1,
    thread: None,
});

static CASES: [Case; 12] = [
    (Program::Sum, 3, 10000, 9, Ending::Done, "18\n"),
    (Program::Sum, 64, 10000, 0, Ending::Done, "18\n"),
    (Program::Sum, 1, 20, 0, Ending::Spent(1, 20), ""),
    (Program::Last, 1, 100, 5, Ending::Done, "1\n"),
    (Program::Idle, 1, 1000, 0, Ending::Spent(1, 1000), ""),
    (Program::Idle, 64, 1000, 3, Ending::Done, ""),
    (Program::Endless, 2, 1000, 0, Ending::Spent(0, 1000), ""),
    (Program::Index, 2, 1000, 7, NO_INDEX, ""),
    (Program::Increment, 1, 9, 0, NO_INCREMENT, ""),
    (Program::Increment, 1, 1, 0, Ending::Spent(0, 1), ""),
    (Program::Deep, 1, 1000, 0, TOO_DEEP, ""),
    (Program::Deep, 1, 256, 0, Ending::Spent(0, 256), ""),
];

fn cases() -> &'static [Case] {
    &CASES
}

#[test]
fn runs_end(rt: HostRuntime) -> Result<(), Fail> {
    let alloc = rt.alloc();
    for (number, case) in cases().iter().enumerate() {
        let mut host = MemoryHost::new(alloc, Vec::new(alloc));
        assert!(rt; case.1 >= 1 && case.1 <= 64);
        let options = options_of(case.1, case.2);
        let end = run(&rt, alloc, case.0.code(), &options, case.3, &mut host)?;
        assert_eq!(rt; ending_of(end), case.4, "case {number}");
        assert_eq!(rt; host.out.as_slice(), case.5.as_bytes(), "case {number}");
    }
    Ok(())
}

// The data words at the end of a run.
fn words_of(end: SimEnd) -> Option<Items<u32>> {
    match end {
        SimEnd::Done(memory) => {
            let Memory { words } = memory;
            Some(words)
        }
        _ => None,
    }
}

#[test]
fn memory_is_left(rt: HostRuntime) -> Result<(), Fail> {
    let alloc = rt.alloc();
    let mut host = MemoryHost::new(alloc, Vec::new(alloc));
    let end = run(
        &rt,
        alloc,
        Program::Sum.code(),
        &options_of(2, 1000),
        1,
        &mut host,
    )?;
    let words = words_of(end).ok_or("no memory is left")?;
    assert_eq!(rt; words.as_slice(), [1, 2, 5, 10, 18].as_slice());
    Ok(())
}

#[test]
fn refused_text_ends_the_run(rt: HostRuntime) -> Result<(), Fail> {
    let alloc = rt.alloc();
    let mut host = MemoryHost::new(alloc, vec![in alloc; (HostCall::Print, 2); 1]?);
    let end = run(
        &rt,
        alloc,
        Program::Three.code(),
        &options_of(1, 1000),
        0,
        &mut host,
    )?;
    assert_eq!(rt; ending_of(end), Ending::WriteFault);
    assert_eq!(rt; host.out.as_slice(), b"0\n0\n".as_slice());
    assert_eq!(rt; host.calls[2], 3);
    Ok(())
}
