ghost use Rattle.std.specs.Prelude.{IfOk};
ghost use Rattle.xmt_isa.specs.Fits.{UnitFits};

use image_loader::{Loaded, admit};
use sqlite_items::Items;
use std::alloc::{AllocError, Global};
use std::process::Abort;
use std::test::Fail;
use tcu_engine::{Ask, advance, answer, trap_at};
use xmt_base::{Symbol, Trap, TrapKind};
use xmt_isa::{FunctionEntry, Image, Instr, Start, Unit};

/// Operation, registers and number. Instruction k stands in line k + 1.
type Row = (u8, u8, u8, u8, u32);

#[derive(Clone, Copy)]
enum Program {
    Ends,
    Loops,
    Index,
    Increment,
    Loads,
    Stores,
    Prints,
    Tells,
}

impl Program {
    fn code(self) -> &'static [Row] {
        match self {
            Program::Ends => &ENDS,
            Program::Loops => &LOOPS,
            Program::Index => &INDEX,
            Program::Increment => &INCREMENT,
            Program::Loads => &LOADS,
            Program::Stores => &STORES,
            Program::Prints => &PRINTS,
            Program::Tells => &TELLS,
        }
    }
}

/// A program, its budget and how many instructions it may run; what is answered, and after how many
/// steps.
type Case = (Program, u64, u32, Ask, u64);

static ENDS: [Row; 2] = [(1, 3, 0, 0, 7), (24, 0, 0, 0, 0)];

static LOOPS: [Row; 1] = [(20, 0, 0, 0, 0)];

static INDEX: [Row; 3] = [(1, 3, 0, 0, 7), (30, 0, 3, 0, 7), (24, 0, 0, 0, 0)];

static INCREMENT: [Row; 3] = [(1, 8, 0, 0, 2), (42, 8, 0, 0, 0), (24, 0, 0, 0, 0)];

static LOADS: [Row; 2] = [(31, 3, 0, 0, 1), (24, 0, 0, 0, 0)];

static STORES: [Row; 3] = [(1, 3, 0, 0, 9), (32, 0, 3, 0, 2), (24, 0, 0, 0, 0)];

static PRINTS: [Row; 2] = [(43, 0, 0, 0, 0), (24, 0, 0, 0, 0)];

static TELLS: [Row; 4] = [
    (31, 3, 0, 0, 1),
    (27, 0, 3, 0, 0),
    (43, 0, 0, 0, 0),
    (24, 0, 0, 0, 0),
];

const INDEX_TRAP: Trap = Trap {
    kind: TrapKind::Index,
    line: 2,
    thread: None,
};

const INCREMENT_TRAP: Trap = Trap {
    kind: TrapKind::PsIncrement,
    line: 2,
    thread: None,
};

fn cases() -> &'static [Case] {
    &CASES
}

static CASES: [Case; 13] = [
    (Program::Ends, 9, 9, Ask::Halt, 2),
    (Program::Ends, 9, 2, Ask::Halt, 2),
    (Program::Ends, 9, 1, Ask::Pause, 1),
    (Program::Loops, 9, 4, Ask::Pause, 4),
    (Program::Loops, 4, 4, Ask::Spent, 4),
    (Program::Loops, 9, 0, Ask::Pause, 0),
    (Program::Index, 1, 9, Ask::Spent, 1),
    (Program::Index, 9, 9, Ask::Trap(INDEX_TRAP), 1),
    (Program::Increment, 9, 9, Ask::Trap(INCREMENT_TRAP), 1),
    (Program::Loads, 9, 9, Ask::Load(13), 0),
    (Program::Stores, 9, 1, Ask::Store(14, 9), 1),
    (Program::Prints, 9, 9, Ask::Print(0), 0),
    (Program::Prints, 0, 9, Ask::Spent, 0),
];

fn code_of(alloc: Global, rows: &[Row]) -> Result<Items<Instr>, AllocError> {
    let mut code = Items::new(alloc);
    for row in rows {
        code.push(Instr {
            op: row.0,
            a: row.1,
            b: row.2,
            c: row.3,
            imm: row.4,
        })?;
    }
    Ok(code)
}

fn lines_of(alloc: Global, rows: &[Row]) -> Result<Items<u32>, AllocError> {
    let mut lines = Items::new(alloc);
    let mut line = 0u32;
    for _ in rows {
        line = line.saturating_add(1);
        lines.push(line)?;
    }
    Ok(lines)
}

// One global of five words.
fn symbols_of(alloc: Global) -> Result<Items<Symbol>, AllocError> {
    let mut symbols = Items::new(alloc);
    symbols.push(Symbol {
        name: Items::from_slice(alloc, b"x")?,
        base: 0,
        length: 5,
    })?;
    Ok(symbols)
}

// An image of one function, whose text is a number in a line.
fn image_of(alloc: Global, rows: &[Row]) -> Result<Image, AllocError> {
    let function = FunctionEntry {
        start: 0,
        slots: 0,
        inner: 0,
    };
    let mut texts = Items::new(alloc);
    texts.push(Items::from_slice(alloc, b"%d%%\n")?)?;
    Ok(Image {
        code: code_of(alloc, rows)?,
        lines: lines_of(alloc, rows)?,
        functions: Items::from_slice(alloc, &[function])?,
        texts,
        symbols: symbols_of(alloc)?,
        words: Items::from_slice(alloc, &[0; 5])?,
        ps: [0; 8],
        outer: 0,
        entry: 0,
    })
}

fn loaded(alloc: Global, rows: &[Row]) -> Result<Loaded, Fail> {
    Ok(
        admit(alloc, image_of(alloc, rows)?)
            .ok()
            .ok_or("the image isn't valid")?,
    )
}

// What the master of a run is told before any spawn, and doesn't look at.
fn nothing(alloc: Global) -> Start {
    Start {
        at: 0,
        low: 0,
        count: 0,
        depth: 0,
        regs: [0; 32],
        frame: Items::new(alloc),
    }
}

// Advances the master by at most so many instructions.
fn advanced(
    rt: &impl Abort,
    image: &Loaded,
    start: &Start,
    master: &mut Unit,
    budget: u64,
    most: u32,
) -> Ask
    requires { UnitFits image.now start.now master.old }
    ensures { UnitFits image.now start.now master.new }
{
    assert!(rt; master.number == 0);
    assert!(rt; !master.waits);
    assert!(rt; master.counts.steps <= budget);
    advance(image, start, master, budget, most)
}

// Answers the master.
fn answered(rt: &impl Abort, image: &Loaded, start: &Start, master: &mut Unit, reply: u64)
    requires { UnitFits image.now start.now master.old }
    ensures { UnitFits image.now start.now master.new }
{
    assert!(rt; master.number == 0);
    assert!(rt; master.waits);
    answer(image, start, master, reply);
}

#[test]
fn masters_advance(rt: HostRuntime) -> Result<(), Fail> {
    let alloc = rt.alloc();
    for (number, case) in cases().iter().enumerate() {
        let image = loaded(alloc, case.0.code())?;
        let start = nothing(alloc);
        let mut unit = Unit::new(alloc, 0)?;
        let ask = advanced(&rt, &image, &start, &mut unit, case.1, case.2);
        assert_eq!(rt; ask, case.3, "case {number}");
        assert_eq!(rt; unit.steps(), case.4, "case {number}");
    }
    Ok(())
}

// The trap at which the master stands.
fn trap_of(rt: &impl Abort, image: &Loaded, start: &Start, master: &Unit) -> Option<Trap>
    requires { UnitFits image.now start.now master.now }
{
    assert!(rt; master.number == 0);
    trap_at(image, start, master)
}

// A master that loads a word, with this reply.
fn told(
    rt: &impl Abort,
    alloc: Global,
    image: &Loaded,
    start: &Start,
    reply: u64,
) -> Result<Unit, Fail>
    ensures { IfOk result (UnitFits image.now start.now) }
{
    let mut unit = Unit::new(alloc, 0)?;
    assert_eq!(rt; advanced(rt, image, start, &mut unit, 9, 9), Ask::Load(13));
    answered(rt, image, start, &mut unit, reply);
    Ok(unit)
}

// The low 32 bits of a load's reply are printed.
#[test]
fn replies_are_taken(rt: HostRuntime) -> Result<(), Fail> {
    let image = loaded(rt.alloc(), Program::Tells.code())?;
    let start = nothing(rt.alloc());
    let mut unit = told(&rt, rt.alloc(), &image, &start, 5 << 32 | 0xffff_fff9)?;
    assert_eq!(rt; unit.steps(), 1);
    assert_eq!(rt;
        advanced(&rt, &image, &start, &mut unit, 9, 9),
        Ask::Print(0)
    );
    assert_eq!(rt; unit.args().first(), Some(&0xffff_fff9));
    answered(&rt, &image, &start, &mut unit, 0);
    assert_eq!(rt; advanced(&rt, &image, &start, &mut unit, 9, 9), Ask::Halt);
    assert_eq!(rt; unit.steps(), 4);
    Ok(())
}

#[test]
fn traps_are_found(rt: HostRuntime) -> Result<(), Fail> {
    let image = loaded(rt.alloc(), Program::Index.code())?;
    let start = nothing(rt.alloc());
    let mut unit = Unit::new(rt.alloc(), 0)?;
    assert_eq!(rt; trap_of(&rt, &image, &start, &unit), None);
    assert_eq!(rt;
        advanced(&rt, &image, &start, &mut unit, 9, 1),
        Ask::Trap(INDEX_TRAP)
    );
    assert_eq!(rt; trap_of(&rt, &image, &start, &unit), Some(INDEX_TRAP));
    Ok(())
}
