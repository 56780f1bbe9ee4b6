//! The quads of a program.

ghost use Rattle.std.specs.Prelude.{◌≡◌, ◌*◌, ℕ, ◌≤◌, [], length, map, slice_index_or, slice_get, false, IfOk};
ghost use Rattle.tree_measures.specs.Nodes.{program_nodes};
ghost use Rattle.source_meaning.specs.Layout.{symbols_from, opening_registers};
ghost use Rattle.xmt_quads.specs.Program.{weight_of};
ghost use Rattle.xmt_quads.specs.Traces.{traces_of};
ghost use Rattle.xmt_quads.specs.WellFormed.{IsWellFormed};
ghost use Rattle.quad_code.specs.Whole.{HasPaidTraces};
ghost use Rattle.lowered_quads.specs.Law.{CanBeLowered};
ghost use Rattle.lowered_quads.specs.Lowered.{IsLowered};
ghost use Rattle.lowering.specs.Whole.{is_unmarked, AreFunctionsOf, AreLowered};

use crate::functions::lower_function;
use crate::layout::{Layout, symbols_of, word_count, words_at_start};
use crate::texts::Texts;
use source_meaning::{Program, Register};
use spawn_check::{Sought, marks_of, outer_words};
use sqlite_items::Items;
use std::alloc::{AllocError, Global};
use xmt_base::Symbol;
use xmt_quads::{QuadFunction, QuadProgram};

// What the register with this number opens with, or 0 where there is none.
fn opening_of(registers: &[Register], number: usize) -> u32
    ensures { result ≡ slice_index_or (map (λ r. r.opening) registers.now) number 0 }
{
    match registers.get(number) {
        Some(register) => register.opening,
        None => 0,
    }
}

// What the eight registers open with.
fn register_values(program: &Program) -> [u32; 8]
    ensures { result ≡ opening_registers program.now }
{
    let registers = program.registers.as_slice();
    [
        opening_of(registers, 0),
        opening_of(registers, 1),
        opening_of(registers, 2),
        opening_of(registers, 3),
        opening_of(registers, 4),
        opening_of(registers, 5),
        opening_of(registers, 6),
        opening_of(registers, 7),
    ]
}

fn is_marked(marks: &[bool], function: usize) -> bool
    ensures { result ≡ slice_index_or marks.now function false }
{
    match marks.get(function) {
        Some(marked) => *marked,
        None => false,
    }
}

// Whether the function with this number reaches neither a print nor a spawn, by these marks.
fn is_inner(prints: &[bool], spawns: &[bool], function: usize) -> bool
    ensures { result ≡ is_unmarked prints.now spawns.now function }
{
    !is_marked(prints, function) && !is_marked(spawns, function)
}

// Lowers each function, with the marks of those that print and those that spawn.
fn lower_functions(
    program: &Program,
    texts: &mut Texts,
    layout: &Layout<'_>,
    prints: &[bool],
    spawns: &[bool],
) -> Result<Items<QuadFunction>, AllocError>
    requires { layout.now.globals.now ≡ program.now.globals }
    ensures { IfOk result (AreFunctionsOf program.now prints.now spawns.now 0 program.now.functions texts.old.list texts.new.list) }
{
    let mut functions = Items::new(texts.alloc);
    for (number, function) in program.functions.as_slice().iter().enumerate() {
        let inner = is_inner(prints, spawns, number);
        functions.push(lower_function(function, texts, layout, inner)?)?;
    }
    Ok(functions)
}

/// The quads of a program that was checked and is within the limits: well formed, with traces that
/// are all traces of the program, in bounded work, and with at most a weight of 64 for each node.
/// Want of memory alone is refused.
#[tactic(auto, using(crate::proofs::Lowered::are_well_formed, crate::proofs::Lowered::have_traces, crate::proofs::Lowered::are_light))]
pub fn lower(alloc: Global, program: &Program) -> Result<QuadProgram, AllocError>
    requires { CanBeLowered program.now }
    ensures lowered { IfOk result (IsLowered program.now) }
    ensures well { IfOk result IsWellFormed }
    ensures traces { IfOk result (λ quads. HasPaidTraces program.now (traces_of quads)) }
    ensures light { IfOk result (λ quads. weight_of quads ≤ 64 * program_nodes program.now) }
{
    lowered(alloc, program)
}

// Lowers each function of a program whose globals have these symbols.
fn lower_all(
    program: &Program,
    symbols: &[Symbol],
    texts: &mut Texts,
) -> Result<Items<QuadFunction>, AllocError>
    requires functions { length program.now.functions ≤ 1000 }
    requires symbols { symbols.now ≡ symbols_from 0 program.now.globals }
    ensures { IfOk result (λ made. AreLowered program.now made texts.old.list texts.new.list) }
{
    let globals = program.globals.as_slice();
    let functions = program.functions.as_slice();
    let layout = Layout {
        globals,
        symbols,
        words: word_count(globals)?,
    };
    let prints = marks_of(functions, Sought::Print);
    let spawns = marks_of(functions, Sought::Spawn);
    let made = lower_functions(program, texts, &layout, &prints, &spawns)?;
    Ok(made)
}

// The quads of a program.
fn lowered(alloc: Global, program: &Program) -> Result<QuadProgram, AllocError>
    requires { CanBeLowered program.now }
    ensures { IfOk result (IsLowered program.now) }
{
    let globals = program.globals.as_slice();
    let symbols = symbols_of(alloc, globals)?;
    let words = words_at_start(alloc, globals)?;
    let mut texts = Texts {
        alloc,
        list: Items::new(alloc),
    };
    let functions = lower_all(program, symbols.as_slice(), &mut texts)?;
    Ok(QuadProgram {
        functions,
        main: program.main,
        texts: texts.list,
        symbols,
        words,
        ps: register_values(program),
        outer: outer_words(program),
    })
}
