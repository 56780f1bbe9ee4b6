//! The quads of functions.

ghost use Rattle.std.specs.Prelude.{◌≡◌, ◌+◌, [], length, map, IfOk, OnOk};
ghost use Rattle.quad_code.specs.Functions.{parameter_code, parameters_code, outer_of};
ghost use Rattle.lowering.specs.Emitted.{Appends, outer_numbers};
ghost use Rattle.lowering.specs.Stated.{Emits, body_code};
ghost use Rattle.quad_code.specs.Rows.{rows_of};
ghost use Rattle.quad_code.specs.Whole.{all_texts};
ghost use Rattle.lowering.specs.Whole.{IsFunctionOf};

use crate::code::{Placed, put};
use crate::layout::Layout;
use crate::loops::Exits;
use crate::statements::emit_statements;
use crate::tables::{Tables, outer_in, outer_number};
use crate::texts::Texts;
use source_meaning::{Function, Stmt};
use sqlite_items::Items;
use std::alloc::{AllocError, Global};
use xmt_quads::{Operand, Quad, QuadFunction, Where};

// A parameter, which comes from the argument list to its register or to its shared place.
fn emit_parameter(
    code: &mut Vec<Placed>,
    variables: u32,
    slot: u32,
    shared: Option<u32>,
) -> Result<(), AllocError>
    ensures { OnOk result (Appends (λ at. parameter_code variables slot shared) code.old.items code.new.items) }
{
    match shared {
        None => put(code, Quad::Parameter(slot, slot), 0),
        Some(number) => {
            put(code, Quad::Parameter(variables, slot), 0)?;
            let store = Quad::Store(Where::Outer(number), Operand::Reg(variables));
            put(code, store, 0)
        }
    }
}

// So many parameters.
fn emit_parameters(
    code: &mut Vec<Placed>,
    tables: &Tables<'_>,
    variables: u32,
    count: u32,
) -> Result<(), AllocError>
    ensures { OnOk result (Appends (λ at. parameters_code (outer_of tables.now.body.now) variables 0 count) code.old.items code.new.items) }
{
    for slot in 0..count {
        emit_parameter(code, variables, slot, outer_in(tables, slot))?;
    }
    Ok(())
}

// The number of each variable among the shared ones.
fn numbers_of(
    alloc: Global,
    body: &[Stmt],
    variables: u32,
) -> Result<Items<Option<u32>>, AllocError>
    ensures { IfOk result (λ numbers. numbers ≡ outer_numbers body.now (length numbers)) }
{
    let mut numbers = Items::new(alloc);
    for slot in 0..variables {
        numbers.push(outer_number(body, slot))?;
    }
    Ok(numbers)
}

// The code of a function: its parameters, its body, and a return.
fn emit_function(
    function: &Function,
    code: &mut Vec<Placed>,
    texts: &mut Texts,
    tables: &Tables<'_>,
) -> Result<(), AllocError>
    requires { tables.now.body.now ≡ function.now.body }
    ensures { OnOk result (Emits (body_code tables.now.globals.now function.now) (all_texts (rows_of function.now.body)) code.old.items code.new.items texts.old.list texts.new.list) }
{
    let exits = Exits { leave: 0, again: 0 };
    let variables = function.variables;
    emit_parameters(code, tables, variables, function.params)?;
    emit_statements(
        function.body.as_slice(),
        code,
        texts,
        tables,
        variables,
        exits,
    )?;
    put(code, Quad::Return(Operand::Literal(0)), 0)?;
    Ok(())
}

fn quads_in(alloc: Global, code: &[Placed]) -> Result<Items<Quad>, AllocError>
    ensures { IfOk result (λ quads. quads ≡ map (λ p. p.quad) code.now) }
{
    let mut quads = Items::new(alloc);
    for placed in code {
        quads.push(placed.quad)?;
    }
    Ok(quads)
}

fn lines_in(alloc: Global, code: &[Placed]) -> Result<Items<u32>, AllocError>
    ensures { IfOk result (λ lines. lines ≡ map (λ p. p.line) code.now) }
{
    let lines = code.iter().map(|placed| placed.line).collect(alloc)?;
    Ok(Items::from_vec(lines))
}

// The registers of a function: 256 behind those of its variables.
fn registers_of(function: &Function) -> Result<u32, AllocError>
    ensures { IfOk result (λ registers. registers ≡ function.now.variables + 256) }
{
    match function.variables.checked_add(256) {
        Some(registers) => Ok(registers),
        None => Err(AllocError),
    }
}

// The code of a function, whose variables have these numbers among the shared ones.
fn code_of(
    function: &Function,
    texts: &mut Texts,
    layout: &Layout<'_>,
    outer: &[Option<u32>],
) -> Result<Vec<Placed>, AllocError>
    requires { outer.now ≡ outer_numbers function.now.body (length outer.now) }
    ensures { IfOk result (λ code. Emits (body_code layout.now.globals.now function.now) (all_texts (rows_of function.now.body)) [] code.items texts.old.list texts.new.list) }
{
    let tables = Tables {
        globals: layout.globals,
        symbols: layout.symbols,
        words: layout.words,
        body: function.body.as_slice(),
        outer,
    };
    let mut code = Vec::new(texts.alloc);
    emit_function(function, &mut code, texts, &tables)?;
    Ok(code)
}

// The quads and the lines of a function apart.
fn function_of(
    alloc: Global,
    code: &[Placed],
    registers: u32,
    inner: bool,
) -> Result<QuadFunction, AllocError>
    ensures { IfOk result (λ f. f ≡ record { quads = map (λ p. p.quad) code.now; lines = map (λ p. p.line) code.now; registers = registers; inner = inner }) }
{
    let quads = quads_in(alloc, code)?;
    let lines = lines_in(alloc, code)?;
    Ok(QuadFunction {
        quads,
        lines,
        registers,
        inner,
    })
}

/// Lowers a function, and adds its texts.
pub(crate) fn lower_function(
    function: &Function,
    texts: &mut Texts,
    layout: &Layout<'_>,
    inner: bool,
) -> Result<QuadFunction, AllocError>
    ensures { IfOk result (IsFunctionOf layout.now.globals.now function.now inner texts.old.list texts.new.list) }
{
    let alloc = texts.alloc;
    let registers = registers_of(function)?;
    let outer = numbers_of(alloc, function.body.as_slice(), function.variables)?;
    let code = code_of(function, texts, layout, outer.as_slice())?;
    let lowered = function_of(alloc, code.as_slice(), registers, inner)?;
    Ok(lowered)
}
