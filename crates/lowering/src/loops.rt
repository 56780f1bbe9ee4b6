//! The jumps of loops.
ghost use Rattle.std.specs.Prelude.{◌≡◌, ◌+◌, length, Some, IfOk, OnOk};
ghost use Rattle.xmt_quads.specs.declared.code.Quad.TheVariants.{Jump, IfNot};
ghost use Rattle.quad_code.specs.Expressions.{operand_of};
ghost use Rattle.quad_code.specs.Statements.{option_operand as option_operand_of};
ghost use Rattle.lowering.specs.Emitted.{with_code, expression_code};
ghost use Rattle.lowering.specs.Stated.{loop_head as head_of, exits_behind, loop_begun, loop_ended, option_code};

use crate::code::{Placed, next, patch, position, put};
use crate::expressions::{emit_expression, emit_option, operand, option_operand};
use crate::tables::Tables;
use source_meaning::Expr;
use sqlite_items::Boxed;
use std::alloc::AllocError;
use xmt_quads::{Operand, Quad};

/// Where the jumps out of the innermost loop go.
#[derive(Clone, Copy)]
pub struct Exits {
    /// Where a `break` goes.
    pub leave: u32,
    /// Where a `continue` goes.
    pub again: u32,
}

// The quad at the head of a loop: the jump of a test, or one to the body.
fn loop_head(test: Option<Operand>, start: u32) -> Quad
    ensures { result ≡ head_of test start }
{
    match test {
        None => Quad::Jump(start),
        Some(o) => Quad::IfNot(o, start),
    }
}

// The exits of a loop whose head stands there.
fn exits_behind(at: u32) -> Result<Exits, AllocError>
    ensures { IfOk result (λ exits. exits ≡ record { leave = at + 1; again = at + 1 + 1 }) }
{
    let leave = next(at)?;
    let again = next(leave)?;
    Ok(Exits { leave, again })
}

/// Appends the head of a loop, with two jumps behind it, to which a `break` and a `continue` go.
/// They are written by `close_loop`.
pub(crate) fn open_loop(
    code: &mut Vec<Placed>,
    test: Option<Operand>,
    line: u32,
) -> Result<Exits, AllocError>
    ensures exits { IfOk result (λ exits. exits ≡ exits_behind code.old.items) }
    ensures code { OnOk result (code.new.items ≡ loop_begun code.old.items test line) }
{
    let exits = exits_behind(position(code.as_slice())?)?;
    let head = loop_head(test, next(exits.again)?);
    put(code, head, line)?;
    put(code, Quad::Jump(0), line)?;
    put(code, Quad::Jump(0), line)?;
    Ok(exits)
}

/// Appends the last quad of a loop, and writes its two jumps: out of the loop, and to the position
/// behind the body.
pub(crate) fn close_loop(
    code: &mut Vec<Placed>,
    exits: Exits,
    behind: u32,
    last: Quad,
    line: u32,
) -> Result<(), AllocError>
    ensures { OnOk result (code.new.items ≡ loop_ended code.old.items exits behind last line) }
{
    let end = next(position(code.as_slice())?)?;
    put(code, last, line)?;
    patch(code, exits.leave, Quad::Jump(end), line);
    patch(code, exits.again, Quad::Jump(behind), line);
    Ok(())
}

/// The head of a loop whose body is to be appended: where its test begins, and its exits.
#[derive(Clone, Copy)]
pub(crate) struct LoopHead {
    pub start: u32,
    pub exits: Exits,
}

/// Appends the test of a loop, or nothing where it has none, and its head.
pub(crate) fn open_tested(
    test: &Option<Boxed<Expr>>,
    code: &mut Vec<Placed>,
    tables: &Tables<'_>,
    r: u32,
    line: u32,
) -> Result<LoopHead, AllocError>
    ensures start { IfOk result (λ head. head.start ≡ length code.old.items) }
    ensures exits { IfOk result (λ head. head.exits ≡ exits_behind (with_code (option_code tables.now.globals.now tables.now.body.now r test.now) code.old.items)) }
    ensures code { OnOk result (code.new.items ≡ loop_begun (with_code (option_code tables.now.globals.now tables.now.body.now r test.now) code.old.items) (Some (option_operand_of r 1 test.now)) line) }
{
    let start = position(code.as_slice())?;
    emit_option(test, code, tables, r)?;
    let exits = open_loop(code, Some(option_operand(r, 1, test)), line)?;
    Ok(LoopHead { start, exits })
}

/// Appends the test of a loop that always has one, and its head.
pub(crate) fn open_while(
    test: &Expr,
    code: &mut Vec<Placed>,
    tables: &Tables<'_>,
    r: u32,
    line: u32,
) -> Result<LoopHead, AllocError>
    ensures start { IfOk result (λ head. head.start ≡ length code.old.items) }
    ensures exits { IfOk result (λ head. head.exits ≡ exits_behind (with_code (expression_code tables.now.globals.now tables.now.body.now r test.now) code.old.items)) }
    ensures code { OnOk result (code.new.items ≡ loop_begun (with_code (expression_code tables.now.globals.now tables.now.body.now r test.now) code.old.items) (Some (operand_of r test.now.kind)) line) }
{
    let start = position(code.as_slice())?;
    emit_expression(test, code, tables, r)?;
    let exits = open_loop(code, Some(operand(r, test)), line)?;
    Ok(LoopHead { start, exits })
}

/// Ends a loop that goes back to its test.
pub(crate) fn close_while(
    code: &mut Vec<Placed>,
    head: LoopHead,
    line: u32,
) -> Result<(), AllocError>
    ensures { OnOk result (code.new.items ≡ loop_ended code.old.items head.exits (length code.old.items) (Jump head.start) line) }
{
    let behind = position(code.as_slice())?;
    close_loop(code, head.exits, behind, Quad::Jump(head.start), line)
}

/// Appends the third part of a loop, which a `continue` goes to, and ends the loop.
pub(crate) fn close_for(
    third: &Option<Boxed<Expr>>,
    code: &mut Vec<Placed>,
    tables: &Tables<'_>,
    r: u32,
    head: LoopHead,
    line: u32,
) -> Result<(), AllocError>
    ensures { OnOk result (code.new.items ≡ loop_ended (with_code (option_code tables.now.globals.now tables.now.body.now r third.now) code.old.items) head.exits (length code.old.items) (Jump head.start) line) }
{
    let behind = position(code.as_slice())?;
    emit_option(third, code, tables, r)?;
    close_loop(code, head.exits, behind, Quad::Jump(head.start), line)
}

/// Appends the test of a loop behind its body, and ends the loop.
pub(crate) fn close_do(
    test: &Expr,
    code: &mut Vec<Placed>,
    tables: &Tables<'_>,
    r: u32,
    exits: Exits,
    line: u32,
) -> Result<(), AllocError>
    ensures { OnOk result (code.new.items ≡ loop_ended (with_code (expression_code tables.now.globals.now tables.now.body.now r test.now) code.old.items) exits (length code.old.items) (IfNot (operand_of r test.now.kind) (exits.again + 1)) line) }
{
    let start = next(exits.again)?;
    let behind = position(code.as_slice())?;
    emit_expression(test, code, tables, r)?;
    close_loop(
        code,
        exits,
        behind,
        Quad::IfNot(operand(r, test), start),
        line,
    )
}
