//! The quads of statements.
#![tactic(auto, unfolding(source_meaning::specs::Opened::opened))]

ghost use Rattle.std.specs.Prelude.{◌≡◌, [], ◌∷◌, OnOk};
ghost use Rattle.lowering.specs.Emitted.{Appends};
ghost use Rattle.lowering.specs.Stated.{Emits, IsPlain, IsIf, IsWhile, IsDo, IsFor, IsSpawn, bounds_code, print_code, plain_code, statement_code, EmitsStatement, EmitsSequence, EmitsOther};

use crate::code::{Placed, close_choice, next, put, reserve};
use crate::expressions::{
    access_to, emit_arguments, emit_expression, emit_option, emit_values, operand, option_operand,
    writing,
};
use crate::loops::{Exits, close_do, close_for, close_while, open_loop, open_tested, open_while};
use crate::sums::{emit_ps, emit_psm};
use crate::tables::{Tables, outer_in};
use crate::texts::{Texts, add_text, next_text};
use source_meaning::{Expr, Stmt, StmtKind};
use sqlite_items::Boxed;
use std::alloc::AllocError;
use xmt_quads::Quad;

// Appends a statement that has no statement inside it, and prints nothing.
fn emit_plain(
    s: &Stmt,
    code: &mut Vec<Placed>,
    tables: &Tables<'_>,
    r: u32,
    exits: Exits,
) -> Result<(), AllocError>
    requires { IsPlain s.now.kind }
    ensures { OnOk result (Appends (plain_code tables.now.globals.now tables.now.body.now r exits s.now.at.line s.now.kind) code.old.items code.new.items) }
{
    let line = s.at.line;
    match &s.kind {
        StmtKind::Value(e) => emit_expression(e.get(), code, tables, r),
        StmtKind::Declare(slot, value) => {
            emit_option(value, code, tables, r)?;
            let to = access_to(*slot, outer_in(tables, *slot));
            put(code, writing(to, option_operand(r, 0, value)), line)
        }
        StmtKind::Break => put(code, Quad::Jump(exits.leave), line),
        StmtKind::Continue => put(code, Quad::Jump(exits.again), line),
        StmtKind::Return(value) => {
            emit_option(value, code, tables, r)?;
            put(code, Quad::Return(option_operand(r, 0, value)), line)
        }
        StmtKind::Ps(variable, register) => emit_ps(variable, *register, code, tables, r, line),
        StmtKind::Psm(variable, place) => emit_psm(variable, place, code, tables, r, line),
        _ => Ok(()),
    }
}

// Appends the bounds of a spawn and the spawn: the low one is computed first.
fn emit_bounds(
    low: &Expr,
    high: &Expr,
    code: &mut Vec<Placed>,
    tables: &Tables<'_>,
    r: u32,
    line: u32,
) -> Result<(), AllocError>
    ensures { OnOk result (code.new.items ≡ bounds_code tables.now.globals.now tables.now.body.now r line low.now high.now code.old.items) }
{
    let second = next(r)?;
    emit_expression(low, code, tables, r)?;
    emit_expression(high, code, tables, second)?;
    put(
        code,
        Quad::Spawn(operand(r, low), operand(second, high)),
        line,
    )
}

// Appends a print: its values, the argument list, and the text.
fn emit_print(
    values: &[Expr],
    text: &[u8],
    code: &mut Vec<Placed>,
    texts: &mut Texts,
    tables: &Tables<'_>,
    r: u32,
    line: u32,
) -> Result<(), AllocError>
    ensures { OnOk result (Emits (print_code tables.now.globals.now tables.now.body.now r line text.now values.now) (text.now ∷ []) code.old.items code.new.items texts.old.list texts.new.list) }
{
    let number = next_text(texts)?;
    emit_values(values, code, tables, r)?;
    emit_arguments(values, code, line, 0, r)?;
    put(code, Quad::Print(number), line)?;
    add_text(texts, text)?;
    Ok(())
}

/// Appends the quads of a statement, and its texts. They may use the registers from this one on.
#[cycle(state)]
pub(crate) fn emit_statement(
    s: &Stmt,
    code: &mut Vec<Placed>,
    texts: &mut Texts,
    tables: &Tables<'_>,
    r: u32,
    exits: Exits,
) -> Result<(), AllocError>
    ensures { OnOk result (EmitsStatement tables.now.globals.now tables.now.body.now r exits s.now code.old.items code.new.items texts.old.list texts.new.list) }
{
    let line = s.at.line;
    match &s.kind {
        StmtKind::Block(body) => { emit_statements(body.as_slice(), code, texts, tables, r, exits) }
        StmtKind::If(_, _, _) => emit_if(s, code, texts, tables, r, exits),
        StmtKind::While(_, _) => emit_while(s, code, texts, tables, r, exits),
        StmtKind::Do(_, _) => emit_do(s, code, texts, tables, r, exits),
        StmtKind::For(_, _, _, _) => emit_for(s, code, texts, tables, r, exits),
        StmtKind::Spawn(_, _, _) => emit_spawn(s, code, texts, tables, r, exits),
        StmtKind::Print(text, values) => {
            let values = values.as_slice();
            emit_print(values, text.as_slice(), code, texts, tables, r, line)
        }
        _ => { emit_plain(s, code, tables, r, exits) }
    }
}

// `if`
#[cycle(state)]
fn emit_if(
    s: &Stmt,
    code: &mut Vec<Placed>,
    texts: &mut Texts,
    tables: &Tables<'_>,
    r: u32,
    exits: Exits,
) -> Result<(), AllocError>
    requires { IsIf s.now.kind }
    ensures { OnOk result (EmitsStatement tables.now.globals.now tables.now.body.now r exits s.now code.old.items code.new.items texts.old.list texts.new.list) }
{
    let line = s.at.line;
    match &s.kind {
        StmtKind::If(test, body, other) => {
            let test = test.get();
            emit_expression(test, code, tables, r)?;
            let skip = reserve(code, line)?;
            emit_statement(body.get(), code, texts, tables, r, exits)?;
            let jump = reserve(code, line)?;
            emit_other(other, code, texts, tables, r, exits)?;
            close_choice(code, skip, true, operand(r, test), jump, line)
        }
        _ => Ok(()),
    }
}

// `while`
#[cycle(state)]
fn emit_while(
    s: &Stmt,
    code: &mut Vec<Placed>,
    texts: &mut Texts,
    tables: &Tables<'_>,
    r: u32,
    exits: Exits,
) -> Result<(), AllocError>
    requires { IsWhile s.now.kind }
    ensures { OnOk result (EmitsStatement tables.now.globals.now tables.now.body.now r exits s.now code.old.items code.new.items texts.old.list texts.new.list) }
{
    let line = s.at.line;
    match &s.kind {
        StmtKind::While(test, body) => {
            let head = open_while(test.get(), code, tables, r, line)?;
            emit_statement(body.get(), code, texts, tables, r, head.exits)?;
            close_while(code, head, line)
        }
        _ => Ok(()),
    }
}

// `do`
#[cycle(state)]
fn emit_do(
    s: &Stmt,
    code: &mut Vec<Placed>,
    texts: &mut Texts,
    tables: &Tables<'_>,
    r: u32,
    exits: Exits,
) -> Result<(), AllocError>
    requires { IsDo s.now.kind }
    ensures { OnOk result (EmitsStatement tables.now.globals.now tables.now.body.now r exits s.now code.old.items code.new.items texts.old.list texts.new.list) }
{
    let line = s.at.line;
    match &s.kind {
        StmtKind::Do(body, test) => {
            let inner = open_loop(code, None, line)?;
            emit_statement(body.get(), code, texts, tables, r, inner)?;
            close_do(test.get(), code, tables, r, inner, line)
        }
        _ => Ok(()),
    }
}

// `for`: its first part stands outside the loop.
#[cycle(state)]
fn emit_for(
    s: &Stmt,
    code: &mut Vec<Placed>,
    texts: &mut Texts,
    tables: &Tables<'_>,
    r: u32,
    exits: Exits,
) -> Result<(), AllocError>
    requires { IsFor s.now.kind }
    ensures { OnOk result (EmitsStatement tables.now.globals.now tables.now.body.now r exits s.now code.old.items code.new.items texts.old.list texts.new.list) }
{
    let line = s.at.line;
    match &s.kind {
        StmtKind::For(first, test, third, body) => {
            emit_statements(first.as_slice(), code, texts, tables, r, exits)?;
            let head = open_tested(test, code, tables, r, line)?;
            emit_statement(body.get(), code, texts, tables, r, head.exits)?;
            close_for(third, code, tables, r, head, line)
        }
        _ => Ok(()),
    }
}

// `spawn`: its bounds, its block and a join.
#[cycle(state)]
fn emit_spawn(
    s: &Stmt,
    code: &mut Vec<Placed>,
    texts: &mut Texts,
    tables: &Tables<'_>,
    r: u32,
    exits: Exits,
) -> Result<(), AllocError>
    requires { IsSpawn s.now.kind }
    ensures { OnOk result (EmitsStatement tables.now.globals.now tables.now.body.now r exits s.now code.old.items code.new.items texts.old.list texts.new.list) }
{
    let line = s.at.line;
    match &s.kind {
        StmtKind::Spawn(low, high, block) => {
            emit_bounds(low.get(), high.get(), code, tables, r, line)?;
            emit_statements(block.as_slice(), code, texts, tables, r, exits)?;
            put(code, Quad::Join, line)
        }
        _ => Ok(()),
    }
}

// The statement behind an `else`, where there is one.
#[cycle(state)]
fn emit_other(
    other: &Option<Boxed<Stmt>>,
    code: &mut Vec<Placed>,
    texts: &mut Texts,
    tables: &Tables<'_>,
    r: u32,
    exits: Exits,
) -> Result<(), AllocError>
    ensures { OnOk result (EmitsOther tables.now.globals.now tables.now.body.now r exits other.now code.old.items code.new.items texts.old.list texts.new.list) }
{
    match other {
        None => Ok(()),
        Some(s) => { emit_statement(s.get(), code, texts, tables, r, exits) }
    }
}

/// Appends statements from the first on.
#[cycle(state)]
pub(crate) fn emit_statements(
    body: &[Stmt],
    code: &mut Vec<Placed>,
    texts: &mut Texts,
    tables: &Tables<'_>,
    r: u32,
    exits: Exits,
) -> Result<(), AllocError>
    ensures { OnOk result (EmitsSequence tables.now.globals.now tables.now.body.now r exits body.now code.old.items code.new.items texts.old.list texts.new.list) }
{
    for s in body {
        emit_statement(s, code, texts, tables, r, exits)?;
    }
    Ok(())
}
