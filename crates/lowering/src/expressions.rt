//! The quads of expressions.
#![tactic(auto, unfolding(source_meaning::specs::Opened::opened))]

ghost use Rattle.std.specs.Prelude.{◌≡◌, ◌+◌, if◌then◌else◌, OnOk, IfOk};
ghost use Rattle.quad_code.specs.Expressions.{operand_of, held as held_of, reading as reading_of, writing as writing_of, access_of_slot, step_operator};
ghost use Rattle.quad_code.specs.Statements.{option_operand as option_operand_of};
ghost use Rattle.lowering.specs.Stated.{option_code};
ghost use Rattle.lowering.specs.Emitted.{Appends, expression_code, IsBinary, IsCall, IsAssign, IsUpdate, IsStep, IsBoth, IsEither, IsChoose, place_of, read_code, call_code, assigned_code, updated_code, stepped_code, spot_code, tested_code, side_code, values_code, arguments_code};

use crate::code::{Placed, close_choice, next, put, reserve};
use crate::tables::{Tables, base_of, outer_in, size_of};
use quad_code::Access;
use source_meaning::{Expr, ExprKind, Spot};
use sqlite_items::Boxed;
use std::alloc::AllocError;
use xmt_quads::{BinOp, Operand, Quad, Where};

/// Where the value of an expression is found whose code may use the registers from this one on.
pub(crate) fn operand(r: u32, e: &Expr) -> Operand
    ensures { result ≡ operand_of r e.now.kind }
{
    match &e.kind {
        ExprKind::Number(n) => Operand::Literal(*n),
        _ => Operand::Reg(r),
    }
}

/// The register behind those that wait while a place is in use.
pub(crate) fn behind(r: u32, p: &Spot) -> Result<u32, AllocError>
    ensures { IfOk result (λ n. n ≡ r + held_of p.now) }
{
    match p {
        Spot::Element(_, _) => next(r),
        Spot::Global(_) | Spot::Register(_) | Spot::Local(_) => Ok(r),
    }
}

/// The quad that reads a place into a register.
pub(crate) fn reading(r: u32, access: Access) -> Quad
    ensures { result ≡ reading_of r access }
{
    match access {
        Access::Own(x) => Quad::Copy(r, Operand::Reg(x)),
        Access::Common(place) => Quad::Load(r, place),
    }
}

/// The quad that writes a value to a place.
pub(crate) fn writing(access: Access, o: Operand) -> Quad
    ensures { result ≡ writing_of access o }
{
    match access {
        Access::Own(x) => Quad::Copy(x, o),
        Access::Common(place) => Quad::Store(place, o),
    }
}

fn operator_of_step(up: bool) -> BinOp
    ensures { result ≡ step_operator up }
{
    if up { BinOp::Add } else { BinOp::Sub }
}

// The value of a step: the old one, or the new one.
fn value_of_step(after: bool, old: u32, new: u32) -> u32
    ensures { result ≡ (if after then old else new) }
{
    if after { old } else { new }
}

/// How a variable is reached.
pub(crate) fn access_to(slot: u32, outer: Option<u32>) -> Access
    ensures { result ≡ access_of_slot slot outer }
{
    match outer {
        None => Access::Own(slot),
        Some(number) => Access::Common(Where::Outer(number)),
    }
}

/// A place, once its index is in this register.
pub(crate) fn access(tables: &Tables<'_>, r: u32, p: &Spot) -> Access
    ensures { result ≡ place_of tables.now.globals.now tables.now.body.now r p.now }
{
    match p {
        Spot::Global(g) => Access::Common(Where::Word(base_of(tables, *g))),
        Spot::Element(g, index) => {
            let o = operand(r, index.get());
            Access::Common(Where::Element(base_of(tables, *g), o))
        }
        Spot::Register(x) => Access::Common(Where::PsReg(*x)),
        Spot::Local(slot) => access_to(*slot, outer_in(tables, *slot)),
    }
}

// Appends the quad that reads a place, once its index is in the first register, and tells the register
// that it reads into.
fn put_read(
    code: &mut Vec<Placed>,
    tables: &Tables<'_>,
    r: u32,
    p: &Spot,
    line: u32,
) -> Result<u32, AllocError>
    ensures register { IfOk result (λ old. old ≡ r + held_of p.now) }
    ensures code { OnOk result (Appends (λ at. read_code tables.now.globals.now tables.now.body.now r line p.now) code.old.items code.new.items) }
{
    let old = behind(r, p)?;
    put(code, reading(old, access(tables, r, p)), line)?;
    Ok(old)
}

// Appends what stands behind the value of an assignment.
fn put_assigned(
    code: &mut Vec<Placed>,
    tables: &Tables<'_>,
    r: u32,
    p: &Spot,
    o: Operand,
    line: u32,
) -> Result<(), AllocError>
    ensures { OnOk result (Appends (λ at. assigned_code tables.now.globals.now tables.now.body.now r line p.now o) code.old.items code.new.items) }
{
    put(code, writing(access(tables, r, p), o), line)?;
    put(code, Quad::Copy(r, o), line)
}

// Appends what stands behind the value of an update of what was read into a register.
fn put_updated(
    code: &mut Vec<Placed>,
    tables: &Tables<'_>,
    r: u32,
    old: u32,
    op: BinOp,
    p: &Spot,
    o: Operand,
    line: u32,
) -> Result<(), AllocError>
    ensures { OnOk result (Appends (λ at. updated_code tables.now.globals.now tables.now.body.now r old line op p.now o) code.old.items code.new.items) }
{
    put(code, Quad::Binary(op, old, Operand::Reg(old), o), line)?;
    put_assigned(code, tables, r, p, Operand::Reg(old), line)
}

// Appends what stands behind the index of a step.
fn put_stepped(
    code: &mut Vec<Placed>,
    tables: &Tables<'_>,
    r: u32,
    p: &Spot,
    up: bool,
    after: bool,
    line: u32,
) -> Result<(), AllocError>
    ensures { OnOk result (Appends (λ at. stepped_code tables.now.globals.now tables.now.body.now r line p.now up after) code.old.items code.new.items) }
{
    let old = behind(r, p)?;
    let new = next(old)?;
    put(code, reading(old, access(tables, r, p)), line)?;
    let stepped = Quad::Binary(
        operator_of_step(up),
        new,
        Operand::Reg(old),
        Operand::Literal(1),
    );
    put(code, stepped, line)?;
    put(code, writing(access(tables, r, p), Operand::Reg(new)), line)?;
    put(
        code,
        Quad::Copy(r, Operand::Reg(value_of_step(after, old, new))),
        line,
    )
}

// Appends what stands behind the values of a call.
fn put_call(
    values: &[Expr],
    function: u32,
    code: &mut Vec<Placed>,
    line: u32,
    r: u32,
) -> Result<(), AllocError>
    ensures { OnOk result (Appends (call_code line r function values.now) code.old.items code.new.items) }
{
    emit_arguments(values, code, line, 0, r)?;
    put(code, Quad::Call(function), line)?;
    put(code, Quad::Result(r), line)?;
    Ok(())
}

/// Appends the quads of an expression. They may use the registers from this one on, and leave its
/// value in this one, if it is no number that the text gives.
#[cycle(emit)]
pub fn emit_expression(
    e: &Expr,
    code: &mut Vec<Placed>,
    tables: &Tables<'_>,
    r: u32,
) -> Result<(), AllocError>
    ensures { OnOk result (Appends (expression_code tables.now.globals.now tables.now.body.now r e.now) code.old.items code.new.items) }
{
    let line = e.at.line;
    match &e.kind {
        ExprKind::Number(_) => Ok(()),
        ExprKind::Dollar => put(code, Quad::Dollar(r), line),
        ExprKind::Read(p) => {
            emit_spot(p, code, tables, r, line)?;
            put(code, reading(r, access(tables, r, p)), line)
        }
        ExprKind::Unary(op, a) => {
            let a = a.get();
            emit_expression(a, code, tables, r)?;
            put(code, Quad::Unary(*op, r, operand(r, a)), line)
        }
        ExprKind::Binary(_, _, _) => emit_binary(e, code, tables, r),
        ExprKind::Call(_, _) => emit_call(e, code, tables, r),
        ExprKind::Assign(_, _) => emit_assign(e, code, tables, r),
        ExprKind::Update(_, _, _) => emit_update(e, code, tables, r),
        ExprKind::Step { .. } => emit_step(e, code, tables, r),
        ExprKind::Both(_, _) => emit_both(e, code, tables, r),
        ExprKind::Either(_, _) => emit_either(e, code, tables, r),
        ExprKind::Choose(_, _, _) => emit_choose(e, code, tables, r),
    }
}

// A binary operation: the left operand is computed first.
#[cycle(emit)]
fn emit_binary(
    e: &Expr,
    code: &mut Vec<Placed>,
    tables: &Tables<'_>,
    r: u32,
) -> Result<(), AllocError>
    requires { IsBinary e.now.kind }
    ensures { OnOk result (Appends (expression_code tables.now.globals.now tables.now.body.now r e.now) code.old.items code.new.items) }
{
    let line = e.at.line;
    match &e.kind {
        ExprKind::Binary(op, a, b) => {
            let a = a.get();
            let b = b.get();
            let second = next(r)?;
            emit_expression(a, code, tables, r)?;
            emit_expression(b, code, tables, second)?;
            let joined = Quad::Binary(*op, r, operand(r, a), operand(second, b));
            put(code, joined, line)
        }
        _ => Ok(()),
    }
}

// A call: its values, and then the argument list.
#[cycle(emit)]
fn emit_call(
    e: &Expr,
    code: &mut Vec<Placed>,
    tables: &Tables<'_>,
    r: u32,
) -> Result<(), AllocError>
    requires { IsCall e.now.kind }
    ensures { OnOk result (Appends (expression_code tables.now.globals.now tables.now.body.now r e.now) code.old.items code.new.items) }
{
    let line = e.at.line;
    match &e.kind {
        ExprKind::Call(function, values) => {
            let values = values.as_slice();
            emit_values(values, code, tables, r)?;
            put_call(values, *function, code, line, r)
        }
        _ => Ok(()),
    }
}

// `=`: the place is tested before the value is computed.
#[cycle(emit)]
fn emit_assign(
    e: &Expr,
    code: &mut Vec<Placed>,
    tables: &Tables<'_>,
    r: u32,
) -> Result<(), AllocError>
    requires { IsAssign e.now.kind }
    ensures { OnOk result (Appends (expression_code tables.now.globals.now tables.now.body.now r e.now) code.old.items code.new.items) }
{
    let line = e.at.line;
    match &e.kind {
        ExprKind::Assign(p, e) => {
            let e = e.get();
            let free = behind(r, p)?;
            emit_spot(p, code, tables, r, line)?;
            emit_expression(e, code, tables, free)?;
            put_assigned(code, tables, r, p, operand(free, e), line)
        }
        _ => Ok(()),
    }
}

// `+=` and its like: the place is read before the value is computed.
#[cycle(emit)]
fn emit_update(
    e: &Expr,
    code: &mut Vec<Placed>,
    tables: &Tables<'_>,
    r: u32,
) -> Result<(), AllocError>
    requires { IsUpdate e.now.kind }
    ensures { OnOk result (Appends (expression_code tables.now.globals.now tables.now.body.now r e.now) code.old.items code.new.items) }
{
    let line = e.at.line;
    match &e.kind {
        ExprKind::Update(op, p, e) => {
            let e = e.get();
            emit_spot(p, code, tables, r, line)?;
            let old = put_read(code, tables, r, p, line)?;
            let value = next(old)?;
            emit_expression(e, code, tables, value)?;
            put_updated(code, tables, r, old, *op, p, operand(value, e), line)
        }
        _ => Ok(()),
    }
}

// `++` and `--`.
#[cycle(emit)]
fn emit_step(
    e: &Expr,
    code: &mut Vec<Placed>,
    tables: &Tables<'_>,
    r: u32,
) -> Result<(), AllocError>
    requires { IsStep e.now.kind }
    ensures { OnOk result (Appends (expression_code tables.now.globals.now tables.now.body.now r e.now) code.old.items code.new.items) }
{
    let line = e.at.line;
    match &e.kind {
        ExprKind::Step { spot, up, after } => {
            emit_spot(spot, code, tables, r, line)?;
            put_stepped(code, tables, r, spot, *up, *after, line)
        }
        _ => Ok(()),
    }
}

// `&&`: the second operand is computed where the first is not 0.
#[cycle(emit)]
fn emit_both(
    e: &Expr,
    code: &mut Vec<Placed>,
    tables: &Tables<'_>,
    r: u32,
) -> Result<(), AllocError>
    requires { IsBoth e.now.kind }
    ensures { OnOk result (Appends (expression_code tables.now.globals.now tables.now.body.now r e.now) code.old.items code.new.items) }
{
    let line = e.at.line;
    match &e.kind {
        ExprKind::Both(a, b) => {
            let a = a.get();
            let b = b.get();
            emit_expression(a, code, tables, r)?;
            let skip = reserve(code, line)?;
            emit_tested(b, code, tables, r, line)?;
            let jump = reserve(code, line)?;
            put(code, Quad::Copy(r, Operand::Literal(0)), line)?;
            close_choice(code, skip, true, operand(r, a), jump, line)
        }
        _ => Ok(()),
    }
}

// `||`: the second operand is computed where the first is 0.
#[cycle(emit)]
fn emit_either(
    e: &Expr,
    code: &mut Vec<Placed>,
    tables: &Tables<'_>,
    r: u32,
) -> Result<(), AllocError>
    requires { IsEither e.now.kind }
    ensures { OnOk result (Appends (expression_code tables.now.globals.now tables.now.body.now r e.now) code.old.items code.new.items) }
{
    let line = e.at.line;
    match &e.kind {
        ExprKind::Either(a, b) => {
            let a = a.get();
            let b = b.get();
            emit_expression(a, code, tables, r)?;
            let skip = reserve(code, line)?;
            emit_tested(b, code, tables, r, line)?;
            let jump = reserve(code, line)?;
            put(code, Quad::Copy(r, Operand::Literal(1)), line)?;
            close_choice(code, skip, false, operand(r, a), jump, line)
        }
        _ => Ok(()),
    }
}

// `?:`
#[cycle(emit)]
fn emit_choose(
    e: &Expr,
    code: &mut Vec<Placed>,
    tables: &Tables<'_>,
    r: u32,
) -> Result<(), AllocError>
    requires { IsChoose e.now.kind }
    ensures { OnOk result (Appends (expression_code tables.now.globals.now tables.now.body.now r e.now) code.old.items code.new.items) }
{
    let line = e.at.line;
    match &e.kind {
        ExprKind::Choose(test, a, b) => {
            let test = test.get();
            emit_expression(test, code, tables, r)?;
            let skip = reserve(code, line)?;
            emit_side(a.get(), code, tables, r, line)?;
            let jump = reserve(code, line)?;
            emit_side(b.get(), code, tables, r, line)?;
            close_choice(code, skip, true, operand(r, test), jump, line)
        }
        _ => Ok(()),
    }
}

// An expression, and whether its value is other than 0.
#[cycle(emit)]
fn emit_tested(
    e: &Expr,
    code: &mut Vec<Placed>,
    tables: &Tables<'_>,
    r: u32,
    line: u32,
) -> Result<(), AllocError>
    ensures { OnOk result (Appends (tested_code tables.now.globals.now tables.now.body.now r line e.now) code.old.items code.new.items) }
{
    emit_expression(e, code, tables, r)?;
    let test = Quad::Binary(BinOp::Ne, r, operand(r, e), Operand::Literal(0));
    put(code, test, line)
}

// An expression whose value is left in the register, also where it is a number.
#[cycle(emit)]
fn emit_side(
    e: &Expr,
    code: &mut Vec<Placed>,
    tables: &Tables<'_>,
    r: u32,
    line: u32,
) -> Result<(), AllocError>
    ensures { OnOk result (Appends (side_code tables.now.globals.now tables.now.body.now r line e.now) code.old.items code.new.items) }
{
    emit_expression(e, code, tables, r)?;
    put(code, Quad::Copy(r, operand(r, e)), line)
}

/// Appends a place: the index of an element, and its test.
#[cycle(emit)]
pub(crate) fn emit_spot(
    p: &Spot,
    code: &mut Vec<Placed>,
    tables: &Tables<'_>,
    r: u32,
    line: u32,
) -> Result<(), AllocError>
    ensures { OnOk result (Appends (spot_code tables.now.globals.now tables.now.body.now r line p.now) code.old.items code.new.items) }
{
    match p {
        Spot::Element(g, index) => {
            let index = index.get();
            emit_expression(index, code, tables, r)?;
            let test = Quad::Test(operand(r, index), size_of(tables, *g));
            put(code, test, line)
        }
        Spot::Global(_) | Spot::Register(_) | Spot::Local(_) => Ok(()),
    }
}

/// Appends values from left to right, each in a register of its own.
#[cycle(emit)]
pub(crate) fn emit_values(
    values: &[Expr],
    code: &mut Vec<Placed>,
    tables: &Tables<'_>,
    r: u32,
) -> Result<(), AllocError>
    ensures { OnOk result (Appends (values_code tables.now.globals.now tables.now.body.now r values.now) code.old.items code.new.items) }
{
    let mut register = r;
    for e in values {
        emit_expression(e, code, tables, register)?;
        register = next(register)?;
    }
    Ok(())
}

/// Appends those values as arguments, from this place of the list on.
pub(crate) fn emit_arguments(
    values: &[Expr],
    code: &mut Vec<Placed>,
    line: u32,
    k: u32,
    r: u32,
) -> Result<(), AllocError>
    ensures { OnOk result (Appends (arguments_code line k r values.now) code.old.items code.new.items) }
{
    let mut place = k;
    let mut register = r;
    for e in values {
        put(code, Quad::Argument(place, operand(register, e)), line)?;
        place = next(place)?;
        register = next(register)?;
    }
    Ok(())
}

/// Where the value of an expression is found, or this number where there is none.
pub(crate) fn option_operand(r: u32, default: u32, e: &Option<Boxed<Expr>>) -> Operand
    ensures { result ≡ option_operand_of r default e.now }
{
    match e {
        None => Operand::Literal(default),
        Some(e) => operand(r, e.get()),
    }
}

/// Appends an expression where there is one.
pub(crate) fn emit_option(
    e: &Option<Boxed<Expr>>,
    code: &mut Vec<Placed>,
    tables: &Tables<'_>,
    r: u32,
) -> Result<(), AllocError>
    ensures { OnOk result (Appends (option_code tables.now.globals.now tables.now.body.now r e.now) code.old.items code.new.items) }
{
    match e {
        None => Ok(()),
        Some(e) => emit_expression(e.get(), code, tables, r),
    }
}
