//! The quads of prefix-sums.
ghost use Rattle.quad_code.specs.Expressions.{adding as adding_code};
ghost use Rattle.std.specs.Prelude.{OnOk};
ghost use Rattle.lowering.specs.Emitted.{Appends};
ghost use Rattle.source_meaning.specs.declared.tree.Spot.TheVariants.{Register};
ghost use Rattle.lowering.specs.Stated.{sum_code, summed_code};

use crate::code::{Placed, next, put};
use crate::expressions::{access, behind, emit_spot, reading, writing};
use crate::tables::Tables;
use quad_code::Access;
use source_meaning::Spot;
use std::alloc::AllocError;
use xmt_quads::{BinOp, Operand, Quad, Where};

/// Appends the quads that add a value to a place and leave what the place held in a register.
fn emit_adding(
    to: Access,
    code: &mut Vec<Placed>,
    old: u32,
    value: Operand,
    line: u32,
) -> Result<(), AllocError>
    ensures { OnOk result (Appends (λ at. adding_code line old to value) code.old.items code.new.items) }
{
    match to {
        Access::Own(x) => {
            put(code, Quad::Copy(old, Operand::Reg(x)), line)?;
            put(
                code,
                Quad::Binary(BinOp::Add, x, Operand::Reg(x), value),
                line,
            )
        }
        Access::Common(place) => put(code, Quad::Add(old, place, value), line),
    }
}

// Appends what stands behind the index of a prefix-sum: what the variable held, which is in the first
// register, is added, and the variable is set to what the place held.
fn put_sum(
    to: Access,
    variable: &Spot,
    code: &mut Vec<Placed>,
    tables: &Tables<'_>,
    r: u32,
    old: u32,
    line: u32,
) -> Result<(), AllocError>
    ensures { OnOk result (Appends (λ at. summed_code tables.now.globals.now tables.now.body.now r line old to variable.now) code.old.items code.new.items) }
{
    emit_adding(to, code, old, Operand::Reg(r), line)?;
    let last = writing(access(tables, r, variable), Operand::Reg(old));
    put(code, last, line)
}

/// Appends a prefix-sum on a register: the variable's value is added to it, and what it held is then
/// the variable's value. The registers from this one on are free.
pub(crate) fn emit_ps(
    variable: &Spot,
    register: u32,
    code: &mut Vec<Placed>,
    tables: &Tables<'_>,
    r: u32,
    line: u32,
) -> Result<(), AllocError>
    ensures { OnOk result (Appends (sum_code tables.now.globals.now tables.now.body.now r line variable.now (Register register)) code.old.items code.new.items) }
{
    let old = next(r)?;
    put(code, reading(r, access(tables, r, variable)), line)?;
    let to = Access::Common(Where::PsReg(register));
    put_sum(to, variable, code, tables, r, old, line)
}

/// Appends a prefix-sum on a place, whose index is computed once the variable has been read.
pub(crate) fn emit_psm(
    variable: &Spot,
    place: &Spot,
    code: &mut Vec<Placed>,
    tables: &Tables<'_>,
    r: u32,
    line: u32,
) -> Result<(), AllocError>
    ensures { OnOk result (Appends (sum_code tables.now.globals.now tables.now.body.now r line variable.now place.now) code.old.items code.new.items) }
{
    let index = next(r)?;
    let old = behind(index, place)?;
    put(code, reading(r, access(tables, r, variable)), line)?;
    emit_spot(place, code, tables, index, line)?;
    let to = access(tables, index, place);
    put_sum(to, variable, code, tables, r, old, line)
}
