//! Code on its way.
ghost use Rattle.std.specs.Prelude.{◌≡◌, ◌∷◌, [], OnOk};
ghost use Rattle.emit.specs.Emitted.{Appends};

use sqlite_items::Items;
use std::alloc::{AllocError, Global};
use xmt_isa::Instr;

/// Instructions with their lines.
#[derive(Drop)]
pub(crate) struct Code {
    pub code: Items<Instr>,
    pub lines: Items<u32>,
}

/// No code.
pub(crate) fn no_code(alloc: Global) -> Code
    ensures code { result.code ≡ [] }
    ensures lines { result.lines ≡ [] }
{
    Code {
        code: Items::new(alloc),
        lines: Items::new(alloc),
    }
}

/// One more instruction.
pub(crate) fn one(code: &mut Code, line: u32, a: Instr) -> Result<(), AllocError>
    ensures { OnOk result (Appends code.old code.new line (a ∷ [])) }
{
    code.code.push(a)?;
    code.lines.push(line)?;
    Ok(())
}

/// Two more.
pub(crate) fn two(code: &mut Code, line: u32, a: Instr, b: Instr) -> Result<(), AllocError>
    ensures { OnOk result (Appends code.old code.new line (a ∷ b ∷ [])) }
{
    one(code, line, a)?;
    one(code, line, b)?;
    Ok(())
}

/// Three more.
pub(crate) fn three(
    code: &mut Code,
    line: u32,
    a: Instr,
    b: Instr,
    c: Instr,
) -> Result<(), AllocError>
    ensures { OnOk result (Appends code.old code.new line (a ∷ b ∷ c ∷ [])) }
{
    one(code, line, a)?;
    two(code, line, b, c)?;
    Ok(())
}

/// Four more.
pub(crate) fn four(
    code: &mut Code,
    line: u32,
    a: Instr,
    b: Instr,
    c: Instr,
    d: Instr,
) -> Result<(), AllocError>
    ensures { OnOk result (Appends code.old code.new line (a ∷ b ∷ c ∷ d ∷ [])) }
{
    one(code, line, a)?;
    three(code, line, b, c, d)?;
    Ok(())
}
