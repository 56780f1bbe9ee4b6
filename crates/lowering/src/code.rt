//! Code on its way: quads with their lines, to which more are appended.
ghost use Rattle.std.specs.Prelude.{◌≡◌, ◌+◌, ◌++◌, [], ◌∷◌, length, slice_set, IfOk, OnOk};
ghost use Rattle.lowering.specs.Emitted.{jump_unless, choice_closed};

use std::alloc::AllocError;
use xmt_quads::{Operand, Quad};

/// A quad with its source line.
#[derive(Clone, Copy)]
pub struct Placed {
    pub quad: Quad,
    pub line: u32,
}

/// Appends a quad.
pub(crate) fn put(code: &mut Vec<Placed>, quad: Quad, line: u32) -> Result<(), AllocError>
    ensures { OnOk result (code.new.items ≡ code.old.items ++ record { quad = quad; line = line } ∷ []) }
{
    code.push(Placed { quad, line })?;
    Ok(())
}

/// The position behind the code. More than 2^32 - 1 quads have no room.
pub(crate) fn position(code: &[Placed]) -> Result<u32, AllocError>
    ensures { IfOk result (λ at. at ≡ length code.now) }
{
    match u32::try_from(code.len()) {
        Ok(at) => Ok(at),
        Err(_) => Err(AllocError),
    }
}

/// The register or position behind this one. There is none behind 2^32 - 1.
pub(crate) fn next(number: u32) -> Result<u32, AllocError>
    ensures { IfOk result (λ n. n ≡ number + 1) }
{
    match number.checked_add(1) {
        Some(n) => Ok(n),
        None => Err(AllocError),
    }
}

/// Writes another quad over the one at a position.
pub(crate) fn patch(code: &mut Vec<Placed>, at: u32, quad: Quad, line: u32)
    ensures { code.new.items ≡ slice_set code.old.items at (record { quad = quad; line = line }) }
{
    if let Some(placed) = code.get_mut(at as usize) {
        *placed = Placed { quad, line };
    }
}

/// Appends a jump that is written over later, and tells where it stands.
pub(crate) fn reserve(code: &mut Vec<Placed>, line: u32) -> Result<u32, AllocError>
    ensures place { IfOk result (λ at. at ≡ length code.old.items) }
    ensures code { OnOk result (code.new.items ≡ code.old.items ++ record { quad = Quad.Jump 0; line = line } ∷ []) }
{
    let at = position(code.as_slice())?;
    put(code, Quad::Jump(0), line)?;
    Ok(at)
}

// The jump that a test makes: where its value is 0, or where it is another number.
fn jump_unless(holds: bool, o: Operand, to: u32) -> Quad
    ensures { result ≡ jump_unless holds o to }
{
    if holds {
        Quad::IfZero(o, to)
    } else {
        Quad::IfNot(o, to)
    }
}

/// Writes the two jumps of a choice, once both of its sides stand: the one past the first side,
/// which is taken unless the test holds (or fails), and the one past the second side.
pub(crate) fn close_choice(
    code: &mut Vec<Placed>,
    skip: u32,
    holds: bool,
    o: Operand,
    jump: u32,
    line: u32,
) -> Result<(), AllocError>
    ensures { OnOk result (code.new.items ≡ choice_closed code.old.items skip (jump_unless holds o) jump line) }
{
    let end = position(code.as_slice())?;
    let second = next(jump)?;
    patch(code, skip, jump_unless(holds, o, second), line);
    patch(code, jump, Quad::Jump(end), line);
    Ok(())
}
