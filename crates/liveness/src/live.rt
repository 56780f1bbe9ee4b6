//! The registers that are live at a position.
ghost use Rattle.std.specs.Prelude.{◌≡◌, ◌↔◌, true, IfOk};
ghost use Rattle.xmt_quads.specs.Live.{IsLive};
ghost use Rattle.liveness.specs.Live.{AreLive};

use crate::marking::{is_marked, live_positions};
use crate::operands::read_bound;
use std::alloc::{AllocError, Global};
use xmt_quads::{Quad, QuadFunction};

fn is_live(alloc: Global, quads: &[Quad], register: u32, at: u32) -> Result<bool, AllocError>
    ensures { IfOk result (λ live. (live ≡ true) ↔ IsLive quads.now register at) }
{
    let marks = live_positions(alloc, quads, register)?;
    Ok(is_marked(marks.as_slice(), at as usize))
}

/// The registers that some path from a position reads before it writes them, rising. Want of
/// memory is the only error.
pub fn live_in(alloc: Global, function: &QuadFunction, at: u32) -> Result<Vec<u32>, AllocError>
    ensures { IfOk result (λ registers. AreLive function.now.quads at registers.items) }
{
    let quads = function.quads.as_slice();
    let mut registers = Vec::new(alloc);
    for register in 0..read_bound(quads) {
        if is_live(alloc, quads, register as u32, at)? {
            registers.push(register as u32)?;
        }
    }
    Ok(registers)
}
