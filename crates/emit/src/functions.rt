//! The code of a function.
ghost use Rattle.std.specs.Prelude.{◌≡◌, ◌+◌, ◌<◌, ◌^◌, IfOk, OnOk};
ghost use Rattle.quad_images.specs.Image.{size_of};
ghost use Rattle.emit.specs.Emitted.{AppendsFunction, IsEmittable, slot_at, places_from};

use crate::blocks::{go_on, outside};
use crate::code::Code;
use crate::quads::{push_quad, size};
use std::alloc::{AllocError, Global};
use xmt_quads::{Home, Quad, QuadFunction};

// Where each quad begins.
fn places_of(alloc: Global, quads: &[Quad], start: u32) -> Result<Vec<u32>, AllocError>
    requires { start + size_of quads.now < 2 ^ 32 }
    ensures { IfOk result (λ places. places.items ≡ places_from start quads.now) }
{
    let mut places = Vec::new(alloc);
    let mut at = start;
    for q in quads {
        places.push(at)?;
        at += size(q);
    }
    Ok(places)
}

/// The code of a function that begins there.
pub(crate) fn push_function(
    alloc: Global,
    code: &mut Code,
    homes: &[Home],
    f: &QuadFunction,
    start: u32,
) -> Result<(), AllocError>
    requires emittable { IsEmittable f.now }
    requires room { start + size_of f.now.quads < 2 ^ 32 }
    ensures { OnOk result (AppendsFunction code.old code.new (slot_at homes.now) start f.now) }
{
    let quads = f.quads.as_slice();
    let lines = f.lines.as_slice();
    let places = places_of(alloc, quads, start)?;
    let mut own = outside(alloc);
    for i in 0..quads.len() {
        push_quad(code, homes, &own, places.as_slice(), lines[i], quads[i])?;
        go_on(alloc, &mut own, quads[i], &quads[i + 1..], f.registers)?;
    }
    Ok(())
}
