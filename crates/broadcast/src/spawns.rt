//! The masks of the spawns of a program.
ghost use Rattle.std.specs.Prelude.{◌≡◌, length, slice_index, All, OnOk, IfOk, if◌then◌else◌};
ghost use Rattle.xmt_quads.specs.Allocation.{IsHome, IsAllocationOf};
ghost use Rattle.xmt_quads.specs.Program.{is_spawn};
ghost use Rattle.broadcast.specs.Positions.{AreAdded};
ghost use Rattle.broadcast.specs.Masks.{AreFunctionMasks, AreMasks};

use crate::positions::position_masks;
use std::alloc::{AllocError, Global};
use xmt_quads::{Allocation, Home, Quad, QuadFunction, QuadProgram};

fn is_spawn(quad: &Quad) -> bool
    ensures { (if result then 1 else 0) ≡ is_spawn quad.now }
{
    match quad {
        Quad::Spawn(_, _) => true,
        _ => false,
    }
}

// The mask of a position. Nothing is live behind the last.
fn mask_at(positions: &[u32], at: usize) -> u32
    ensures { result ≡ slice_index positions.now at }
{
    match positions.get(at) {
        Some(mask) => *mask,
        None => 0,
    }
}

// Adds the mask of the position behind each spawn.
fn push_masks(quads: &[Quad], positions: &[u32], masks: &mut Vec<u32>) -> Result<(), AllocError>
    ensures { OnOk result (AreAdded quads.now positions.now masks.old.items masks.new.items) }
{
    for (at, quad) in quads.iter().enumerate() {
        if is_spawn(quad) {
            masks.push(mask_at(positions, at + 1))?;
        }
    }
    Ok(())
}

// Adds the masks of a function's spawns.
fn push_function(
    alloc: Global,
    function: &QuadFunction,
    homes: &[Home],
    masks: &mut Vec<u32>,
) -> Result<(), AllocError>
    requires registers { length homes.now ≡ function.now.registers }
    requires homes { All IsHome homes.now }
    ensures { OnOk result (AreFunctionMasks function.now.quads homes.now masks.old.items masks.new.items) }
{
    let quads = function.quads.as_slice();
    let positions = position_masks(alloc, quads, homes, function.registers)?;
    push_masks(quads, positions.as_slice(), masks)
}

/// One mask for each spawn, in the order of the program. Bit `r` is set where a virtual register
/// that lives in the machine register `r` is live behind the spawn, at the first position of its
/// block. Want of memory is the only error.
pub fn masks(
    alloc: Global,
    program: &QuadProgram,
    allocation: &Allocation,
) -> Result<Vec<u32>, AllocError>
    requires { IsAllocationOf program.now allocation.now.homes }
    ensures { IfOk result (λ masks. AreMasks program.now allocation.now.homes masks.items) }
{
    let functions = program.functions.as_slice();
    let homes = allocation.homes.as_slice();
    let mut masks = Vec::new(alloc);
    for number in 0..functions.len() {
        push_function(
            alloc,
            &functions[number],
            homes[number].as_slice(),
            &mut masks,
        )?;
    }
    Ok(masks)
}
