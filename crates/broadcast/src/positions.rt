//! For each position of a function, the machine registers that hold a live virtual register.
ghost use Rattle.std.specs.Prelude.{◌≡◌, ◌<◌, ◌+◌, length, All, OnOk, IfOk};
ghost use Rattle.xmt_quads.specs.Allocation.{IsHome};
ghost use Rattle.broadcast.specs.Positions.{IsWith, AreWith, AreMasksBelow};
ghost use Rattle.broadcast.specs.Masks.{ArePositionMasks};

use liveness::live_positions;
use std::alloc::{AllocError, Global};
use xmt_quads::{Home, Quad};

// A mask with this machine register, if what it holds is live.
fn with(mask: u32, register: u8, live: bool) -> u32
    requires { register < 32 }
    ensures { IsWith live register mask result }
{
    if live {
        mask | 1 << u32::from(register)
    } else {
        mask
    }
}

// Adds a machine register to the masks of the marked positions.
fn add(masks: &mut [u32], register: u8, marks: &[bool])
    requires register { register < 32 }
    requires one_for_each { length marks.now ≡ length masks.old }
    ensures { AreWith register marks.now masks.old masks.new }
{
    for (at, live) in marks.iter().enumerate() {
        masks[at] = with(masks[at], register, *live);
    }
}

// Adds the home of a virtual register to the masks of the positions where it is live.
fn add_home(
    alloc: Global,
    quads: &[Quad],
    homes: &[Home],
    number: u32,
    masks: &mut [u32],
) -> Result<(), AllocError>
    requires number { number < length homes.now }
    requires homes { All IsHome homes.now }
    requires room { length masks.old ≡ length quads.now }
    requires before { AreMasksBelow quads.now homes.now number masks.old }
    ensures { OnOk result (AreMasksBelow quads.now homes.now (number + 1) masks.new) }
{
    match homes[number as usize] {
        Home::Reg(register) => {
            let marks = live_positions(alloc, quads, number)?;
            add(masks, register, marks.as_slice());
            Ok(())
        }
        Home::Slot(_) => Ok(()),
    }
}

/// The mask of each position. Where all registers live in slots, this takes one step a position.
pub(crate) fn position_masks(
    alloc: Global,
    quads: &[Quad],
    homes: &[Home],
    registers: u32,
) -> Result<Vec<u32>, AllocError>
    requires registers { length homes.now ≡ registers }
    requires homes { All IsHome homes.now }
    ensures { IfOk result (λ masks. ArePositionMasks quads.now homes.now masks.items) }
{
    let mut masks = vec![in alloc; 0u32; quads.len()]?;
    for number in 0..registers {
        add_home(alloc, quads, homes, number, masks.as_mut_slice())?;
    }
    Ok(masks)
}
