//! The homes of virtual registers.
ghost use Rattle.std.specs.Prelude.{◌≡◌, ◌≤◌, map, All, IfOk};
ghost use Rattle.std.specs.List.{range_with_len};
ghost use Rattle.xmt_quads.specs.Allocation.{IsAllocationOf, HasOwnSlots};

use crate::QuadProgram;
use sqlite_items::Items;
use std::alloc::{AllocError, Global};

/// Where a virtual register lives.
#[derive(Clone, Copy, Debug, PartialEq, Eq)]
pub enum Home {
    /// In a machine register, from 8 to 27.
    Reg(u8),
    /// In a slot of the frame, below 456.
    Slot(u32),
}

/// The home of each virtual register, by function.
#[derive(Drop)]
pub struct Allocation {
    pub homes: Items<Items<Home>>,
}

/// Gives each virtual register a slot of its own.
pub fn plain(alloc: Global, program: &QuadProgram) -> Result<Allocation, AllocError>
    requires { All (λ function. function.registers ≤ 456) program.now.functions }
    ensures allocation { IfOk result (λ allocation. IsAllocationOf program.now allocation.homes) }
    ensures own_slots { IfOk result (λ allocation. All HasOwnSlots allocation.homes) }
{
    let mut homes = Items::new(alloc);
    for function in program.functions.as_slice() {
        homes.push(slots(alloc, function.registers)?)?;
    }
    Ok(Allocation { homes })
}

// The slots below a number.
fn slots(alloc: Global, count: u32) -> Result<Items<Home>, AllocError>
    ensures { IfOk result (λ homes. homes ≡ map (λ slot. Home.Slot slot) (range_with_len 0 count)) }
{
    let mut homes = Items::new(alloc);
    for slot in 0..count {
        homes.push(Home::Slot(slot))?;
    }
    Ok(homes)
}
