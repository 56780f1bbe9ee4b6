//! A program whose virtual registers all live in slots broadcasts nothing.
ghost use Rattle.std.specs.Prelude.{◌≡◌, All};
ghost use Rattle.xmt_quads.specs.Allocation.{HasOwnSlots};
ghost use Rattle.broadcast.specs.Masks.{AreMasks};

use xmt_quads::{Allocation, QuadProgram};

/// Where each virtual register lives in a slot of its own, each mask is 0.
pub fn slots_have_no_masks(_program: &QuadProgram, _allocation: &Allocation, _masks: &[u32])
    requires masks { AreMasks _program.now _allocation.now.homes _masks.now }
    requires slots { All HasOwnSlots _allocation.now.homes }
    ensures { All (λ mask. mask ≡ 0) _masks.now }
{}
