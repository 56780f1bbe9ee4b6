//! What one unit does by itself, in its requests and behind their replies, as definitions. Law
//! `units_of_valid_images_fit`: whatever one unit of a valid image does, it goes on to stand where it may, the
//! serial code in the main function and what it calls, outside all blocks, a virtual thread in its block and what
//! that calls. It asks only for words of the table that threads share, for an increment of 0 or 1 where that is a
//! register, and for texts with at most 16 values; the master alone spawns, prints and halts, and it halts exactly
//! by a return at depth 0.
#![tactic(auto)]

ghost use Rattle.xmt_isa.specs.declared.image.Image.{Image};
ghost use Rattle.xmt_isa.specs.Valid.{IsValid};
ghost use Rattle.unit_steps.specs.Keeps.{KeepsFit};

/// Whatever a unit of a valid image does, alone or behind its requests, it goes on to fit the
/// image, and asks only for words, numbers and texts that are there.
pub fn units_of_valid_images_fit()
    ensures { (image : Image) → IsValid image → KeepsFit image }
{}
