//! What holds of valid images.
ghost use Rattle.std.specs.Prelude.{◌≡◌, ℕ, Some, slice_get};
ghost use Rattle.xmt_isa.specs.declared.image.Image.{Image};
ghost use Rattle.xmt_isa.specs.declared.image.Instr.{Instr};
ghost use Rattle.xmt_isa.specs.declared.operation.Operation.{Operation};
ghost use Rattle.xmt_isa.specs.Operation.{operation_of};
ghost use Rattle.xmt_isa.specs.Flow.{IsSound};
ghost use Rattle.xmt_isa.specs.Valid.{IsValid};

/// Each instruction of a valid image has a meaning and its operands, and leads to one of its own
/// function, in the same block or, as it does, outside all blocks.
pub fn valid_images_are_sound()
    ensures { (image : Image) → IsValid image → (at : ℕ) (i : Instr) → slice_get image.code at ≡ Some i → (operation : Operation) × (operation_of i ≡ Some operation) × IsSound image at i operation }
{}
