//! To which quads a program is lowered, as a definition. Law `lowered_programs_are_well_formed`: for a checked
//! program within the limits they are well formed.
#![tactic(auto)]

ghost use Rattle.lowered_quads.specs.Law.{LoweredProgramsAreWellFormed};

/// The quads to which a checked program within the limits is lowered are well formed.
/// It does nothing when it runs.
pub fn lowered_programs_are_well_formed()
    ensures { LoweredProgramsAreWellFormed }
{}
