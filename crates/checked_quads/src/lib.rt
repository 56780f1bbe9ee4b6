//! Law `checked_programs_have_quads`: a checked program within the limits has all that its quads ask of it.
#![tactic(auto)]

ghost use Rattle.checked_quads.specs.Law.{CheckedProgramsAreKnown, CheckedProgramsHaveWords};

/// All names are known in a checked program within the limits, and each of its globals has a word.
/// It does nothing when it runs.
pub fn checked_programs_have_quads()
    ensures known { CheckedProgramsAreKnown }
    ensures words { CheckedProgramsHaveWords }
{}
