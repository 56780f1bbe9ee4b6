//! Law `quads_keep_limits`: the quads of a program weigh at most 64 a node of its tree, their registers are those
//! of the variables and as many more as values wait, and all else that they name is there.
#![tactic(auto)]

ghost use Rattle.quad_limits.specs.Limits.{NamesAreThere, QuadsAreLight, RegistersAreFew};

/// The weights of the quads of a program add up to at most 64 for each node of its tree, and the
/// quads of a function name the registers of its variables and as many more as values wait in it.
/// What else they name is there, and their jumps stay in the function.
/// It does nothing when it runs.
pub fn quads_keep_limits()
    ensures light { QuadsAreLight }
    ensures registers { RegistersAreFew }
    ensures names { NamesAreThere }
{}
