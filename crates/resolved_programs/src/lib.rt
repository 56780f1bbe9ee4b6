//! Laws: the program of a tree that the tokens of a source spell, where it breaks no rule of names and types, keeps
//! to the limits, and is checked where it meets no line of the table of spawn blocks.
#![tactic(auto)]

ghost use Rattle.resolved_programs.specs.Law.{ResolvedProgramsAreChecked, ResolvedProgramsHaveFewNodes, ResolvedProgramsKeepLimits};

/// The program of a tree that breaks no rule of names and types is checked where it meets no line of
/// the table of spawn blocks, and it keeps to the limits. It does nothing when it runs.
pub fn resolved_programs_are_sound()
    ensures checked { ResolvedProgramsAreChecked }
    ensures limits { ResolvedProgramsKeepLimits }
    ensures nodes { ResolvedProgramsHaveFewNodes }
{}
