//! How many programs a source has.
ghost use Rattle.front_end.specs.Law.{SourcesHaveOneProgram, BrokenSourcesHaveNone};

/// A source has at most one program, and one that breaks a rule has none.
/// It does nothing when it runs.
pub fn sources_have_one_program()
    ensures one { SourcesHaveOneProgram }
    ensures none { BrokenSourcesHaveNone }
{}
