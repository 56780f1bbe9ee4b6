//! Law `thin_sources_are_accepted`: a thin source is accepted by the rules of the whole language, as the same
//! program.
#![tactic(auto)]

ghost use Rattle.thin_law.specs.Law.{ThinSourcesAreAccepted};

/// A thin source is accepted by the rules of the whole language, as the same program. It does
/// nothing when it runs.
pub fn thin_sources_are_accepted()
    ensures { ThinSourcesAreAccepted }
{}
