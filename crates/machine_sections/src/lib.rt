//! Law `sections_merge`: what the units of a section do, each by itself, and a lawful order of their requests are a
//! legal schedule of the machine.
#![tactic(auto)]

ghost use Rattle.machine_sections.specs.Merge.{SectionsMerge};

/// What the units of a section do, each by itself, in a lawful order of their requests, is a run by
/// a legal schedule.
pub fn sections_merge()
    ensures { SectionsMerge }
{}
