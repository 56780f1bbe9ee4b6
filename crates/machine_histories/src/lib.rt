//! Law `histories_merge`: a legal history of the shared words is a lawful order of the requests of the units of a
//! section, and so a legal schedule of the machine.
#![tactic(auto)]

ghost use Rattle.machine_histories.specs.Histories.{HistoriesMerge};

/// A legal history of a section, with what each unit did alone, is a run by a legal schedule.
pub fn histories_merge()
    ensures { HistoriesMerge }
{}
