//! Law `runs_have_logs`: each legal run of the machine of a valid image, on any number of units, has a lawful log
//! of shared actions of which each thread did exactly its part; words and output are what the replay of the log
//! gives, and units stand where their threads do.
#![tactic(auto)]

ghost use Rattle.machine_runs.specs.Runs.{RunsHaveLogs};

/// Each run of the machine of a valid image by a legal schedule has a lawful log, in which each
/// thread by itself does exactly its part.
pub fn runs_have_logs()
    ensures { RunsHaveLogs }
{}
