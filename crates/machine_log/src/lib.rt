//! Law `threads_have_traces`: in a lawful log over the words of the machine, of which each thread did its part,
//! that part, with the trap at which the thread stands, is a trace of the image, in as many instructions as it
//! took.
#![tactic(auto)]

ghost use Rattle.machine_log.specs.Traces.{ThreadsHaveTraces};

/// Each thread of a log has its part for a trace of the image, in as many instructions as it took.
pub fn threads_have_traces()
    ensures { ThreadsHaveTraces }
{}
