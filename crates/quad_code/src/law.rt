//! What the quads of a program do.
ghost use Rattle.quad_code.specs.Whole.{QuadsHavePaidTraces};

/// Each trace of the quads of a program is one of the program, with a work of at most 64 for each
/// step and 40 more, and of no more than 64 for each step once the thread has ended. It does
/// nothing when it runs.
pub fn quads_have_paid_traces()
    ensures { QuadsHavePaidTraces }
{}
