//! Law `images_have_paid_traces`: each trace of the image of a well-formed quad program is a trace of the quads,
//! whose work is at least the number of instructions less 24, and at least that number once the thread has ended.
#![tactic(auto)]

ghost use Rattle.quad_image_law.specs.Law.{ImagesHavePaidTraces};

/// Each trace of the image of a well-formed quad program is one of the quads, with a work of at
/// least the instructions less 24, and of at least the instructions once the thread has ended. It
/// does nothing when it runs.
pub fn images_have_paid_traces()
    ensures { ImagesHavePaidTraces }
{}
