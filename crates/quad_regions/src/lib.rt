//! Law `quads_have_regions`: in the quads that are stated for a program each spawn has its join, and jumps lead
//! into blocks from inside them alone.
#![tactic(auto)]

ghost use Rattle.quad_regions.specs.Law.{QuadsHaveRegions};

/// In the quads of a program whose names are known each spawn has its join, jumps lead into blocks
/// from inside them alone, and what may not stand in blocks, or in what they call, stands elsewhere.
/// It does nothing when it runs.
pub fn quads_have_regions()
    ensures { QuadsHaveRegions }
{}
