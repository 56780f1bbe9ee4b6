//! Law `quads_have_live_registers`: in the quads that are stated for a program no register is live where a function
//! begins, and a block writes none that is live where the block begins.
#![tactic(auto)]

ghost use Rattle.quad_live_registers.specs.Law.{QuadsHaveLiveRegisters};

/// In the quads of a program whose names are known no register is live where a function begins, and a
/// block writes none that is live where the block begins. It does nothing when it runs.
pub fn quads_have_live_registers()
    ensures { QuadsHaveLiveRegisters }
{}
