//! The generator that chooses the next unit of a picked run.
ghost use Rattle.std.specs.Prelude.{◌≡◌, ◌<◌};
ghost use Rattle.xmt_base.specs.Picker.{next_state, choice};

/// A linear congruential generator of 64 bits (Knuth's MMIX multiplier and increment).
#[derive(Drop)]
pub struct Picker {
    pub state: u64,
}

impl Picker {
    /// Starts at the seed.
    pub fn new(seed: u64) -> Picker
        ensures { result.state ≡ seed }
    {
        Picker { state: seed }
    }

    /// A number below `among`, from the next state.
    pub fn pick(&mut self, among: u32) -> u32
        requires { 0 < among }
        ensures state { self.new.state ≡ next_state self.old.state }
        ensures choice { result ≡ choice self.new.state among }
        ensures below { result < among }
    {
        self.state = self
            .state
            .wrapping_mul(6_364_136_223_846_793_005)
            .wrapping_add(1_442_695_040_888_963_407);
        ((self.state >> 33) as u32) % among
    }
}
