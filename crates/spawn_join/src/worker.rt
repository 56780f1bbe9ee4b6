//! A control unit with the place for its pass.
use shared_words::Pass;
use xmt_isa::Unit;

/// A control unit, and its pass while a section runs.
#[derive(Drop)]
pub struct Worker {
    pub unit: Unit,
    /// Over the shared words; none before and behind a section.
    pub pass: Option<Pass>,
    /// Keeps what the steps of one worker write off the cache line of the next worker of a list. Nobody looks at it.
    pub gap: [u64; 8],
}
