//! What a unit passes before it draws.

/// A place that each unit passes before each of its draws. It has no meaning and no answer.
pub trait Gate {
    /// Holds this unit up, or not.
    fn pass(&self, unit: u32);
}

/// Holds nobody up.
#[derive(Clone, Copy, Debug)]
pub struct OpenGate;

impl Gate for OpenGate {
    fn pass(&self, _unit: u32) {}
}
