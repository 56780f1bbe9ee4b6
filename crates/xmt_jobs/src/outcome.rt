//! How a job ends.
use image_loader::LoadKind;
use memory_map::MapRefusal;
use xmt_base::{Place, Trap};
use xmt_compile::SourceKind;

/// What is wrong with the bytes of an image or a map.
#[derive(Clone, Copy, Debug, PartialEq, Eq)]
pub enum BytesFault {
    /// There are more than 67,108,864.
    TooLong,
    BadImage(LoadKind),
    /// The reason is never want of memory.
    BadMap(MapRefusal),
}

/// How a job ends.
#[derive(Clone, Copy, Debug, PartialEq, Eq)]
pub enum Outcome {
    Done,
    /// The source breaks this rule first, at this place.
    SourceRefused(SourceKind, Place),
    /// The image of a job that runs one.
    ImageRefused(BytesFault),
    /// The map.
    MapRefused(BytesFault),
    Trap(Trap),
    /// A unit has spent its budget.
    Spent { unit: u32, steps: u64 },
    /// The host failed.
    Fault,
    NoMemory,
}
