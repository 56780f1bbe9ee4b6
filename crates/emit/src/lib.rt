//! From quads to the image. `emit` answers the stated image of a well-formed quad program whose registers live in
//! slots of their own and whose masks are all 0, and it is valid. Want of memory alone is free.
#![tactic(auto)]

mod blocks;
mod code;
mod functions;
mod image;
mod instruction;
mod quads;

pub use image::emit;
