//! Images as bytes. `encode` answers the one spelling of an image; `load` reads exactly what is spelled, and
//! refuses with the first fault from left to right, then with the first test that fails; `admit` answers the same
//! image exactly where it is valid. `Loaded` keeps validity in its type. Want of memory alone is free.
//!
//! Laws: a spelling has one image and an image at most one spelling; `valid_images_nest`, functions and blocks of a
//! valid image are entered and left at instructions that are there.
#![tactic(auto)]

mod admission;
mod laws;
mod loaded;
mod reading;
mod refusal;
mod regions;
mod registers;
mod sizes;
mod symbols;
mod targets;
mod texts;
mod writing;

pub use admission::{admit, load};
pub use laws::{is_one_image, is_one_spelling, valid_images_nest};
pub use loaded::Loaded;
pub use refusal::{LoadKind, LoadRefusal};
pub use writing::encode;
