//! The data words.
ghost use Rattle.std.specs.Prelude.{◌≡◌, IfOk};
ghost use Rattle.machine_turns.specs.Runs.{data_words};

use crate::cells::{behind, front};
use sqlite_items::Items;
use std::alloc::{AllocError, Global};
use xmt_isa::Image;

/// The data words of a table of words.
pub fn data_words(alloc: Global, image: &Image, words: &Vec<u32>) -> Result<Items<u32>, AllocError>
    ensures { IfOk result (λ values. values ≡ data_words image.now words.now.items) }
{
    Items::from_slice(alloc, front(behind(words, 12), image.words.len()))
}
