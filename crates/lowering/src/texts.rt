//! The texts of prints.
ghost use Rattle.std.specs.Prelude.{◌≡◌, ◌++◌, [], ◌∷◌, length, IfOk, OnOk};

use sqlite_items::Items;
use std::alloc::{AllocError, Global};

/// The texts of the prints so far, in order, and where more are made.
#[derive(Drop)]
pub struct Texts {
    pub alloc: Global,
    pub list: Items<Items<u8>>,
}

/// The number of the next text. More than 2^32 - 1 texts have no room.
pub(crate) fn next_text(texts: &Texts) -> Result<u32, AllocError>
    ensures { IfOk result (λ number. number ≡ length texts.now.list) }
{
    match u32::try_from(texts.list.len()) {
        Ok(number) => Ok(number),
        Err(_) => Err(AllocError),
    }
}

/// Adds a text.
pub(crate) fn add_text(texts: &mut Texts, text: &[u8]) -> Result<(), AllocError>
    ensures { OnOk result (texts.new.list ≡ texts.old.list ++ text.now ∷ []) }
{
    let text = Items::from_slice(texts.alloc, text)?;
    texts.list.push(text)?;
    Ok(())
}
