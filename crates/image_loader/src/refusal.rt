//! Why an image is refused.
ghost use Rattle.std.specs.Prelude.{◌≡◌};
ghost use Rattle.image_loader.specs.declared.refusal.LoadRefusal.TheVariants.{NoMemory};

use std::alloc::{AllocError, AllocFailed};
use thiserror::Error;

/// What is wrong with the bytes, or with the image that they spell.
#[derive(Clone, Copy, Debug, PartialEq, Eq)]
pub enum LoadKind {
    /// A field passes the end.
    Short,
    /// The first four bytes are others.
    BadMark,
    /// The version is another.
    BadVersion,
    /// Bytes stand behind the last field.
    Extra,
    /// A count or a size is out of its range.
    BadSize,
    /// An operation has no meaning.
    BadOpcode,
    /// A register field is out of its range, or isn't 0 where it isn't used.
    BadRegister,
    /// The number of an instruction is out of its range, or isn't 0 where it isn't used.
    BadTarget,
    /// Functions, blocks and jumps don't nest.
    BadRegion,
    /// A text can't be printed.
    BadText,
    /// The symbols don't cover the data words, or a name is bad.
    BadSymbol,
}

/// Why no image is loaded.
#[derive(Clone, Copy, Debug, PartialEq, Eq, Error)]
pub enum LoadRefusal {
    #[error("no memory is left")]
    NoMemory,
    #[error("the image is refused: {0:?}")]
    Refused(LoadKind),
}

impl From<AllocError> for LoadRefusal {
    ghost from_gives = { λ _ e. e ≡ NoMemory };

    fn from(_e: AllocError) -> LoadRefusal {
        LoadRefusal::NoMemory
    }
}

impl<T: Drop> From<AllocFailed<T>> for LoadRefusal {
    ghost from_gives = { λ _ e. e ≡ NoMemory };

    fn from(_e: AllocFailed<T>) -> LoadRefusal {
        LoadRefusal::NoMemory
    }
}
