//! The names that hash lines define.

ghost use Rattle.std.specs.Prelude.{◌≡◌, ◌∷◌, ◌++◌, [], OnOk, None};
ghost use Rattle.xmt_lex.specs.Lex as spec;

use crate::TokenKind;
use crate::scan::keyword_of;
use indexmap::IndexMap;
use std::alloc::{AllocError, Global};

/// The definitions so far, in order.
#[derive(Drop)]
pub struct Names {
    values: IndexMap<Vec<u8>, u32>,
}

impl Names {
    pub fn new(alloc: Global) -> Names
        ensures { spec.entries result ≡ [] }
    {
        Names {
            values: IndexMap::new(alloc),
        }
    }

    pub fn find(&self, w: &[u8]) -> Option<u32>
        ensures { result ≡ spec.lookup (spec.entries self.now) w.now }
    {
        self.values.get(w).copied()
    }

    /// Adds a name that was not defined before.
    pub fn add(&mut self, alloc: Global, w: &[u8], value: u32) -> Result<(), AllocError>
        requires { spec.lookup (spec.entries self.old) w.now ≡ None }
        ensures { OnOk result (spec.entries self.new ≡ spec.entries self.old ++ (w.now, value) ∷ []) }
    {
        let word = Vec::from_slice(alloc, w)?;
        self.values.insert(word, value)?;
        Ok(())
    }
}

/// The kind of a word under these definitions.
pub fn word_kind(names: &Names, w: &[u8]) -> TokenKind
    ensures { result ≡ spec.kind_of_word (spec.entries names.now) w.now }
{
    match names.find(w) {
        Some(v) => TokenKind::Number(v),
        None => match keyword_of(w) {
            Some(k) => TokenKind::Keyword(k),
            None => TokenKind::Name,
        },
    }
}
