//! A small part of the language, stated by itself as a definition: which bytes are a thin source, and the program
//! of each.
#![tactic(auto)]

mod tokens;

pub use tokens::{Mark, Token, TokenKind};
