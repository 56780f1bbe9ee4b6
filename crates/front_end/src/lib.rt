//! The rules that a source can break, in their order. `front` answers the program of an accepted source, which is
//! checked and keeps to the limits, and refuses each other source for the first rule that it breaks, at its place:
//! its length, its tokens from left to right, its open brackets, its grammar, then names and types, then spawn
//! blocks, each by place and at one place by the table, last the words that threads share. The place of a Syntax
//! refusal is proved to be that of a token or the end. Want of memory alone is free. `sources_have_one_program`: a
//! source has at most one program, and one that breaks a rule has none.
#![tactic(auto)]

mod law;
mod reading;
mod refusal;

pub use law::sources_have_one_program;
pub use reading::front;
pub use refusal::{SourceKind, SourceRefusal};
pub use xmt_types::Which;
