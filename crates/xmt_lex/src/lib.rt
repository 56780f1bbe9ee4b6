//! The tokens of a source. `lex` answers exactly its tokens by first and longest token, and otherwise the kind and
//! the place where a rule is first broken. Want of memory alone is free.
#![tactic(auto)]

ghost use Rattle.std.specs.Prelude.{◌≡◌, ◌<◌, ◌≤◌, ◌+◌, ◌^◌, length, slice_index, true, false};
ghost use Rattle.xmt_lex.specs.Lex as spec;

mod hash;
mod kinds;
mod names;
mod scan;

use hash::hash_line;
pub use kinds::{Keyword, Mark};
use names::{Names, word_kind};
use scan::{Class, Piece, past, piece_of, run};
use std::alloc::{AllocError, AllocFailed, Global};
use thiserror::Error;
use xmt_base::Place;

/// What a token is.
#[derive(Clone, Copy, Debug, PartialEq, Eq)]
pub enum TokenKind {
    Name,
    Keyword(Keyword),
    /// A number as written, or a name that a `#define` stands for.
    Number(u32),
    /// A text, whose bytes begin and end with a quote.
    Text,
    Mark(Mark),
}

/// A token: its bytes in the source, from `start` to before `end`, and the place of the first.
#[derive(Clone, Copy, Debug, PartialEq, Eq)]
pub struct Token {
    pub start: u32,
    pub end: u32,
    pub place: Place,
    pub kind: TokenKind,
}

/// Which rule of the tokens a source breaks.
#[derive(Clone, Copy, Debug, PartialEq, Eq)]
pub enum LexKind {
    /// A byte that begins no token, or a control byte or one above 126 in a text.
    BadByte,
    /// A digit begins a run of letters, digits and `_` that is no number up to 4294967295.
    BadNumber,
    /// A `/*` without its `*/`.
    OpenComment,
    /// A text without its closing quote on its line.
    OpenText,
    /// A `\` in a text before another byte than `n`, `t`, `\` and `"`.
    BadEscape,
    /// A line that begins with `#` and is no `#include <..>` and no `#define NAME NUMBER`, or
    /// that defines a name a second time.
    HashLine,
}

/// Why a source has no tokens.
#[derive(Clone, Copy, Debug, PartialEq, Eq, Error)]
pub enum LexRefusal {
    /// The first rule that is broken, and where.
    #[error("{0:?} at {1:?}")]
    Refused(LexKind, Place),
    #[error("out of memory")]
    NoMemory,
}

impl From<AllocError> for LexRefusal {
    ghost use Rattle.xmt_lex.specs.declared.LexRefusal.TheVariants.{NoMemory};

    ghost from_gives = { λ _ e. e ≡ NoMemory };

    fn from(_e: AllocError) -> LexRefusal {
        LexRefusal::NoMemory
    }
}

impl<T: Drop> From<AllocFailed<T>> for LexRefusal {
    ghost use Rattle.xmt_lex.specs.declared.LexRefusal.TheVariants.{NoMemory};

    ghost from_gives = { λ _ e. e ≡ NoMemory };

    fn from(_e: AllocFailed<T>) -> LexRefusal {
        LexRefusal::NoMemory
    }
}

/// Where a byte stands, and whether only spaces and tabs stand before it on its line.
#[derive(Clone, Copy)]
pub struct Spot {
    pub at: u32,
    pub place: Place,
    pub fresh: bool,
}

fn first_spot() -> Spot
    ensures { result ≡ spec.first_spot }
{
    Spot {
        at: 0,
        place: Place { line: 1, column: 1 },
        fresh: true,
    }
}

fn behind(s: Spot, b: u8) -> Spot
    requires at { s.at < 2 ^ 31 }
    requires line { s.place.line ≤ s.at + 1 }
    requires column { s.place.column ≤ s.at + 1 }
    ensures { result ≡ spec.behind s b }
{
    if b == b'\n' {
        Spot {
            at: s.at + 1,
            place: Place {
                line: s.place.line + 1,
                column: 1,
            },
            fresh: true,
        }
    } else {
        Spot {
            at: s.at + 1,
            place: Place {
                line: s.place.line,
                column: s.place.column + 1,
            },
            fresh: s.fresh && (b == b' ' || b == b'\t'),
        }
    }
}

fn along(s: Spot, z: &[u8]) -> Spot
    requires at { s.at + length z.now ≤ 2 ^ 31 }
    requires line { s.place.line ≤ s.at + 1 }
    requires column { s.place.column ≤ s.at + 1 }
    ensures value { result ≡ spec.along s z.now }
    ensures at { result.at ≡ s.at + length z.now }
    ensures line { result.place.line ≤ result.at + 1 }
    ensures column { result.place.column ≤ result.at + 1 }
{
    let mut spot = s;
    for b in z {
        spot = behind(spot, *b);
    }
    spot
}

/// What is read next: a fault, or some bytes, which may be a token or a definition.
#[derive(Clone, Copy)]
enum Next<'a> {
    Fault(LexKind, Place),
    Skips(usize),
    Gives(usize, Token),
    Defines(usize, &'a [u8], u32),
}

#[tactic(auto, unfolding(crate::specs::Lex::step))]
fn hashed<'a>(names: &Names, s: Spot, z: &'a [u8]) -> Next<'a>
    requires hash { slice_index z.now 0 ≡ 35 }
    requires fresh { s.fresh ≡ true }
    requires some { 0 < length z.now }
    requires size { length z.now ≤ 2 ^ 20 }
    ensures value { spec.seen (spec.entries names.now) result ≡ spec.step (spec.entries names.now) s z.now }
    ensures within { spec.NextWithin (spec.entries names.now) result (length z.now) }
{
    let n = run(Class::Line, z);
    match hash_line(&z[..n]) {
        None => Next::Fault(LexKind::HashLine, s.place),
        Some(None) => Next::Skips(n),
        Some(Some((name, value))) => match names.find(name) {
            Some(_) => Next::Fault(LexKind::HashLine, s.place),
            None => Next::Defines(n, name, value),
        },
    }
}

fn make_token(s: Spot, n: usize, kind: TokenKind) -> Token
    requires { s.at + n < 2 ^ 32 }
    ensures { result ≡ spec.token_at s n kind }
{
    Token {
        start: s.at,
        end: s.at + n as u32,
        place: s.place,
        kind,
    }
}

#[tactic(auto, unfolding(crate::specs::Lex::step))]
fn pieced<'a>(names: &Names, s: Spot, z: &'a [u8]) -> Next<'a>
    requires other { slice_index z.now 0 ≡ 35 → s.fresh ≡ false }
    requires some { 0 < length z.now }
    requires size { s.at + length z.now ≤ 2 ^ 20 }
    requires line { s.place.line ≤ s.at + 1 }
    requires column { s.place.column ≤ s.at + 1 }
    ensures value { spec.seen (spec.entries names.now) result ≡ spec.step (spec.entries names.now) s z.now }
    ensures within { spec.NextWithin (spec.entries names.now) result (length z.now) }
{
    match piece_of(z) {
        Piece::Nothing(n) => Next::Skips(n),
        Piece::Word(n) => Next::Gives(n, make_token(s, n, word_kind(names, &z[..n]))),
        Piece::Whole(n, kind) => Next::Gives(n, make_token(s, n, kind)),
        Piece::Bad(kind, at) => Next::Fault(kind, along(s, &z[..at]).place),
    }
}

fn read_next<'a>(names: &Names, s: Spot, z: &'a [u8]) -> Next<'a>
    requires some { 0 < length z.now }
    requires size { s.at + length z.now ≤ 2 ^ 20 }
    requires line { s.place.line ≤ s.at + 1 }
    requires column { s.place.column ≤ s.at + 1 }
    ensures value { spec.seen (spec.entries names.now) result ≡ spec.step (spec.entries names.now) s z.now }
    ensures within { spec.NextWithin (spec.entries names.now) result (length z.now) }
{
    if z[0] == b'#' && s.fresh {
        hashed(names, s, z)
    } else {
        pieced(names, s, z)
    }
}

/// The tokens of the source, or the kind of its first fault and its place.
pub fn lex(alloc: Global, bytes: &[u8]) -> Result<Vec<Token>, LexRefusal>
    requires { length bytes.now ≤ 2 ^ 20 }
    ensures { spec.Lexes result (spec.tokens bytes.now) }
{
    let mut out = Vec::new(alloc);
    let mut names = Names::new(alloc);
    let mut spot = first_spot();
    let mut z = bytes;
    while !z.is_empty() {
        match read_next(&names, spot, z) {
            Next::Fault(kind, place) => {
                return Err(LexRefusal::Refused(kind, place));
            }
            Next::Skips(n) => {
                spot = along(spot, &z[..n]);
                z = past(z, n);
            }
            Next::Gives(n, token) => {
                out.push(token)?;
                spot = along(spot, &z[..n]);
                z = past(z, n);
            }
            Next::Defines(n, name, value) => {
                names.add(alloc, name, value)?;
                spot = along(spot, &z[..n]);
                z = past(z, n);
            }
        }
    }
    Ok(out)
}
