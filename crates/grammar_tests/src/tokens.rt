//! Tokens and refusals as texts: a kind, and behind `@` the line and the column of its place.

use std::alloc::{AllocError, Global};
use xmt_base::Place;
use xmt_lex::{LexRefusal, Token};
use xmt_parse::ParseRefusal;

// Puts a token: its kind, its place and its length.
fn put_token(alloc: Global, out: &mut String, token: Token) -> Result<(), AllocError> {
    let kind = token.kind;
    let line = token.place.line;
    let column = token.place.column;
    let length = token.end.wrapping_sub(token.start);
    let text = format!(in alloc; "{kind:?}@{line}:{column}+{length}")?;
    out.push_str(&text)
}

/// Puts tokens, parted by spaces.
pub fn put_tokens(alloc: Global, out: &mut String, tokens: &[Token]) -> Result<(), AllocError> {
    for token in tokens {
        if !out.is_empty() {
            out.push_str(" ")?;
        }
        put_token(alloc, out, *token)?;
    }
    Ok(())
}

// Puts where a source is refused.
fn put_place(alloc: Global, out: &mut String, kind: &str, place: Place) -> Result<(), AllocError> {
    let line = place.line;
    let column = place.column;
    let text = format!(in alloc; "!{kind}@{line}:{column}")?;
    out.push_str(&text)
}

/// Puts why a source has no tokens.
pub fn put_lex_refusal(
    alloc: Global,
    out: &mut String,
    refusal: LexRefusal,
) -> Result<(), AllocError> {
    match refusal {
        LexRefusal::Refused(kind, place) => {
            let kind = format!(in alloc; "{kind:?}")?;
            put_place(alloc, out, &kind, place)
        }
        LexRefusal::NoMemory => out.push_str("out of memory"),
    }
}

/// Puts why tokens have no tree.
pub fn put_parse_refusal(
    alloc: Global,
    out: &mut String,
    refusal: ParseRefusal,
) -> Result<(), AllocError> {
    match refusal {
        ParseRefusal::TooDeep(place) => put_place(alloc, out, "TooDeep", place),
        ParseRefusal::Syntax(place) => put_place(alloc, out, "Syntax", place),
        ParseRefusal::NoMemory => out.push_str("out of memory"),
    }
}
