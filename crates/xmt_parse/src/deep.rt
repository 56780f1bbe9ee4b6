//! Open brackets.

ghost use Rattle.std.specs.Prelude.{◌≡◌};
ghost use Rattle.xmt_parse.specs.Deep as spec;

use xmt_base::Place;
use xmt_lex::{Mark, Token, TokenKind};

fn opens(kind: TokenKind) -> bool
    ensures { result ≡ spec.opens kind }
{
    match kind {
        TokenKind::Mark(Mark::OpenRound)
        | TokenKind::Mark(Mark::OpenSquare)
        | TokenKind::Mark(Mark::OpenCurly) => true,
        _ => false,
    }
}

fn closes(kind: TokenKind) -> bool
    ensures { result ≡ spec.closes kind }
{
    match kind {
        TokenKind::Mark(Mark::CloseRound)
        | TokenKind::Mark(Mark::CloseSquare)
        | TokenKind::Mark(Mark::CloseCurly) => true,
        _ => false,
    }
}

/// The place of the first token at which more than 200 brackets stand open.
pub fn too_deep(mut ts: &[Token]) -> Option<Place>
    ensures { result ≡ spec.too_deep 0 ts.entry.now }
{
    let mut open = 0u32;
    while let [t, rest @ ..] = ts {
        if opens(t.kind) {
            if 200 <= open {
                return Some(t.place);
            }
            open += 1;
        } else if closes(t.kind) {
            open = open.saturating_sub(1);
        }
        ts = rest;
    }
    None
}
