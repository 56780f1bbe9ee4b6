//! Places of a source.

ghost use Rattle.std.specs.Prelude.{◌≡◌, ◌≤◌, ◌^◌, length};
ghost use Rattle.xmt_parse.specs.Law as law;

use xmt_base::Place;
use xmt_lex::Token;

/// The place one past the last byte.
pub fn end_of(source: &[u8]) -> Place
    requires { length source.now ≤ 2 ^ 20 }
    ensures { result ≡ law.end_of source.now }
{
    let mut line = 1;
    let mut column = 1;
    for b in source {
        if *b == b'\n' {
            line += 1;
            column = 1;
        } else {
            column += 1;
        }
    }
    Place { line, column }
}

/// The place of the token from which on so many are left, or the end of the source.
pub fn place_at(source: &[u8], mut tokens: &[Token], left: usize) -> Place
    requires { length source.now ≤ 2 ^ 20 }
    ensures { law.IsPlaceIn source.now tokens.entry.now result }
{
    while let [t, rest @ ..] = tokens {
        if tokens.len() <= left {
            return t.place;
        }
        tokens = rest;
    }
    end_of(source)
}
