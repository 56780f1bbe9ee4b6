//! The tokens of a thin source: names, numbers, four words, one text and thirteen marks.
use xmt_base::Place;

/// A mark of a thin source.
#[derive(Clone, Copy)]
pub enum Mark {
    OpenRound,
    CloseRound,
    OpenSquare,
    CloseSquare,
    OpenBrace,
    CloseBrace,
    Semicolon,
    Comma,
    Dollar,
    Equals,
    Plus,
    Minus,
    Star,
}

/// What a token is.
#[derive(Clone, Copy)]
pub enum TokenKind {
    Name,
    Number(u32),
    Int,
    Main,
    Spawn,
    Printf,
    /// `"%d\n"`
    Text,
    Mark(Mark),
}

/// A token: its bytes in the source, from `start` to before `end`, and the place of the first.
#[derive(Clone, Copy)]
pub struct Token {
    pub kind: TokenKind,
    pub start: usize,
    pub end: usize,
    pub place: Place,
}
