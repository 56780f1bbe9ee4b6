//! What the kind of a token tells the reader.

ghost use Rattle.std.specs.Prelude.{◌≡◌, ◌≤◌, length, slice_range};
ghost use Rattle.raw_tree.specs.Level as level;
ghost use Rattle.raw_tree.specs.Reading as spec;
ghost use Rattle.raw_tree.specs.ReadingStatements as code;
ghost use Rattle.raw_tree.specs.ReadingItems as items;
ghost use Rattle.raw_tree.specs.Passes as gives;

use xmt_lex::{Keyword, Mark, TokenKind};

fn joins_mark(m: Mark) -> u32
    ensures { result ≡ level.joins_mark m }
{
    match m {
        Mark::OpenSquare | Mark::OpenRound | Mark::PlusPlus | Mark::MinusMinus => 0,
        Mark::Star | Mark::Slash | Mark::Percent => 2,
        Mark::Plus | Mark::Minus => 3,
        Mark::Shl | Mark::Shr => 4,
        Mark::Less | Mark::LessEqual | Mark::More | Mark::MoreEqual => 5,
        Mark::EqualEqual | Mark::NotEqual => 6,
        Mark::And => 7,
        Mark::Caret => 8,
        Mark::Or => 9,
        Mark::AndAnd => 10,
        Mark::OrOr => 11,
        Mark::Question => 12,
        Mark::Equal
        | Mark::PlusEqual
        | Mark::MinusEqual
        | Mark::StarEqual
        | Mark::SlashEqual
        | Mark::PercentEqual
        | Mark::ShlEqual
        | Mark::ShrEqual
        | Mark::AndEqual
        | Mark::OrEqual
        | Mark::CaretEqual => 13,
        _ => 14,
    }
}

pub fn joins(kind: TokenKind) -> u32
    ensures { result ≡ level.joins kind }
{
    match kind {
        TokenKind::Mark(m) => joins_mark(m),
        _ => 14,
    }
}

pub fn is_prefix(m: Mark) -> bool
    ensures { result ≡ level.is_prefix m }
{
    match m {
        Mark::Minus | Mark::Plus | Mark::Not | Mark::Tilde => true,
        _ => false,
    }
}

pub fn is_step(m: Mark) -> bool
    ensures { result ≡ level.is_step m }
{
    match m {
        Mark::PlusPlus | Mark::MinusMinus => true,
        _ => false,
    }
}

pub fn is_step_kind(kind: TokenKind) -> bool
    ensures { result ≡ spec.is_step_kind kind }
{
    match kind {
        TokenKind::Mark(m) => is_step(m),
        _ => false,
    }
}

pub fn mark_of(kind: TokenKind) -> Mark
    ensures { result ≡ spec.mark_of kind }
{
    match kind {
        TokenKind::Mark(m) => m,
        _ => Mark::Comma,
    }
}

pub fn open_square(kind: TokenKind) -> bool
    ensures { result ≡ spec.open_square kind }
{
    match kind {
        TokenKind::Mark(Mark::OpenSquare) => true,
        _ => false,
    }
}

pub fn close_square(kind: TokenKind) -> bool
    ensures { result ≡ spec.close_square kind }
{
    match kind {
        TokenKind::Mark(Mark::CloseSquare) => true,
        _ => false,
    }
}

pub fn close_round(kind: TokenKind) -> bool
    ensures { result ≡ spec.close_round kind }
{
    match kind {
        TokenKind::Mark(Mark::CloseRound) => true,
        _ => false,
    }
}

pub fn colon(kind: TokenKind) -> bool
    ensures { result ≡ spec.colon kind }
{
    match kind {
        TokenKind::Mark(Mark::Colon) => true,
        _ => false,
    }
}

pub fn open_round(kind: TokenKind) -> bool
    ensures { result ≡ spec.open_round kind }
{
    match kind {
        TokenKind::Mark(Mark::OpenRound) => true,
        _ => false,
    }
}

pub fn comma(kind: TokenKind) -> bool
    ensures { result ≡ spec.comma kind }
{
    match kind {
        TokenKind::Mark(Mark::Comma) => true,
        _ => false,
    }
}

pub fn semicolon(kind: TokenKind) -> bool
    ensures { result ≡ code.semicolon kind }
{
    match kind {
        TokenKind::Mark(Mark::Semicolon) => true,
        _ => false,
    }
}

pub fn equal(kind: TokenKind) -> bool
    ensures { result ≡ code.equal kind }
{
    match kind {
        TokenKind::Mark(Mark::Equal) => true,
        _ => false,
    }
}

pub fn open_curly(kind: TokenKind) -> bool
    ensures { result ≡ code.open_curly kind }
{
    match kind {
        TokenKind::Mark(Mark::OpenCurly) => true,
        _ => false,
    }
}

pub fn close_curly(kind: TokenKind) -> bool
    ensures { result ≡ code.close_curly kind }
{
    match kind {
        TokenKind::Mark(Mark::CloseCurly) => true,
        _ => false,
    }
}

pub fn is_else(kind: TokenKind) -> bool
    ensures { result ≡ code.is_else kind }
{
    match kind {
        TokenKind::Keyword(Keyword::Else) => true,
        _ => false,
    }
}

pub fn is_while(kind: TokenKind) -> bool
    ensures { result ≡ code.is_while kind }
{
    match kind {
        TokenKind::Keyword(Keyword::While) => true,
        _ => false,
    }
}

pub fn is_int(kind: TokenKind) -> bool
    ensures { result ≡ items.is_int kind }
{
    match kind {
        TokenKind::Keyword(Keyword::Int) => true,
        _ => false,
    }
}

pub fn is_void(kind: TokenKind) -> bool
    ensures { result ≡ items.is_void kind }
{
    match kind {
        TokenKind::Keyword(Keyword::Void) => true,
        _ => false,
    }
}

pub fn is_name(kind: TokenKind) -> bool
    ensures { result ≡ code.is_name kind }
{
    match kind {
        TokenKind::Name => true,
        _ => false,
    }
}

pub fn is_text(kind: TokenKind) -> bool
    ensures { result ≡ code.is_text kind }
{
    match kind {
        TokenKind::Text => true,
        _ => false,
    }
}

pub fn begins_type(kind: TokenKind) -> bool
    ensures { result ≡ code.begins_type kind }
{
    match kind {
        TokenKind::Keyword(Keyword::Int)
        | TokenKind::Keyword(Keyword::Const)
        | TokenKind::Keyword(Keyword::Volatile) => true,
        _ => false,
    }
}

/// A token that the grammar wants at one place.
#[derive(Clone, Copy, Debug, PartialEq, Eq)]
pub enum Expected {
    Semicolon,
    Comma,
    Equal,
    OpenRound,
    CloseRound,
    OpenSquare,
    CloseSquare,
    OpenCurly,
    CloseCurly,
    Else,
    While,
    Int,
    Void,
}

pub fn passes(expected: Expected, kind: TokenKind) -> bool
    ensures { result ≡ gives.passes expected kind }
{
    match expected {
        Expected::Semicolon => semicolon(kind),
        Expected::Comma => comma(kind),
        Expected::Equal => equal(kind),
        Expected::OpenRound => open_round(kind),
        Expected::CloseRound => close_round(kind),
        Expected::OpenSquare => open_square(kind),
        Expected::CloseSquare => close_square(kind),
        Expected::OpenCurly => open_curly(kind),
        Expected::CloseCurly => close_curly(kind),
        Expected::Else => is_else(kind),
        Expected::While => is_while(kind),
        Expected::Int => is_int(kind),
        Expected::Void => is_void(kind),
    }
}

/// The bytes of the source from `start` on and before `end`, as far as there are any.
pub fn bytes_between(source: &[u8], start: usize, end: usize) -> &[u8]
    ensures { result.now ≡ slice_range source.now start end }
{
    let from = start.min(source.len());
    let to = end.min(source.len());
    if from <= to {
        &source[from..to]
    } else {
        &source[..0]
    }
}
