//! Cuts the piece at the front of a text.

ghost use Rattle.std.specs.Prelude.{◌≡◌, ◌≢◌, ◌<◌, ◌≤◌, ◌+◌, ◌-◌, ◌^◌, length, drop, map, slice_index, IfSome, true, false, option_map};
ghost use Rattle.xmt_lex.specs.Lex as spec;

use crate::kinds::{KEYWORDS, Keyword, MARKS, Mark};
use crate::{LexKind, TokenKind};

#[derive(Clone, Copy)]
pub enum Class {
    Blank,
    Space,
    Word,
    Line,
    Digit,
    Header,
}

/// What stands at the front of some bytes: a length without a token, a word, another token with
/// its length, or a fault and how many bytes stand before its place.
#[derive(Clone, Copy)]
pub enum Piece {
    Nothing(usize),
    Word(usize),
    Whole(usize, TokenKind),
    Bad(LexKind, usize),
}

pub fn is_in(class: Class, b: u8) -> bool
    ensures { result ≡ spec.is_in class b }
{
    match class {
        Class::Blank => b == b' ' || b == b'\t' || b == b'\n' || b == b'\r',
        Class::Space => b == b' ' || b == b'\t',
        Class::Word => b.is_ascii_alphanumeric() || b == b'_',
        Class::Line => !(b == b'\n'),
        Class::Digit => b.is_ascii_digit(),
        Class::Header => !(b == b'>') && (b == b'\t' || b == b'\r' || (32 <= b && b <= 126)),
    }
}

pub fn byte(z: &[u8], at: usize) -> u8
    ensures value { result ≡ slice_index z.now at }
    ensures within { result ≢ 0 → at < length z.now }
{
    if at < z.len() { z[at] } else { 0 }
}

/// What stands behind the first n bytes.
pub fn past(z: &[u8], n: usize) -> &[u8]
    requires { n ≤ length z.now }
    ensures { result.now ≡ drop n z.now }
{
    &z[n..]
}

pub fn run(class: Class, z: &[u8]) -> usize
    ensures value { result ≡ spec.run class z.now }
    ensures within { result ≤ length z.now }
    ensures moves { 0 < length z.now → spec.is_in class (slice_index z.now 0) ≡ true → 0 < result }
{
    let mut end = 0;
    while end < z.len() && is_in(class, z[end]) {
        end += 1;
    }
    end
}

fn digit(b: u8) -> u8
    ensures value { result ≡ spec.digit b }
    ensures within { result ≤ 16 }
{
    if 48 <= b && b <= 57 {
        b - 48
    } else if 97 <= b && b <= 102 {
        b - 87
    } else if 65 <= b && b <= 70 {
        b - 55
    } else {
        16
    }
}

fn value(base: u8, mut z: &[u8]) -> Option<u32>
    requires { base ≤ 16 }
    ensures { result ≡ spec.value base 0 z.entry.now }
{
    let mut so_far = 0u32;
    while let [b, rest @ ..] = z {
        let d = digit(*b);
        if d >= base {
            return None;
        }
        let next = so_far as u64 * base as u64 + d as u64;
        if next >= 4294967296 {
            return None;
        }
        so_far = next as u32;
        z = rest;
    }
    Some(so_far)
}

#[tactic(auto, unfolding(crate::specs::Lex::number_of))]
pub fn number_of(w: &[u8]) -> Option<u32>
    ensures { result ≡ spec.number_of w.now }
{
    if byte(w, 0) == b'0' {
        if w.len() == 1 {
            Some(0)
        } else if 2 < w.len() && (w[1] == b'x' || w[1] == b'X') {
            value(16, &w[2..])
        } else {
            None
        }
    } else if 0 < w.len() {
        value(10, w)
    } else {
        None
    }
}

fn keyword_in(mut table: &[(&[u8], Keyword)], w: &[u8]) -> Option<Keyword>
    ensures { result ≡ spec.lookup (map (λ e. (e.0.now, e.1)) table.entry.now) w.now }
{
    while let [entry, rest @ ..] = table {
        if w == entry.0 {
            return Some(entry.1);
        }
        table = rest;
    }
    None
}

#[tactic(auto, unfolding(crate::specs::Lex::keyword_of, crate::specs::Tables::keywords))]
pub fn keyword_of(w: &[u8]) -> Option<Keyword>
    ensures { result ≡ spec.keyword_of w.now }
{
    keyword_in(&KEYWORDS, w)
}

fn begins(z: &[u8], w: &[u8]) -> bool
    ensures value { result ≡ spec.begins z.now w.now }
    ensures within { result ≡ true → length w.now ≤ length z.now }
{
    w.len() <= z.len() && &z[..w.len()] == w
}

fn mark_in(mut table: &[(&[u8], Mark)], z: &[u8]) -> Piece
    requires { spec.NoneEmpty table.now }
    ensures value { result ≡ spec.mark_in (map (λ e. (e.0.now, e.1)) table.entry.now) z.now }
    ensures within { spec.Within result (length z.now) }
{
    while let [entry, rest @ ..] = table {
        if begins(z, entry.0) {
            return Piece::Whole(entry.0.len(), TokenKind::Mark(entry.1));
        }
        table = rest;
    }
    Piece::Bad(LexKind::BadByte, 0)
}

#[tactic(auto, unfolding(crate::specs::Lex::mark, crate::specs::Tables::marks))]
fn mark(z: &[u8]) -> Piece
    ensures value { result ≡ spec.mark z.now }
    ensures within { spec.Within result (length z.now) }
{
    mark_in(&MARKS, z)
}

pub fn comment_end(mut z: &[u8], begun: usize) -> Option<usize>
    requires { begun + length z.now < 2 ^ 63 }
    ensures value { result ≡ spec.comment_end begun z.entry.now }
    ensures within { IfSome result (λ n. (begun < n) × (n ≤ begun + length z.entry.now)) }
{
    let mut at = begun;
    while let [b, rest @ ..] = z {
        if *b == b'*' && byte(rest, 0) == b'/' {
            return Some(at + 2);
        }
        at += 1;
        z = rest;
    }
    None
}

fn is_escape(b: u8) -> bool
    ensures { result ≡ spec.is_escape b }
{
    b == b'n' || b == b't' || b == b'\\' || b == b'"'
}

fn text(mut z: &[u8]) -> Piece
    requires { length z.now < 2 ^ 63 }
    ensures value { result ≡ spec.text_from false 1 z.entry.now }
    ensures within { spec.Within result (length z.entry.now + 1) }
{
    let mut escaped = false;
    let mut at = 1;
    while let [b, rest @ ..] = z {
        if escaped {
            if !is_escape(*b) {
                return Piece::Bad(LexKind::BadEscape, at - 1);
            }
            escaped = false;
        } else if *b == b'"' {
            return Piece::Whole(at + 1, TokenKind::Text);
        } else if *b == b'\\' {
            escaped = true;
        } else if *b == b'\n' {
            return Piece::Bad(LexKind::OpenText, 0);
        } else if !(32 <= *b && *b <= 126) {
            return Piece::Bad(LexKind::BadByte, at);
        }
        at += 1;
        z = rest;
    }
    Piece::Bad(LexKind::OpenText, 0)
}

fn comment(z: &[u8]) -> Piece
    requires long { 1 < length z.now }
    requires fits { length z.now < 2 ^ 62 }
    ensures value { result ≡ spec.comment z.now }
    ensures within { spec.Within result (length z.now) }
{
    match comment_end(&z[2..], 2) {
        None => Piece::Bad(LexKind::OpenComment, 0),
        Some(n) => Piece::Nothing(n),
    }
}

fn number(z: &[u8]) -> Piece
    requires { spec.is_in Class.Digit (slice_index z.now 0) ≡ true }
    ensures value { result ≡ spec.number z.now }
    ensures within { spec.Within result (length z.now) }
{
    let n = run(Class::Word, z);
    match number_of(&z[..n]) {
        None => Piece::Bad(LexKind::BadNumber, 0),
        Some(v) => Piece::Whole(n, TokenKind::Number(v)),
    }
}

#[tactic(auto, unfolding(crate::specs::Lex::piece_of))]
pub fn piece_of(z: &[u8]) -> Piece
    requires some { 0 < length z.now }
    requires fits { length z.now < 2 ^ 62 }
    ensures value { result ≡ spec.piece_of z.now }
    ensures within { spec.Within result (length z.now) }
{
    let b = z[0];
    let next = byte(z, 1);
    if is_in(Class::Blank, b) {
        Piece::Nothing(run(Class::Blank, z))
    } else if b == b'/' && next == b'*' {
        comment(z)
    } else if b == b'/' && next == b'/' {
        Piece::Nothing(run(Class::Line, z))
    } else if is_in(Class::Digit, b) {
        number(z)
    } else if is_in(Class::Word, b) {
        Piece::Word(run(Class::Word, z))
    } else if b == b'"' {
        text(&z[1..])
    } else {
        mark(z)
    }
}
