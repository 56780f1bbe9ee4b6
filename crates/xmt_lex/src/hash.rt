//! Hash lines.

ghost use Rattle.std.specs.Prelude.{◌≡◌, ◌<◌, ◌≤◌, ◌+◌, ◌^◌, length, bytes_eq, true, false};
ghost use Rattle.xmt_base.specs.Name.{is_name};
ghost use Rattle.xmt_lex.specs.Lex as spec;

use crate::scan::{Class, byte, comment_end, is_in, number_of, past, run};
use xmt_base::is_name;

fn ends_line(mut z: &[u8]) -> bool
    requires { length z.now < 2 ^ 62 }
    ensures { result ≡ spec.ends_line 0 false z.entry.now }
{
    let mut returned = false;
    while let [b, rest @ ..] = z {
        if is_in(Class::Space, *b) {
            z = rest;
        } else if *b == b'\r' {
            if returned {
                return false;
            }
            returned = true;
            z = rest;
        } else if *b == b'/' && byte(z, 1) == b'/' {
            return true;
        } else if *b == b'/' && byte(z, 1) == b'*' {
            match comment_end(past(z, 2), 2) {
                None => {
                    return false;
                }
                Some(n) => {
                    z = past(z, n);
                }
            }
        } else {
            return false;
        }
    }
    true
}

fn spaced(z: &[u8]) -> &[u8]
    ensures value { result.now ≡ spec.spaced z.now }
    ensures within { length result.now ≤ length z.now }
{
    &z[run(Class::Space, z)..]
}

/// Cuts the word in front off.
fn word(z: &[u8]) -> (&[u8], &[u8])
    ensures front { result.0.now ≡ spec.word z.now }
    ensures rest { result.1.now ≡ spec.past_word z.now }
    ensures within { length result.1.now ≤ length z.now }
{
    z.split_at(run(Class::Word, z))
}

fn included<'a>(z: &'a [u8]) -> Option<Option<(&'a [u8], u32)>>
    requires { length z.now < 2 ^ 62 }
    ensures { spec.said result ≡ spec.included z.now }
{
    if byte(z, 0) != b'<' {
        return None;
    }
    let n = run(Class::Header, &z[1..]);
    if 0 < n && byte(z, 1 + n) == b'>' && ends_line(&z[2 + n..]) {
        Some(None)
    } else {
        None
    }
}

fn negated(minus: bool, v: u32) -> u32
    ensures { result ≡ spec.negated minus v }
{
    if minus { 0u32.wrapping_sub(v) } else { v }
}

fn stands_for<'a>(name: &'a [u8], z: &[u8]) -> Option<Option<(&'a [u8], u32)>>
    requires { length z.now < 2 ^ 62 }
    ensures { spec.said result ≡ spec.stands_for name.now z.now }
{
    let minus = byte(z, 0) == b'-';
    let w = if minus { &z[1..] } else { z };
    let (digits, rest) = word(w);
    match number_of(digits) {
        None => None,
        Some(v) => {
            if ends_line(rest) {
                Some(Some((name, negated(minus, v))))
            } else {
                None
            }
        }
    }
}

fn is_a_name(w: &[u8]) -> bool
    ensures { result ≡ is_name w.now }
{
    is_name(w)
}

fn defining<'a>(z: &'a [u8]) -> Option<Option<(&'a [u8], u32)>>
    requires { length z.now < 2 ^ 62 }
    ensures { spec.said result ≡ spec.defining z.now }
{
    let (name, rest) = word(z);
    if is_a_name(name) {
        stands_for(name, spaced(rest))
    } else {
        None
    }
}

fn same(w: &[u8], text: &[u8]) -> bool
    ensures { result ≡ bytes_eq w.now text.now }
{
    w == text
}

fn directed<'a>(w: &[u8], z: &'a [u8]) -> Option<Option<(&'a [u8], u32)>>
    requires { length z.now < 2 ^ 62 }
    ensures { spec.said result ≡ spec.directed w.now z.now }
{
    if same(w, b"include") {
        included(spaced(z))
    } else if same(w, b"define") {
        defining(spaced(z))
    } else {
        None
    }
}

/// What a line says that begins with a `#`.
#[tactic(auto, unfolding(crate::specs::Lex::hash_line))]
pub fn hash_line<'a>(z: &'a [u8]) -> Option<Option<(&'a [u8], u32)>>
    requires some { 0 < length z.now }
    requires fits { length z.now < 2 ^ 62 }
    ensures { spec.said result ≡ spec.hash_line z.now }
{
    let (first, rest) = word(spaced(past(z, 1)));
    directed(first, rest)
}
