//! Lines and their words.
ghost use Rattle.std.specs.Prelude.{◌≡◌, ◌+◌, ◌∷◌, ◌==◌, [], map, count_by, position, length, ◌<◌, IfSome, IfOk};
ghost use Rattle.std.specs.Option.{option_map_or};
ghost use Rattle.memory_map.specs.Words.{text_lines, without_return, without_comment, split_words, words_of};

use std::alloc::{AllocError, Global};

// The line without a carriage return at its end.
fn without_return(line: &[u8]) -> &[u8]
    ensures { result.now ≡ without_return line.now }
{
    match line {
        [front @ .., b'\r'] => front,
        _ => line,
    }
}

// Where the first newline stands.
fn newline_at(bytes: &[u8]) -> Option<usize>
    ensures at { result ≡ position (λ c. c == 10) bytes.now }
    ensures bound { IfSome result (λ at. at < length bytes.now) }
{
    bytes.iter().position(|c| *c == b'\n')
}

/// The first line, and what stands behind its newline.
pub fn first_line(bytes: &[u8]) -> (&[u8], Option<&[u8]>)
    ensures lines { text_lines bytes.now ≡ result.0.now ∷ option_map_or (λ rest. text_lines rest.now) result.1 [] }
    ensures fewer { IfSome result.1 (λ rest. count_by (λ c. c == 10) bytes.now ≡ count_by (λ c. c == 10) rest.now + 1) }
{
    match newline_at(bytes) {
        None => (bytes, None),
        Some(at) => (without_return(&bytes[..at]), Some(&bytes[at + 1..])),
    }
}

// The line up to a comment.
fn without_comment(line: &[u8]) -> &[u8]
    ensures { result.now ≡ without_comment line.now }
{
    let mut at = 0;
    while at < line.len() {
        if line[at..].starts_with(b"//") {
            return &line[..at];
        }
        at += 1;
    }
    line
}

/// The words of a line.
pub fn words_of(alloc: Global, line: &[u8]) -> Result<Vec<&[u8]>, AllocError>
    ensures { IfOk result (λ words. map (λ word. word.now) words.items ≡ words_of line.now) }
{
    let line = without_comment(line);
    split_words(alloc, line)
}

// The pieces between blanks that aren't empty.
fn split_words(alloc: Global, line: &[u8]) -> Result<Vec<&[u8]>, AllocError>
    ensures { IfOk result (λ words. map (λ word. word.now) words.items ≡ split_words line.now) }
{
    line.split(|c| *c == b' ' || *c == b'\t')
        .filter(|word| !word.is_empty())
        .collect(alloc)
}
