//! The words of the machine, as threads share them.
ghost use Rattle.std.specs.Prelude.{◌≡◌, ◌<◌, ◌≤◌, ◌%◌, ◌^◌, length, slice_index, vec_len, IfOk};
ghost use Rattle.threaded_runs.specs.Words.{Widens, Narrows};

use std::alloc::{AllocError, Global};

// How many words stand in front of those of the machine.
const FIRST: usize = 4;

// The word in a place.
fn word_at(words: &Vec<u32>, place: usize) -> u32
    requires inside { place < vec_len words.now }
    ensures { result ≡ slice_index words.now.items place }
{
    words[place]
}

/// The words for threads: four zeros, and behind them those of the machine.
pub(crate) fn widen(alloc: Global, words: &Vec<u32>) -> Result<Vec<u64>, AllocError>
    requires long { 4 ≤ vec_len words.now }
    ensures { IfOk result (λ wide. Widens words.now.items wide.items) }
{
    let mut wide = Vec::from_slice(alloc, &[0; FIRST])?;
    for place in FIRST..words.len() {
        wide.push(word_at(words, place) as u64)?;
    }
    Ok(wide)
}

// The lower 32 bits of a word.
fn lower(word: u64) -> u32
    ensures { result ≡ word % 2 ^ 32 }
{
    (word % (1 << 32)) as u32
}

/// Puts the words that threads have left in place of the machine's, but for the first four.
pub(crate) fn narrow(words: &mut Vec<u32>, wide: &[u64])
    requires size { length wide.now ≡ vec_len words.old }
    ensures narrows { Narrows words.old.items wide.now words.new.items }
    ensures len { vec_len words.new ≡ vec_len words.old }
{
    for place in FIRST..words.len() {
        words[place] = lower(wide[place]);
    }
}
