//! Writing a dump.
ghost use Rattle.std.specs.Prelude.{◌≡◌, ◌+◌, ◌≤◌, ◌++◌, length, OnOk, IfOk};
ghost use Rattle.xmt_isa.specs.Symbols.{AreSymbols};
ghost use Rattle.memory_map.specs.DumpText.{values_text, symbol_line, dump_text};

use itoa::Buffer;
use std::alloc::{AllocError, Global};
use xmt_base::{Memory, Symbol};

// Writes each word behind a space.
fn push_values(text: &mut Vec<u8>, words: &[u32]) -> Result<(), AllocError>
    ensures { OnOk result (text.new.items ≡ text.old.items ++ values_text words.now) }
{
    for word in words {
        let mut buffer = Buffer::new();
        text.push(b' ')?;
        text.extend_from_slice(buffer.format(word.cast_signed()).as_bytes())?;
    }
    Ok(())
}

// Writes the line of a symbol.
fn push_line(text: &mut Vec<u8>, symbol: &Symbol, words: &[u32]) -> Result<(), AllocError>
    requires { symbol.now.base + symbol.now.length ≤ length words.now }
    ensures { OnOk result (text.new.items ≡ text.old.items ++ symbol_line words.now symbol.now) }
{
    let begin = symbol.base as usize;
    let end = begin + symbol.length as usize;
    text.extend_from_slice(symbol.name.as_slice())?;
    push_values(text, &words[begin..end])?;
    text.push(b'\n')?;
    Ok(())
}

/// The dump of a memory: one line for each symbol, in order.
pub fn write_map(alloc: Global, memory: &Memory, symbols: &[Symbol]) -> Result<Vec<u8>, AllocError>
    requires { AreSymbols symbols.now (length memory.now.words) }
    ensures { IfOk result (λ text. text.items ≡ dump_text symbols.now memory.now.words) }
{
    let mut text = Vec::new(alloc);
    for symbol in symbols {
        push_line(&mut text, symbol, memory.words.as_slice())?;
    }
    Ok(text)
}
