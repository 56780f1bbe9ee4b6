//! What is printed of a row.
ghost use Rattle.std.specs.Prelude.{◌≡◌, ◌≢◌, ◌++◌, ℕ, List, IfOk, codes, string_bytes};

use std::alloc::{AllocError, Global};

/// The line of a row: its name, and `ok` where what was found is what was wanted; else both.
pub fn verdict(alloc: Global, name: &str, found: &str, wanted: &str) -> Result<String, AllocError>
    ensures same { found.now ≡ wanted.now → IfOk result (λ line. string_bytes line ≡ name.now ++ codes ": ok") }
    ensures other { found.now ≢ wanted.now → IfOk result (λ line. (rest : List ℕ) × (string_bytes line ≡ name.now ++ codes ": found " ++ rest)) }
{
    if found == wanted {
        return format!(in alloc; "{name}: ok");
    }
    let both = format!(in alloc; "{found:?}, wanted {wanted:?}")?;
    differing(alloc, name, both.as_str())
}

// The line of a row that differs, which ends with what was found and what was wanted.
fn differing(alloc: Global, name: &str, both: &str) -> Result<String, AllocError>
    ensures { IfOk result (λ line. string_bytes line ≡ name.now ++ codes ": found " ++ both.now) }
{
    format!(in alloc; "{name}: found {both}")
}

/// Bytes as a text: printable ASCII and newlines as they are, and each other byte as `\xHH`.
pub fn shown(alloc: Global, bytes: &[u8]) -> Result<String, AllocError> {
    let mut text = String::new(alloc);
    for byte in bytes {
        let part = match *byte {
            b'\n' => String::from_str(alloc, "\n")?,
            32..=126 => format!(in alloc; "{}", *byte as char)?,
            other => format!(in alloc; "\\x{other:02x}")?,
        };
        text.push_str(part.as_str())?;
    }
    Ok(text)
}
