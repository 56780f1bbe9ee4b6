//! Which texts can be printed.
ghost use Rattle.std.specs.Prelude.{◌≡◌, ◌↔◌, ◌^◌, ◌<◌, ◌≤◌, All, IsTrue, length, false};
ghost use Rattle.xmt_base.specs.Format.{IsPrintable, IsFormat, has_directives, directives};

// Each byte is a tab, a newline or printable.
fn is_printable(text: &[u8]) -> bool
    ensures { IsTrue result ↔ All IsPrintable text.now }
{
    for item in text {
        let c = *item;
        if !(c == 9 || c == 10 || (32 <= c && c <= 126)) {
            return false;
        }
    }
    true
}

// Each percent sign begins %d or %%.
fn has_directives(text: &[u8]) -> bool
    ensures { result ≡ has_directives false text.now }
{
    let mut behind = false;
    for item in text {
        let c = *item;
        if behind {
            if c != b'%' && c != b'd' {
                return false;
            }
            behind = false;
        } else {
            behind = c == b'%';
        }
    }
    !behind
}

// How many values the text prints.
fn directives(text: &[u8]) -> usize
    ensures { result ≡ directives false text.now }
{
    let mut behind = false;
    let mut count = 0;
    for item in text {
        let c = *item;
        if behind {
            if c == b'd' {
                count += 1;
            }
            behind = false;
        } else {
            behind = c == b'%';
        }
    }
    count
}

/// The text can be printed: each byte is a tab, a newline or printable, each percent sign begins
/// `%d` or `%%`, there are at most 16 `%d`, and fewer than 2^32 bytes.
pub fn is_format(text: &[u8]) -> bool
    ensures { IsTrue result ↔ IsFormat text.now }
{
    text.len() < 1 << 32 && is_printable(text) && has_directives(text) && directives(text) <= 16
}
