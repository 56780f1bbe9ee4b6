//! How values are spelled.
ghost use Rattle.std.specs.Prelude.{◌≡◌, ◌≤◌};
ghost use Rattle.memory_map.specs.Words.{digit_of, number_from, after_zero, number_of, negative_of, value_of};

// The digit, or 255 where it is none.
fn digit_of(c: u8) -> u8
    ensures { result ≡ digit_of c }
{
    match c {
        b'0'..=b'9' => c - b'0',
        b'a'..=b'f' => c - b'a' + 10,
        b'A'..=b'F' => c - b'A' + 10,
        _ => 255,
    }
}

fn number_from(base: u8, digits: &[u8]) -> Option<u32>
    requires { base ≤ 16 }
    ensures { result ≡ number_from base 0 digits.now }
{
    let mut number = 0u32;
    for c in digits {
        let digit = digit_of(*c);
        if digit >= base {
            return None;
        }
        let next = u64::from(number) * u64::from(base) + u64::from(digit);
        if next > u64::from(u32::MAX) {
            return None;
        }
        number = next as u32;
    }
    Some(number)
}

fn after_zero(text: &[u8]) -> Option<u32>
    ensures { result ≡ after_zero text.now }
{
    match text {
        [] => Some(0),
        [mark, digits @ ..] => {
            if (*mark == b'x' || *mark == b'X') && !digits.is_empty() {
                number_from(16, digits)
            } else {
                None
            }
        }
    }
}

fn number_of(text: &[u8]) -> Option<u32>
    ensures { result ≡ number_of text.now }
{
    match text {
        [] => None,
        [first, rest @ ..] => {
            if *first == b'0' {
                after_zero(rest)
            } else {
                number_from(10, text)
            }
        }
    }
}

/// The number of 32 bits that the text spells.
pub fn value_of(text: &[u8]) -> Option<u32>
    ensures { result ≡ value_of text.now }
{
    match text {
        [] => None,
        [first, rest @ ..] => {
            if *first == b'-' {
                negative(rest)
            } else {
                number_of(text)
            }
        }
    }
}

fn negative(text: &[u8]) -> Option<u32>
    ensures { result ≡ negative_of (number_of text.now) }
{
    match number_of(text) {
        None => None,
        Some(number) => {
            if number <= 1 << 31 {
                Some(number.wrapping_neg())
            } else {
                None
            }
        }
    }
}
