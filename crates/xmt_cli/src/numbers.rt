//! Numbers among the words.
ghost use Rattle.std.specs.Prelude.{◌≡◌, ◌≤◌, IfSome};
ghost use Rattle.std.specs.Option.{option_map};
ghost use Rattle.std.specs.List.{list_all};
ghost use Rattle.std.specs.Char.{is_ascii_digit};
ghost use Rattle.xmt_cli.specs.Numbers.{number_in, number_or, seed_of};

fn all_digits(text: &str) -> bool
    ensures { result ≡ list_all is_ascii_digit text.now }
{
    text.as_bytes().iter().all(|c| c.is_ascii_digit())
}

// The number of 1 to 20 decimal digits, from low to high, that a text is.
fn number_in(low: u64, high: u64, text: &str) -> Option<u64>
    ensures number { result ≡ number_in low high text.now }
    ensures least { IfSome result (λ number. low ≤ number) }
    ensures most { IfSome result (λ number. number ≤ high) }
{
    if text.len() > 20 || !all_digits(text) {
        return None;
    }
    match text.parse::<u64>() {
        Err(_) => None,
        Ok(number) => {
            if low <= number && number <= high {
                Some(number)
            } else {
                None
            }
        }
    }
}

/// The number from low to high that a text is, or the usual one where there is no text.
pub(crate) fn number_or(usual: u64, low: u64, high: u64, text: Option<&str>) -> Option<u64>
    requires least { low ≤ usual }
    requires most { usual ≤ high }
    ensures number { result ≡ number_or usual low high (option_map (λ t. t.now) text.entry) }
    ensures least { IfSome result (λ number. low ≤ number) }
    ensures most { IfSome result (λ number. number ≤ high) }
{
    match text {
        None => Some(usual),
        Some(text) => number_in(low, high, text),
    }
}

/// The seed that a text is, or none where there is no text.
pub(crate) fn seed_of(text: Option<&str>) -> Option<Option<u64>>
    ensures { result ≡ seed_of (option_map (λ t. t.now) text.entry) }
{
    match text {
        None => Some(None),
        Some(text) => match number_in(0, u64::MAX, text) {
            None => None,
            Some(seed) => Some(Some(seed)),
        },
    }
}
