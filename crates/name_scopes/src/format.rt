//! What a format prints.
ghost use Rattle.std.specs.Prelude.{◌≡◌, ◌+◌, false, true, MatchOption};
ghost use Rattle.xmt_base.specs.Format.{has_directives, directives};

/// How many values the text prints, or none where a percent sign begins neither `%d` nor `%%`.
pub fn printed_values(text: &[u8]) -> Option<usize>
    ensures { MatchOption result (has_directives false text.now ≡ false) (λ count. (has_directives false text.now ≡ true) × (directives false text.now ≡ count)) }
{
    let mut behind = false;
    let mut count = 0;
    for item in text {
        let c = *item;
        if behind {
            if c == b'd' {
                count += 1;
            } else if c != b'%' {
                return None;
            }
            behind = false;
        } else {
            behind = c == b'%';
        }
    }
    if behind { None } else { Some(count) }
}
