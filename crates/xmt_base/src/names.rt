//! How names are spelled.
ghost use Rattle.std.specs.Prelude.{◌≡◌, IsTrue, ◌↔◌};
ghost use Rattle.std.specs.List.{list_all, list_any};
ghost use Rattle.std.specs.Str.{bytes_eq};
ghost use Rattle.xmt_base.specs.Name.{IsName, is_name_part, is_name_start, is_keyword, is_word};

/// The words that are no names.
pub const KEYWORDS: [&[u8]; 39] = [
    b"int",
    b"void",
    b"if",
    b"else",
    b"while",
    b"do",
    b"for",
    b"break",
    b"continue",
    b"return",
    b"const",
    b"volatile",
    b"spawn",
    b"sspawn",
    b"ps",
    b"psm",
    b"psBaseReg",
    b"printf",
    b"unsigned",
    b"signed",
    b"float",
    b"double",
    b"char",
    b"short",
    b"long",
    b"struct",
    b"union",
    b"enum",
    b"typedef",
    b"extern",
    b"static",
    b"goto",
    b"switch",
    b"case",
    b"default",
    b"sizeof",
    b"register",
    b"auto",
    b"inline",
];

fn is_name_start(c: u8) -> bool
    ensures { result ≡ is_name_start c }
{
    c.is_ascii_alphabetic() || c == b'_'
}

fn is_name_part(c: u8) -> bool
    ensures { result ≡ is_name_part c }
{
    is_name_start(c) || c.is_ascii_digit()
}

fn is_keyword(text: &[u8]) -> bool
    ensures { result ≡ is_keyword text.now }
{
    is_among(&KEYWORDS, text)
}

// The text is one of these.
fn is_among(texts: &[&[u8]], text: &[u8]) -> bool
    ensures { result ≡ list_any (λ other. bytes_eq other.now text.now) texts.now }
{
    texts.iter().any(|other| *other == text)
}

fn are_name_parts(text: &[u8]) -> bool
    ensures { result ≡ list_all is_name_part text.now }
{
    text.iter().all(|c| is_name_part(*c))
}

// The text is a letter or an underscore, then letters, digits and underscores.
fn is_word(text: &[u8]) -> bool
    ensures { result ≡ is_word text.now }
{
    match text {
        [] => false,
        [first, rest @ ..] => is_name_start(*first) && are_name_parts(rest),
    }
}

/// The text is a name: a letter or an underscore, then letters, digits and underscores, and no
/// keyword.
pub fn is_name(text: &[u8]) -> bool
    ensures { IsTrue result ↔ IsName text.now }
{
    is_word(text) && !is_keyword(text)
}
