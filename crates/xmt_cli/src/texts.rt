//! The parts of a word.
ghost use Rattle.std.specs.Prelude.{◌≡◌};
ghost use Rattle.std.specs.Option.{option_map};
ghost use Rattle.xmt_cli.specs.Given.{is_file_name, key_of, front_of, behind, hyphen_text, option_text};
ghost use Rattle.xmt_cli.specs.JobOf.{command_of};

use crate::given::Key;
use crate::job::Command;

/// A file name isn't empty and doesn't begin with a hyphen.
pub(crate) fn is_file_name(name: &str) -> bool
    ensures { result ≡ is_file_name name.now }
{
    match name.as_bytes() {
        [] => false,
        [first, ..] => *first != b'-',
    }
}

/// The option of a name.
pub(crate) fn key_of(name: &str) -> Option<Key>
    ensures { result ≡ key_of name.now }
{
    match name {
        "units" => Some(Key::Units),
        "budget" => Some(Key::Budget),
        "seed" => Some(Key::Seed),
        "out" => Some(Key::Out),
        "map" => Some(Key::Map),
        "dump" => Some(Key::Dump),
        _ => None,
    }
}

/// The command that a word is.
pub(crate) fn command_of(word: &str) -> Option<Command>
    ensures { result ≡ command_of word.now }
{
    match word {
        "cc" => Some(Command::Compile),
        "sim" => Some(Command::Simulate),
        "run" => Some(Command::Run),
        _ => None,
    }
}

// What follows a hyphen.
fn hyphen_text(word: &str) -> Option<&str>
    ensures { option_map (λ text. text.now) result ≡ hyphen_text word.now }
{
    word.strip_prefix('-')
}

/// What follows two hyphens.
pub(crate) fn option_text(word: &str) -> Option<&str>
    ensures { option_map (λ text. text.now) result ≡ option_text word.now }
{
    match hyphen_text(word) {
        None => None,
        Some(rest) => hyphen_text(rest),
    }
}

/// The text in front of the first equals sign, and what stands behind it.
pub(crate) fn split_at_equals(text: &str) -> (&str, Option<&str>)
    ensures front { result.0.now ≡ front_of text.now }
    ensures behind { option_map (λ value. value.now) result.1 ≡ behind text.now }
{
    match text.split_once('=') {
        None => (text, None),
        Some((front, value)) => (front, Some(value)),
    }
}
