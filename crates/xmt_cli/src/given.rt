//! What the words behind the command give.
ghost use Rattle.std.specs.Prelude.{◌≡◌, None, map, string_bytes};
ghost use Rattle.std.specs.Option.{option_map};
ghost use Rattle.xmt_cli.specs.Given.{nothing, option_text, put, put_file, take_option, take_other, take_next, settled, walk};
ghost use Rattle.xmt_cli.specs.Seen.{seen, seen_state};

use crate::texts::{is_file_name, key_of, option_text, split_at_equals};

/// An option.
#[derive(Clone, Copy, Debug, PartialEq, Eq)]
pub enum Key {
    Units,
    Budget,
    Seed,
    Out,
    Map,
    Dump,
}

/// The texts that were given, each in its place.
#[derive(Clone, Copy, Debug)]
pub struct Given<'a> {
    pub file: Option<&'a str>,
    pub units: Option<&'a str>,
    pub budget: Option<&'a str>,
    pub seed: Option<&'a str>,
    pub out: Option<&'a str>,
    pub map: Option<&'a str>,
    pub dump: Option<&'a str>,
}

/// What the words so far leave: an option that waits for its value, and what was given.
#[derive(Clone, Copy, Debug)]
pub struct State<'a> {
    pub waits: Option<Key>,
    pub given: Given<'a>,
}

// Puts an option's value in its place, where it has none yet.
fn put<'a>(given: Given<'a>, key: Key, value: &'a str) -> Option<Given<'a>>
    ensures { option_map seen result ≡ put key (seen given.entry) value.now }
{
    match key {
        Key::Units => match given.units {
            Some(_) => None,
            None => Some(Given {
                units: Some(value),
                ..given
            }),
        },
        Key::Budget => match given.budget {
            Some(_) => None,
            None => Some(Given {
                budget: Some(value),
                ..given
            }),
        },
        Key::Seed => match given.seed {
            Some(_) => None,
            None => Some(Given {
                seed: Some(value),
                ..given
            }),
        },
        Key::Out => match given.out {
            Some(_) => None,
            None => Some(Given {
                out: Some(value),
                ..given
            }),
        },
        Key::Map => match given.map {
            Some(_) => None,
            None => Some(Given {
                map: Some(value),
                ..given
            }),
        },
        Key::Dump => match given.dump {
            Some(_) => None,
            None => Some(Given {
                dump: Some(value),
                ..given
            }),
        },
    }
}

// Puts a file's name in its place, where there is none yet.
fn put_file<'a>(given: Given<'a>, name: &'a str) -> Option<Given<'a>>
    ensures { option_map seen result ≡ put_file (seen given.entry) name.now }
{
    if is_file_name(name) {
        match given.file {
            Some(_) => None,
            None => Some(Given {
                file: Some(name),
                ..given
            }),
        }
    } else {
        None
    }
}

// The state behind a value or a name that was put in its place.
fn settled<'a>(given: Option<Given<'a>>) -> Option<State<'a>>
    ensures { option_map seen_state result ≡ settled (option_map seen given.entry) }
{
    match given {
        None => None,
        Some(given) => Some(State { waits: None, given }),
    }
}

// Takes an option, with its value where that stands in the same word.
fn take_option<'a>(given: Given<'a>, key: Option<Key>, value: Option<&'a str>) -> Option<State<'a>>
    ensures { option_map seen_state result ≡ take_option (seen given.entry) key (option_map (λ t. t.now) value.entry) }
{
    match key {
        None => None,
        Some(key) => match value {
            None => Some(State {
                waits: Some(key),
                given,
            }),
            Some(value) => settled(put(given, key, value)),
        },
    }
}

// Takes a word that is no option's value.
fn take_other<'a>(given: Given<'a>, word: &'a str) -> Option<State<'a>>
    ensures { option_map seen_state result ≡ take_other (seen given.entry) word.now (option_text word.now) }
{
    match option_text(word) {
        None => settled(put_file(given, word)),
        Some(text) => {
            let (name, value) = split_at_equals(text);
            take_option(given, key_of(name), value)
        }
    }
}

// Takes a word, which is the value of the option that waits.
fn take_next<'a>(state: State<'a>, word: &'a str) -> Option<State<'a>>
    ensures { option_map seen_state result ≡ take_next (seen_state state.entry) word.now }
{
    match state.waits {
        None => take_other(state.given, word),
        Some(key) => settled(put(state.given, key, word)),
    }
}

/// What the words behind the command give, or none where they aren't of its form.
pub(crate) fn read_given(words: &[String]) -> Option<Given<'_>>
    ensures { option_map seen result ≡ walk (record { waits = None; given = nothing }) (map string_bytes words.now) }
{
    let mut state = State {
        waits: None,
        given: Given {
            file: None,
            units: None,
            budget: None,
            seed: None,
            out: None,
            map: None,
            dump: None,
        },
    };
    for word in words {
        match take_next(state, word.as_str()) {
            None => return None,
            Some(next) => state = next,
        }
    }
    match state.waits {
        Some(_) => None,
        None => Some(state.given),
    }
}
