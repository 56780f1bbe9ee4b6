//! Jobs.
use run_options::SimOptions;

/// What the first word asks for.
#[derive(Clone, Copy, Debug, PartialEq, Eq)]
pub enum Command {
    Compile,
    Simulate,
    Run,
}

/// What a call is to do.
#[derive(Debug, Drop)]
pub enum Job {
    /// Compiles the source of a file into an image.
    Compile {
        file: String,
        out: String,
    },
    /// Simulates the image of a file, with a map of its memory and a dump where they are given.
    Simulate {
        file: String,
        options: SimOptions,
        map: Option<String>,
        dump: Option<String>,
    },
    /// Runs the source of a file, with a map of its memory and a dump where they are given.
    Run {
        file: String,
        options: SimOptions,
        map: Option<String>,
        dump: Option<String>,
    },
}

/// Why words are refused.
#[derive(Clone, Copy, Debug, PartialEq, Eq)]
pub enum WordsRefusal {
    NotAJob,
    NoMemory,
}
