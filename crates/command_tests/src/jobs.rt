//! The jobs that words are.
use crate::calls::words_of;
use run_options::SimOptions;
use std::alloc::{AllocError, Global};
use test_rows::verdict;
use xmt_cli::{Job, WordsRefusal, read_words};

// The name of a file, or a hyphen where none is given.
fn name_or_hyphen(name: &Option<String>) -> &str {
    match name {
        None => "-",
        Some(name) => name.as_str(),
    }
}

// The file, the units, the budget, the seed, and the files of the map and the dump.
fn run_shown(
    alloc: Global,
    command: &str,
    file: &str,
    options: &SimOptions,
    files: (&str, &str),
) -> Result<String, AllocError> {
    let numbers = format!(in alloc; "{} {} {:?}", options.units, options.budget, options.seed)?;
    format!(in alloc; "{command} {file} {numbers} {} {}", files.0, files.1)
}

// A job in a line.
fn shown(alloc: Global, job: &Job) -> Result<String, AllocError> {
    match job {
        Job::Compile { file, out } => format!(in alloc; "cc {file} {out}"),
        Job::Simulate {
            file,
            options,
            map,
            dump,
        } => run_shown(
            alloc,
            "sim",
            file.as_str(),
            options,
            (name_or_hyphen(map), name_or_hyphen(dump)),
        ),
        Job::Run {
            file,
            options,
            map,
            dump,
        } => run_shown(
            alloc,
            "run",
            file.as_str(),
            options,
            (name_or_hyphen(map), name_or_hyphen(dump)),
        ),
    }
}

// What words are: a job, or none.
fn read(alloc: Global, words: &[String]) -> Result<String, AllocError> {
    match read_words(alloc, words) {
        Ok(job) => shown(alloc, &job),
        Err(WordsRefusal::NotAJob) => String::from_str(alloc, "none"),
        Err(WordsRefusal::NoMemory) => Err(AllocError),
    }
}

/// The line of words that are this job, or `none`.
pub(crate) fn job_line(alloc: Global, line: &str, job: &str) -> Result<String, AllocError> {
    let words = words_of(alloc, line)?;
    let found = read(alloc, words.as_slice())?;
    verdict(alloc, line, found.as_str(), job)
}
