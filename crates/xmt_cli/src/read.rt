//! Reading the words of a call.
ghost use Rattle.std.specs.Prelude.{◌≡◌, map, string_bytes, IfOk, IfErr, IfSome};
ghost use Rattle.std.specs.Option.{option_map};
ghost use Rattle.xmt_cli.specs.JobOf.{options_of, may_name, beginning, start_of, has_no_run_option, compile, compilation, compile_of, simulated, ran, task, task_behind, seen_job, IsJobOf, AreInRange, HasRange, Refuses};
ghost use Rattle.xmt_cli.specs.Seen.{seen, seen_start};

use crate::given::{Given, read_given};
use crate::job::{Command, Job, WordsRefusal};
use crate::numbers::{number_or, seed_of};
use crate::texts::{command_of, is_file_name};
use run_options::SimOptions;
use std::alloc::{AllocError, Global};

/// What a run begins with.
#[derive(Clone, Copy, Debug)]
pub struct Start<'a> {
    pub file: &'a str,
    pub options: SimOptions,
    pub map: Option<&'a str>,
    pub dump: Option<&'a str>,
}

// The units, the budget and the seed.
fn options_of(given: &Given) -> Option<SimOptions>
    ensures options { result ≡ options_of (seen given.now) }
    ensures range { IfSome result AreInRange }
{
    match number_or(4, 1, 64, given.units) {
        None => None,
        Some(units) => match number_or(100_000_000, 1, 1 << 40, given.budget) {
            None => None,
            Some(budget) => match seed_of(given.seed) {
                None => None,
                Some(seed) => Some(SimOptions {
                    units: units as u32,
                    budget,
                    seed,
                }),
            },
        },
    }
}

// The name of a file, where one is given; none where what is given is no such name.
fn may_name(text: Option<&str>) -> Option<Option<&str>>
    ensures { option_map (λ name. option_map (λ t. t.now) name) result ≡ may_name (option_map (λ t. t.now) text.entry) }
{
    match text {
        None => Some(None),
        Some(name) => {
            if is_file_name(name) {
                Some(Some(name))
            } else {
                None
            }
        }
    }
}

// What is given for a run.
fn beginning<'a>(given: &Given<'a>) -> Option<Start<'a>>
    ensures start { option_map seen_start result ≡ beginning (seen given.now) }
    ensures range { IfSome result (λ start. AreInRange start.options) }
{
    match given.file {
        None => None,
        Some(file) => match options_of(given) {
            None => None,
            Some(options) => match may_name(given.map) {
                None => None,
                Some(map) => match may_name(given.dump) {
                    None => None,
                    Some(dump) => Some(Start {
                        file,
                        options,
                        map,
                        dump,
                    }),
                },
            },
        },
    }
}

// What is given for a run, if no file for an image is.
fn start_of<'a>(given: &Given<'a>) -> Option<Start<'a>>
    ensures start { option_map seen_start result ≡ start_of (seen given.now) }
    ensures range { IfSome result (λ start. AreInRange start.options) }
{
    match given.out {
        Some(_) => None,
        None => beginning(given),
    }
}

// No option of a run is given.
fn has_no_run_option(given: &Given) -> bool
    ensures { result ≡ has_no_run_option (seen given.now) }
{
    given.units.is_none()
        && given.budget.is_none()
        && given.seed.is_none()
        && given.map.is_none()
        && given.dump.is_none()
}

// A copy of a name that may be given.
fn owned(alloc: Global, text: Option<&str>) -> Result<Option<String>, AllocError>
    ensures { IfOk result (λ made. option_map string_bytes made ≡ option_map (λ t. t.now) text.entry) }
{
    match text {
        None => Ok(None),
        Some(text) => Ok(Some(String::from_str(alloc, text)?)),
    }
}

fn compile_job(alloc: Global, file: &str, out: &str) -> Result<Job, AllocError>
    ensures job { IfOk result (λ made. seen_job made ≡ compile file.now out.now) }
    ensures range { IfOk result HasRange }
{
    Ok(Job::Compile {
        file: String::from_str(alloc, file)?,
        out: String::from_str(alloc, out)?,
    })
}

fn simulate_job(alloc: Global, start: Start) -> Result<Job, AllocError>
    requires range { AreInRange start.options }
    ensures job { IfOk result (λ made. seen_job made ≡ simulated (seen_start start.entry)) }
    ensures range { IfOk result HasRange }
{
    Ok(Job::Simulate {
        file: String::from_str(alloc, start.file)?,
        options: start.options,
        map: owned(alloc, start.map)?,
        dump: owned(alloc, start.dump)?,
    })
}

fn run_job(alloc: Global, start: Start) -> Result<Job, AllocError>
    requires range { AreInRange start.options }
    ensures job { IfOk result (λ made. seen_job made ≡ ran (seen_start start.entry)) }
    ensures range { IfOk result HasRange }
{
    Ok(Job::Run {
        file: String::from_str(alloc, start.file)?,
        options: start.options,
        map: owned(alloc, start.map)?,
        dump: owned(alloc, start.dump)?,
    })
}

// A compilation, from a file and a name for its image.
fn compilation(alloc: Global, given: &Given) -> Result<Option<Job>, AllocError>
    ensures job { IfOk result (λ made. option_map seen_job made ≡ compilation (seen given.now)) }
    ensures range { IfOk result (λ made. IfSome made HasRange) }
{
    match given.file {
        None => Ok(None),
        Some(file) => match may_name(given.out) {
            Some(Some(out)) => Ok(Some(compile_job(alloc, file, out)?)),
            _ => Ok(None),
        },
    }
}

// A compilation, if no option of a run is given.
fn compile_of(alloc: Global, given: &Given) -> Result<Option<Job>, AllocError>
    ensures job { IfOk result (λ made. option_map seen_job made ≡ compile_of (seen given.now)) }
    ensures range { IfOk result (λ made. IfSome made HasRange) }
{
    if has_no_run_option(given) {
        compilation(alloc, given)
    } else {
        Ok(None)
    }
}

// The job of a command, and of what is given behind it.
fn job_of(alloc: Global, command: Command, given: &Given) -> Result<Option<Job>, AllocError>
    ensures job { IfOk result (λ made. option_map seen_job made ≡ task command (seen given.now)) }
    ensures range { IfOk result (λ made. IfSome made HasRange) }
{
    match command {
        Command::Compile => compile_of(alloc, given),
        Command::Simulate => match start_of(given) {
            None => Ok(None),
            Some(start) => Ok(Some(simulate_job(alloc, start)?)),
        },
        Command::Run => match start_of(given) {
            None => Ok(None),
            Some(start) => Ok(Some(run_job(alloc, start)?)),
        },
    }
}

// The job of a command and the words behind it.
fn job_behind(alloc: Global, command: Command, words: &[String]) -> Result<Option<Job>, AllocError>
    ensures job { IfOk result (λ made. option_map seen_job made ≡ task_behind (map string_bytes words.now) command) }
    ensures range { IfOk result (λ made. IfSome made HasRange) }
{
    match read_given(words) {
        None => Ok(None),
        Some(given) => job_of(alloc, command, &given),
    }
}

/// The job that the words are.
pub fn read_words(alloc: Global, words: &[String]) -> Result<Job, WordsRefusal>
    ensures ok { IfOk result (λ job. IsJobOf (map string_bytes words.now) job) }
    ensures range { IfOk result HasRange }
    ensures err { IfErr result (λ refusal. Refuses refusal (map string_bytes words.now)) }
{
    match words {
        [] => Err(WordsRefusal::NotAJob),
        [word, rest @ ..] => match command_of(word.as_str()) {
            None => Err(WordsRefusal::NotAJob),
            Some(command) => match job_behind(alloc, command, rest) {
                Err(_) => Err(WordsRefusal::NoMemory),
                Ok(None) => Err(WordsRefusal::NotAJob),
                Ok(Some(job)) => Ok(job),
            },
        },
    }
}
