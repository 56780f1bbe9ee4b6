//! The program: the top call over the words of the command line and the real host. `main` has no contract; its
//! stored run shows it.
#![tactic(auto)]

use spawn_join::OpenGate;
use std::alloc::{AllocError, Global};
use std::env;
use std::io::ErrorKind;
use std::process::ExitCode;
use xmt_host::RealHost;
use xmt_top::xmt;

// The exit status where no memory is found for the words.
const NO_MEMORY: u8 = 7;

// The exit status where the system doesn't give the words.
const NO_WORDS: u8 = 8;

fn main(rt: HostRuntime) -> ExitCode {
    let words = match env::args(&rt) {
        Ok(words) => words,
        Err(error) => return ExitCode::from(code_of(error.kind())),
    };
    let Ok(words) = behind_program(rt.alloc(), words) else {
        return ExitCode::from(NO_MEMORY);
    };
    let mut host = RealHost::new(&rt);
    ExitCode::from(xmt(&rt, rt.alloc(), words.as_slice(), &mut host, &OpenGate).code)
}

// The words behind the program's name.
fn behind_program(alloc: Global, words: env::Args) -> Result<Vec<String>, AllocError> {
    words.skip(1).collect(alloc)
}

fn code_of(kind: ErrorKind) -> u8 {
    match kind {
        ErrorKind::OutOfMemory => NO_MEMORY,
        _ => NO_WORDS,
    }
}
