//! The first rule of spawn blocks that a program breaks.
use source_meaning::Program;
use spawn_check::check;
use sqlite_items::Items;
use std::alloc::{AllocError, Global};

// The most functions of a program.
const FUNCTIONS: usize = 1_000;

/// The rule that the changed program breaks first, and where.
pub fn rule_met(alloc: Global, program: Program, change: &str) -> Result<String, AllocError> {
    let program = changed(alloc, program, change)?;
    if program.functions.len() > FUNCTIONS {
        return String::from_str(alloc, "too many functions");
    }
    match check(&program) {
        Ok(()) => String::from_str(alloc, "passes"),
        Err(refusal) => {
            let place = refusal.place;
            format!(in alloc; "{:?} {}:{}", refusal.kind, place.line, place.column)
        }
    }
}

// The program with its functions in reverse, without the last one, or as it is.
fn changed(alloc: Global, program: Program, change: &str) -> Result<Program, AllocError> {
    let mut program = program;
    match change {
        "functions reversed" => reverse_functions(alloc, &mut program)?,
        "without the last function" => {
            program.functions.pop();
        }
        _ => {}
    }
    Ok(program)
}

// Puts the functions in reverse.
fn reverse_functions(alloc: Global, program: &mut Program) -> Result<(), AllocError> {
    let mut reversed = Items::new(alloc);
    for _ in 0..program.functions.len() {
        if let Some(function) = program.functions.pop() {
            reversed.push(function)?;
        }
    }
    program.functions = reversed;
    Ok(())
}
