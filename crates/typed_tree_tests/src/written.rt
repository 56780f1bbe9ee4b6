//! The variables that a block writes and that are declared outside it.
#![tactic(auto, unfolding(source_meaning::specs::Opened::opened))]

ghost use Rattle.std.specs.Prelude.{IfOk, IsSome, slice_get};
ghost use Rattle.spawn_check.specs.Sharing.{spawns_of, spawn_at};

use source_meaning::{Expr, ExprKind, Function, Program, Stmt, StmtKind};
use spawn_check::written_inside;
use sqlite_items::{Boxed, Items};
use std::alloc::{AllocError, Global};
use xmt_base::Place;

const HERE: Place = Place { line: 1, column: 1 };

/// The numbers of the variables that the statements of the last function write, from the one with
/// this number on, when they stand in the block of a spawn.
pub fn written_in(alloc: Global, program: Program, outside: i64) -> Result<String, AllocError> {
    let mut program = program;
    match program.functions.pop() {
        Some(function) => {
            let variables = function.variables;
            written_by(alloc, block_of(function, outside), variables)
        }
        None => String::from_str(alloc, "no function"),
    }
}

// The statements of a function from the one with this number on.
fn block_of(function: Function, outside: i64) -> Items<Stmt> {
    let mut block = function.body;
    for _ in 0..outside {
        if block.len() > 0 {
            block.remove(0);
        }
    }
    block
}

// The numbers of the variables that a block writes.
fn written_by(alloc: Global, block: Items<Stmt>, variables: u32) -> Result<String, AllocError> {
    let program = program_with(alloc, block, variables)?;
    let written = written_inside(alloc, &program, 0, 0)?;
    listed(alloc, written.as_slice())
}

// A number.
fn number(alloc: Global, n: u32) -> Result<Boxed<Expr>, AllocError> {
    let kind = ExprKind::Number(n);
    Boxed::new(alloc, Expr { at: HERE, kind })
}

// `spawn(0, 4) block`
fn spawn_of(alloc: Global, block: Items<Stmt>) -> Result<Stmt, AllocError>
    ensures { IfOk result (λ s. IsSome (slice_get (spawns_of s.kind) 0)) }
{
    let low = number(alloc, 0)?;
    let high = number(alloc, 4)?;
    let kind = StmtKind::Spawn(low, high, block);
    Ok(Stmt { at: HERE, kind })
}

// `main() { spawn(0, 4) block }` with so many variables.
fn program_with(alloc: Global, block: Items<Stmt>, variables: u32) -> Result<Program, AllocError>
    ensures { IfOk result (λ p. IsSome (spawn_at p 0 0)) }
{
    let spawn = spawn_of(alloc, block)?;
    let mut body = Items::new(alloc);
    body.push(spawn)?;
    let mut functions = Items::new(alloc);
    functions.push(Function {
        name: Items::new(alloc),
        value: true,
        params: 0,
        variables,
        body,
    })?;
    Ok(Program {
        globals: Items::new(alloc),
        registers: Items::new(alloc),
        functions,
        main: 0,
    })
}

// Numbers with spaces between them.
fn listed(alloc: Global, numbers: &[u32]) -> Result<String, AllocError> {
    let mut text = String::new(alloc);
    for number in numbers {
        if !text.is_empty() {
            text.push_str(" ")?;
        }
        let word = format!(in alloc; "{number}")?;
        text.push_str(word.as_str())?;
    }
    Ok(text)
}
