//! The variables that a block writes and that are declared outside it.
#![tactic(auto, unfolding(source_meaning::specs::Opened::opened))]

ghost use Rattle.std.specs.Prelude.{◌≡◌, IfOk, IsSome, IfSome};
ghost use Rattle.source_meaning.specs.Variables.{is_sharing};
ghost use Rattle.spawn_check.specs.Sharing.{spawns_of, spawns_of_option, spawns_in, spawn_at, variables_of, shared_with, IsNth};

use crate::questions::{Question, some_in_body};
use source_meaning::{Program, Stmt, StmtKind};
use sqlite_items::Boxed;
use std::alloc::{AllocError, Global};

/// What a walk over spawns comes to, which looks for one by its number.
pub(crate) enum Walk<'a> {
    /// This statement is the spawn.
    Found(&'a Stmt),
    /// It wasn't met, and so many more are to be passed.
    Passed(u32),
}

#[cycle(walk)]
fn walk_statement(s: &Stmt, number: u32) -> Walk<'_>
    ensures { IsNth result (spawns_of s.now.kind) number }
{
    match &s.kind {
        StmtKind::Block(body) => walk_statements(body.as_slice(), number),
        StmtKind::While(_, body) | StmtKind::Do(body, _) => walk_statement(body.get(), number),
        StmtKind::If(_, body, other) => match walk_statement(body.get(), number) {
            Walk::Found(spawn) => Walk::Found(spawn),
            Walk::Passed(left) => walk_other(other, left),
        },
        StmtKind::For(first, _, _, body) => match walk_statements(first.as_slice(), number) {
            Walk::Found(spawn) => Walk::Found(spawn),
            Walk::Passed(left) => walk_statement(body.get(), left),
        },
        StmtKind::Spawn(_, _, block) => {
            if number == 0 {
                Walk::Found(s)
            } else {
                walk_statements(block.as_slice(), number - 1)
            }
        }
        _ => Walk::Passed(number),
    }
}

#[cycle(walk)]
fn walk_other(other: &Option<Boxed<Stmt>>, number: u32) -> Walk<'_>
    ensures { IsNth result (spawns_of_option other.now) number }
{
    match other {
        None => Walk::Passed(number),
        Some(s) => walk_statement(s.get(), number),
    }
}

#[cycle(walk)]
fn walk_statements(body: &[Stmt], number: u32) -> Walk<'_>
    ensures { IsNth result (spawns_in body.now) number }
{
    let mut number = number;
    for s in body {
        match walk_statement(s, number) {
            Walk::Found(spawn) => return Walk::Found(spawn),
            Walk::Passed(left) => number = left,
        }
    }
    Walk::Passed(number)
}

/// Whether the block of a spawn writes the variable and doesn't declare it.
pub(crate) fn shares(s: &Stmt, slot: u32) -> bool
    ensures { result ≡ is_sharing slot s.now.kind }
{
    match &s.kind {
        StmtKind::Spawn(_, _, block) => {
            some_in_body(Question::Writes(slot), &[], block.as_slice())
                && !some_in_body(Question::Declares(slot), &[], block.as_slice())
        }
        _ => false,
    }
}

/// The variables, below this number, that the block of a spawn writes and doesn't declare.
fn shared_variables(alloc: Global, variables: u32, s: &Stmt) -> Result<Vec<u32>, AllocError>
    ensures { IfOk result (λ shared. shared.items ≡ shared_with variables s.now.kind) }
{
    (0..variables)
        .filter(|slot| shares(s, *slot))
        .collect(alloc)
}

/// The variables of a function that are declared outside one of its blocks and written in it, by
/// an assignment, an update, a step or a prefix-sum. They are rising. The blocks of the function
/// are numbered from 0 on in the order of the text, one before those inside it.
pub fn written_inside(
    alloc: Global,
    program: &Program,
    function: u32,
    spawn: u32,
) -> Result<Vec<u32>, AllocError>
    requires { IsSome (spawn_at program.now function spawn) }
    ensures { IfOk result (λ shared. IfSome (spawn_at program.now function spawn) (λ s. shared.items ≡ shared_with (variables_of program.now function) s)) }
{
    let function = &program.functions.as_slice()[function as usize];
    match walk_statements(function.body.as_slice(), spawn) {
        Walk::Found(s) => shared_variables(alloc, function.variables, s),
        Walk::Passed(_) => Ok(Vec::new(alloc)),
    }
}
