//! The variables that blocks share, and the words that a program wants.
#![tactic(auto, using(crate::proofs::Rows::tests), unfolding(source_meaning::specs::Opened::opened))]

ghost use Rattle.std.specs.Prelude.{◌≡◌, ◌↔◌, ◌≤◌, ◌-◌, ◌^◌, min, IsTrue};
ghost use Rattle.source_meaning.specs.Inside.{some_below, some_statement};
ghost use Rattle.source_meaning.specs.Layout.{all_words};
ghost use Rattle.source_meaning.specs.Variables.{is_sharing, is_shared};
ghost use Rattle.spawn_check.specs.Words.{shared_in, outer_words, words_of};

use crate::written::shares;
use source_meaning::{Function, GlobalVar, Program, Stmt, StmtKind};

#[cycle(shared)]
fn shared_in_statement(s: &Stmt, slot: u32) -> bool
    ensures { result ≡ some_statement (is_sharing slot) s.now.kind }
{
    shares(s, slot) || shared_below_it(&s.kind, slot)
}

#[cycle(shared)]
fn shared_below_it(kind: &StmtKind, slot: u32) -> bool
    ensures { result ≡ some_below (is_sharing slot) kind.now }
{
    match kind {
        StmtKind::Block(body) => is_shared(body.as_slice(), slot),
        StmtKind::Spawn(_, _, block) => is_shared(block.as_slice(), slot),
        StmtKind::If(_, body, None) | StmtKind::While(_, body) | StmtKind::Do(body, _) => {
            shared_in_statement(body.get(), slot)
        }
        StmtKind::If(_, body, Some(other)) => {
            shared_in_statement(body.get(), slot) || shared_in_statement(other.get(), slot)
        }
        StmtKind::For(first, _, _, body) => {
            is_shared(first.as_slice(), slot) || shared_in_statement(body.get(), slot)
        }
        _ => false,
    }
}

/// Whether a variable of the function with this body is shared: some block in it writes the
/// variable and doesn't declare it.
#[cycle(shared)]
pub fn is_shared(body: &[Stmt], slot: u32) -> bool
    ensures { result ≡ is_shared body.now slot }
{
    for s in body {
        if shared_in_statement(s, slot) {
            return true;
        }
    }
    false
}

/// How many variables of a function are shared.
pub fn shared_variables(function: &Function) -> u32
    ensures { result ≡ shared_in function.now }
{
    let mut count = 0;
    for slot in 0..function.variables {
        if is_shared(function.body.as_slice(), slot) {
            count += 1;
        }
    }
    count
}

/// How many outer words each depth of the serial code has: as many as the function with the most
/// shared variables has of them.
pub fn outer_words(program: &Program) -> u32
    ensures { result ≡ outer_words program.now.functions }
{
    let mut most = 0;
    for function in program.functions.as_slice() {
        most = most.max(shared_variables(function));
    }
    most
}

/// The greatest number of words that several threads may reach.
const WORDS: u64 = 1 << 20;

// The words of the globals, or the greatest number where they are more.
fn global_words(globals: &[GlobalVar]) -> u64
    ensures { result ≡ min (all_words globals.now) (2 ^ 64 - 1) }
{
    let mut words = 0u64;
    for global in globals {
        words = words.saturating_add(u64::from(global.length));
    }
    words
}

/// Whether the words of the globals and the outer words of all depths, from 0 to 256, are at most
/// 1,048,576.
pub fn has_few_words(program: &Program) -> bool
    ensures { IsTrue result ↔ (words_of program.now ≤ 2 ^ 20) }
{
    let globals = global_words(program.globals.as_slice());
    let outer = 257 * u64::from(outer_words(program));
    globals.saturating_add(outer) <= WORDS
}
