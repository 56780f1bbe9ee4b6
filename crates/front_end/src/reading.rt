//! Reads a source: its tokens, its tree, its program.
ghost use Rattle.std.specs.Prelude.{◌≤◌, ◌^◌, length, IfOk};
ghost use Rattle.checked_programs.specs.Checked.{IsChecked};
ghost use Rattle.checked_programs.specs.Limits.{IsWithinLimits, HasFewNodes};
ghost use Rattle.front_end.specs.Refused.{HasTokens, IsTree};
ghost use Rattle.front_end.specs.Reads.{Fronts, ReadsTokens, ReadsTree, ChecksProgram};

use crate::refusal::{SourceKind, SourceRefusal, of_blocks, of_names, of_parser, of_tokens};
use source_meaning::Program;
use spawn_check::{check, has_few_words};
use std::alloc::Global;
use xmt_base::Place;
use xmt_lex::{Token, lex};
use xmt_parse::{RawProgram, parse};
use xmt_types::resolve;

// The most bytes of a source.
const BYTES: usize = 1 << 20;

// Where a source begins.
const FIRST: Place = Place { line: 1, column: 1 };

/// The program of a source. A source that breaks a rule is refused, at the place of the first one.
#[tactic(auto, using(crate::proofs::Checked::front_checked, crate::proofs::Checked::front_limits, crate::proofs::Checked::front_nodes))]
pub fn front(alloc: Global, source: &[u8]) -> Result<Program, SourceRefusal>
    ensures answer { Fronts source.now result }
    ensures checked { IfOk result IsChecked }
    ensures limits { IfOk result IsWithinLimits }
    ensures nodes { IfOk result HasFewNodes }
{
    read(alloc, source)
}

// The program of a source, or the first rule that it breaks.
fn read(alloc: Global, source: &[u8]) -> Result<Program, SourceRefusal>
    ensures { Fronts source.now result }
{
    if source.len() > BYTES {
        return Err(SourceRefusal::Refused(SourceKind::TooLong, FIRST));
    }
    match read_tokens(alloc, source) {
        Err(refusal) => Err(refusal),
        Ok(tokens) => match read_tree(alloc, source, tokens.as_slice()) {
            Err(refusal) => Err(refusal),
            Ok(tree) => read_program(alloc, source, tokens.as_slice(), &tree),
        },
    }
}

// The tokens of a source.
#[tactic(auto, using(crate::proofs::Refused::has_tokens, crate::proofs::Refused::tokens_refused))]
fn read_tokens(alloc: Global, source: &[u8]) -> Result<Vec<Token>, SourceRefusal>
    requires { length source.now ≤ 2 ^ 20 }
    ensures { ReadsTokens source.now result }
{
    match lex(alloc, source) {
        Ok(tokens) => Ok(tokens),
        Err(refusal) => Err(of_tokens(refusal)),
    }
}

// The tree that the tokens of a source spell.
#[tactic(auto, using(crate::proofs::Refused::tree_spelled, crate::proofs::Refused::tree_refused))]
fn read_tree(alloc: Global, source: &[u8], tokens: &[Token]) -> Result<RawProgram, SourceRefusal>
    requires { HasTokens source.now tokens.now }
    ensures { ReadsTree source.now tokens.now result }
{
    match parse(alloc, source, tokens) {
        Ok(tree) => Ok(tree),
        Err(refusal) => Err(of_parser(refusal)),
    }
}

// The program of the tree of a source.
fn read_program(
    alloc: Global,
    source: &[u8],
    tokens: &[Token],
    tree: &RawProgram,
) -> Result<Program, SourceRefusal>
    requires tokens { HasTokens source.now tokens.now }
    requires tree { IsTree source.now tokens.now tree.now }
    ensures { Fronts source.now result }
{
    match resolve(alloc, tree) {
        Err(refusal) => Err(of_names(refusal)),
        Ok(program) => check_program(program),
    }
}

// The same program, if its blocks and its words break no rule.
fn check_program(program: Program) -> Result<Program, SourceRefusal>
    requires { length program.functions ≤ 1000 }
    ensures { ChecksProgram program result }
{
    match check(&program) {
        Err(refusal) => Err(of_blocks(refusal)),
        Ok(()) => {
            if has_few_words(&program) {
                Ok(program)
            } else {
                Err(SourceRefusal::Refused(SourceKind::TooMuchMemory, FIRST))
            }
        }
    }
}
