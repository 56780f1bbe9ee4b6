//! What reading answers, and the tokens that it takes.

ghost use Rattle.std.specs.Prelude.{◌≡◌, IfOk};
ghost use Rattle.raw_tree.specs.Grammar as grammar;
ghost use Rattle.raw_tree.specs.Gives as gives;
ghost use Rattle.raw_tree.specs.Passes.{passes};
ghost use Rattle.raw_tree.specs.Reading as spec;
ghost use Rattle.raw_tree.specs.ReadingStatements as code;

use crate::kinds::{Expected, bytes_between, is_name, passes};
use crate::tree::RawName;
use sqlite_items::Items;
use std::alloc::{AllocError, Global};
use xmt_lex::Token;

/// Why nothing was read.
#[derive(Clone, Copy, Debug, PartialEq, Eq)]
pub enum ReadError {
    /// A token does not fit, or there is none: how many tokens are left from there on.
    Syntax(usize),
    NoMemory,
}

impl From<AllocError> for ReadError {
    ghost use Rattle.raw_tree.specs.declared.read.ReadError.TheVariants.{NoMemory};

    ghost from_gives = { λ _ e. e ≡ NoMemory };

    fn from(_e: AllocError) -> ReadError {
        ReadError::NoMemory
    }
}

/// What was read, the nesting of its expressions, and the tokens behind it. The nesting of
/// statements is not counted here: reading goes no deeper than allowed.
#[derive(Drop)]
pub struct Read<'a, T> {
    pub tree: T,
    pub nest: u32,
    pub rest: &'a [Token],
}

/// The tokens behind the one that is wanted.
pub fn past<'a>(expected: Expected, ts: &'a [Token]) -> Result<&'a [Token], ReadError>
    ensures { gives.GivesTokens result (spec.past (passes expected) ts.now) }
{
    match ts {
        [t, more @ ..] if passes(expected, t.kind) => Ok(more),
        _ => Err(ReadError::Syntax(ts.len())),
    }
}

/// The tokens behind one that may stand there.
pub fn behind<'a>(expected: Expected, ts: &'a [Token]) -> Option<&'a [Token]>
    ensures { gives.GivesSome result (spec.past (passes expected) ts.now) }
{
    match ts {
        [t, more @ ..] if passes(expected, t.kind) => Some(more),
        _ => None,
    }
}

/// What was read, with the token that is wanted behind it taken too.
pub fn followed_by<'a, T: Drop>(
    expected: Expected,
    read: Read<'a, T>,
) -> Result<Read<'a, T>, ReadError>
    ensures value { gives.Gives result (gives.with_end (passes expected) (gives.view read.entry)) }
    ensures rest { gives.GivesRest result (spec.past (passes expected) read.entry.rest.now) }
    ensures tree { IfOk result (λ r. r.tree ≡ read.entry.tree) }
    ensures nest { IfOk result (λ r. r.nest ≡ read.entry.nest) }
{
    let Read { tree, nest, rest } = read;
    let rest = past(expected, rest)?;
    Ok(Read { tree, nest, rest })
}

pub fn name_of(alloc: Global, source: &[u8], t: Token) -> Result<RawName, AllocError>
    ensures { IfOk result (λ name. name ≡ grammar.name_of source.now t) }
{
    let bytes = Items::from_slice(
        alloc,
        bytes_between(source, t.start as usize, t.end as usize),
    )?;
    Ok(RawName { at: t.place, bytes })
}

pub fn read_name<'a>(
    alloc: Global,
    source: &[u8],
    ts: &'a [Token],
) -> Result<Read<'a, RawName>, ReadError>
    ensures { gives.Gives result (code.read_name source.now ts.now) }
{
    match ts {
        [t, more @ ..] if is_name(t.kind) => {
            let tree = name_of(alloc, source, *t)?;
            Ok(Read {
                tree,
                nest: 0,
                rest: more,
            })
        }
        _ => Err(ReadError::Syntax(ts.len())),
    }
}
