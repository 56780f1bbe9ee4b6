//! Makes the nodes of declarations and statements from the parts that were read.

ghost use Rattle.std.specs.Prelude.{◌≡◌, IfOk, Some, None};
ghost use Rattle.raw_tree.specs.Gives as gives;
ghost use Rattle.raw_tree.specs.Statements as grammar;
ghost use Rattle.raw_tree.specs.ReadingStatements as code;
ghost use Rattle.raw_tree.specs.Reading.{got};
ghost use Rattle.raw_tree.specs.declared.tree.RawFirst.TheVariants as first;
ghost use Rattle.raw_tree.specs.declared.tree.RawStmtKind.TheVariants as s;
ghost use Rattle.raw_statements.specs.Heads as heads;

use raw_tree::read::{Read, ReadError};
use raw_tree::{
    Qualifier, RawDecl, RawExpr, RawFirst, RawLocal, RawName, RawSpot, RawStmt, RawStmtKind,
    RawText, RawType,
};
use sqlite_items::{Boxed, Items};
use std::alloc::{AllocError, Global};
use xmt_base::Place;
use xmt_lex::Token;

/// A node, in a box from the start: a box is cheap to hold while something else may fail.
pub fn statement(alloc: Global, at: Place, kind: RawStmtKind) -> Result<Boxed<RawStmt>, AllocError>
    ensures { IfOk result (λ a. a ≡ grammar.statement at kind) }
{
    Boxed::new(alloc, RawStmt { at, kind })
}

/// An expression that could be left out.
pub fn opened<'a>(a: Read<'a, Boxed<RawExpr>>) -> Read<'a, Option<Boxed<RawExpr>>>
    ensures { code.opening_value (Some (gives.view a.entry)) ≡ Some (gives.view result) }
{
    let Read { tree, nest, rest } = a;
    Read {
        tree: Some(tree),
        nest,
        rest,
    }
}

/// A type of these qualifiers.
pub fn typed<'a>(at: Place, words: Read<'a, Items<Qualifier>>) -> Read<'a, RawType>
    ensures { Some (gives.view result) ≡ got (record { at = at; qualifiers = words.entry.tree }) 0 words.entry.rest.now }
{
    let Read { tree, rest, .. } = words;
    Read {
        tree: RawType {
            at,
            qualifiers: tree,
        },
        nest: 0,
        rest,
    }
}

/// A local, with the value that it opens with.
pub fn local<'a>(
    name: Read<'a, RawName>,
    value: Read<'a, Option<Boxed<RawExpr>>>,
) -> Read<'a, RawLocal>
    ensures { Some (gives.view result) ≡ got (record { name = name.entry.tree; value = value.entry.tree }) value.entry.nest value.entry.rest.now }
{
    let Read { tree: name, .. } = name;
    let Read { tree, nest, rest } = value;
    Read {
        tree: RawLocal { name, value: tree },
        nest,
        rest,
    }
}

/// A declaration of locals.
pub fn declaration<'a>(
    alloc: Global,
    ty: Read<'a, RawType>,
    locals: Read<'a, Items<RawLocal>>,
) -> Result<Read<'a, Boxed<RawDecl>>, ReadError>
    ensures { gives.Gives result (heads.declared ty.entry.tree (gives.view locals.entry)) }
{
    let Read { tree: ty, .. } = ty;
    let Read {
        tree: locals,
        nest,
        rest,
    } = locals;
    let at = ty.at;
    let tree = Boxed::new(alloc, RawDecl { at, ty, locals })?;
    Ok(Read { tree, nest, rest })
}

/// A declaration as the first part of a `for`.
pub fn first_decl<'a>(
    alloc: Global,
    decl: Read<'a, Boxed<RawDecl>>,
) -> Result<Read<'a, Boxed<RawFirst>>, ReadError>
    ensures { gives.Gives result (got (first.Decl decl.entry.tree) 0 decl.entry.rest.now) }
{
    let Read { tree, rest, .. } = decl;
    let tree = Boxed::new(alloc, RawFirst::Decl(tree.into_inner()))?;
    Ok(Read {
        tree,
        nest: 0,
        rest,
    })
}

/// An expression or nothing as the first part of a `for`.
pub fn first_value<'a>(
    alloc: Global,
    value: Read<'a, Option<Boxed<RawExpr>>>,
) -> Result<Read<'a, Boxed<RawFirst>>, ReadError>
    ensures { gives.Gives result (code.first_value (gives.view value.entry) value.entry.rest.now) }
{
    let Read { tree, rest, .. } = value;
    let tree = Boxed::new(alloc, RawFirst::Value(tree))?;
    Ok(Read {
        tree,
        nest: 0,
        rest,
    })
}

/// A statement of this kind, and the tokens behind it.
pub fn of_kind<'a>(
    alloc: Global,
    at: Place,
    kind: RawStmtKind,
    rest: &'a [Token],
) -> Result<Read<'a, Boxed<RawStmt>>, ReadError>
    ensures { gives.Gives result (got (grammar.statement at kind) 0 rest.now) }
{
    let tree = statement(alloc, at, kind)?;
    Ok(Read {
        tree,
        nest: 0,
        rest,
    })
}

/// An expression as a statement.
pub fn value<'a>(
    alloc: Global,
    a: Read<'a, Boxed<RawExpr>>,
) -> Result<Read<'a, Boxed<RawStmt>>, ReadError>
    ensures { gives.Gives result (got (grammar.statement a.entry.tree.at (s.Value a.entry.tree)) 0 a.entry.rest.now) }
{
    let Read { tree, rest, .. } = a;
    let at = tree.get().at;
    of_kind(alloc, at, RawStmtKind::Value(tree), rest)
}

/// A declaration as a statement.
pub fn declare<'a>(
    alloc: Global,
    decl: Read<'a, Boxed<RawDecl>>,
) -> Result<Read<'a, Boxed<RawStmt>>, ReadError>
    ensures { gives.Gives result (got (grammar.statement decl.entry.tree.at (s.Decl decl.entry.tree)) 0 decl.entry.rest.now) }
{
    let Read { tree, rest, .. } = decl;
    let at = tree.get().at;
    of_kind(alloc, at, RawStmtKind::Decl(tree), rest)
}

/// A block.
pub fn block<'a>(
    alloc: Global,
    at: Place,
    body: Read<'a, Items<RawStmt>>,
) -> Result<Read<'a, Boxed<RawStmt>>, ReadError>
    ensures { gives.Gives result (got (grammar.statement at (s.Block body.entry.tree)) 0 body.entry.rest.now) }
{
    let Read { tree, rest, .. } = body;
    of_kind(alloc, at, RawStmtKind::Block(tree), rest)
}

/// The test of an `if`, and the statement behind it.
#[derive(Drop)]
pub struct Tested {
    pub test: Boxed<RawExpr>,
    pub branch: Boxed<RawStmt>,
}

/// The test of an `if` and its first branch, put together.
pub fn test_and_branch<'a>(
    test: Read<'a, Boxed<RawExpr>>,
    branch: Read<'a, Boxed<RawStmt>>,
) -> Read<'a, Tested>
    ensures { Some (gives.view result) ≡ got (record { test = test.entry.tree; branch = branch.entry.tree }) 0 branch.entry.rest.now }
{
    let Read { tree: test, .. } = test;
    let Read {
        tree: branch,
        rest,
        ..
    } = branch;
    Read {
        tree: Tested { test, branch },
        nest: 0,
        rest,
    }
}

/// An `if` without an `else`.
pub fn if_alone<'a>(
    alloc: Global,
    at: Place,
    part: Read<'a, Tested>,
) -> Result<Read<'a, Boxed<RawStmt>>, ReadError>
    ensures { gives.Gives result (got (grammar.statement at (s.If part.entry.tree.test part.entry.tree.branch None)) 0 part.entry.rest.now) }
{
    let Read { tree, rest, .. } = part;
    let Tested { test: a, branch: b } = tree;
    of_kind(alloc, at, RawStmtKind::If(a, b, None), rest)
}

/// An `if` with an `else`.
pub fn if_else<'a>(
    alloc: Global,
    at: Place,
    part: Read<'a, Tested>,
    other: Read<'a, Boxed<RawStmt>>,
) -> Result<Read<'a, Boxed<RawStmt>>, ReadError>
    ensures { gives.Gives result (got (grammar.statement at (s.If part.entry.tree.test part.entry.tree.branch (Some other.entry.tree))) 0 other.entry.rest.now) }
{
    let Read { tree, .. } = part;
    let Tested { test: a, branch: b } = tree;
    let Read { tree: c, rest, .. } = other;
    of_kind(alloc, at, RawStmtKind::If(a, b, Some(c)), rest)
}

/// A `while`.
pub fn while_loop<'a>(
    alloc: Global,
    at: Place,
    test: Read<'a, Boxed<RawExpr>>,
    body: Read<'a, Boxed<RawStmt>>,
) -> Result<Read<'a, Boxed<RawStmt>>, ReadError>
    ensures { gives.Gives result (got (grammar.statement at (s.While test.entry.tree body.entry.tree)) 0 body.entry.rest.now) }
{
    let Read { tree: a, .. } = test;
    let Read { tree: b, rest, .. } = body;
    of_kind(alloc, at, RawStmtKind::While(a, b), rest)
}

/// A `do`.
pub fn do_loop<'a>(
    alloc: Global,
    at: Place,
    body: Read<'a, Boxed<RawStmt>>,
    test: Read<'a, Boxed<RawExpr>>,
) -> Result<Read<'a, Boxed<RawStmt>>, ReadError>
    ensures { gives.Gives result (got (grammar.statement at (s.Do body.entry.tree test.entry.tree)) 0 test.entry.rest.now) }
{
    let Read { tree: b, .. } = body;
    let Read { tree: a, rest, .. } = test;
    of_kind(alloc, at, RawStmtKind::Do(b, a), rest)
}

/// What stands in the brackets of a `for`.
#[derive(Drop)]
pub struct ForHead {
    pub first: Boxed<RawFirst>,
    pub test: Option<Boxed<RawExpr>>,
    pub third: Option<Boxed<RawExpr>>,
}

/// The three parts of a `for`.
pub fn for_parts<'a>(
    first: Read<'a, Boxed<RawFirst>>,
    test: Read<'a, Option<Boxed<RawExpr>>>,
    third: Read<'a, Option<Boxed<RawExpr>>>,
) -> Read<'a, ForHead>
    ensures { Some (gives.view result) ≡ heads.for_parts first.entry.tree test.entry.tree (gives.view third.entry) }
{
    let Read { tree: first, .. } = first;
    let Read { tree: test, .. } = test;
    let Read {
        tree: third,
        rest,
        ..
    } = third;
    Read {
        tree: ForHead { first, test, third },
        nest: 0,
        rest,
    }
}

/// A `for`.
pub fn for_loop<'a>(
    alloc: Global,
    at: Place,
    head: Read<'a, ForHead>,
    body: Read<'a, Boxed<RawStmt>>,
) -> Result<Read<'a, Boxed<RawStmt>>, ReadError>
    ensures { gives.Gives result (got (grammar.statement at (s.For head.entry.tree.first head.entry.tree.test head.entry.tree.third body.entry.tree)) 0 body.entry.rest.now) }
{
    let Read { tree, .. } = head;
    let ForHead { first, test, third } = tree;
    let Read {
        tree: body,
        rest,
        ..
    } = body;
    of_kind(alloc, at, RawStmtKind::For(first, test, third, body), rest)
}

/// A `return`.
pub fn return_value<'a>(
    alloc: Global,
    at: Place,
    value: Read<'a, Option<Boxed<RawExpr>>>,
) -> Result<Read<'a, Boxed<RawStmt>>, ReadError>
    ensures { gives.Gives result (got (grammar.statement at (s.Return value.entry.tree)) 0 value.entry.rest.now) }
{
    let Read { tree, rest, .. } = value;
    of_kind(alloc, at, RawStmtKind::Return(tree), rest)
}

/// The first and the last thread number of a `spawn`.
#[derive(Drop)]
pub struct Bounds {
    pub low: Boxed<RawExpr>,
    pub high: Boxed<RawExpr>,
}

/// The bounds of a `spawn`.
pub fn low_and_high<'a>(
    low: Read<'a, Boxed<RawExpr>>,
    high: Read<'a, Boxed<RawExpr>>,
) -> Read<'a, Bounds>
    ensures { Some (gives.view result) ≡ got (record { low = low.entry.tree; high = high.entry.tree }) 0 high.entry.rest.now }
{
    let Read { tree: low, .. } = low;
    let Read {
        tree: high,
        rest,
        ..
    } = high;
    Read {
        tree: Bounds { low, high },
        nest: 0,
        rest,
    }
}

/// A `spawn`.
pub fn spawn<'a>(
    alloc: Global,
    at: Place,
    head: Read<'a, Bounds>,
    body: Read<'a, Items<RawStmt>>,
) -> Result<Read<'a, Boxed<RawStmt>>, ReadError>
    ensures { gives.Gives result (got (grammar.statement at (s.Spawn head.entry.tree.low head.entry.tree.high body.entry.tree)) 0 body.entry.rest.now) }
{
    let Read { tree, .. } = head;
    let Bounds { low, high } = tree;
    let Read {
        tree: body,
        rest,
        ..
    } = body;
    of_kind(alloc, at, RawStmtKind::Spawn(low, high, body), rest)
}

/// A `ps`.
pub fn ps<'a>(
    alloc: Global,
    at: Place,
    variable: Read<'a, RawName>,
    base: Read<'a, RawName>,
) -> Result<Read<'a, Boxed<RawStmt>>, ReadError>
    ensures { gives.Gives result (got (grammar.statement at (s.Ps variable.entry.tree base.entry.tree)) 0 base.entry.rest.now) }
{
    let Read { tree: a, .. } = variable;
    let Read { tree: b, rest, .. } = base;
    of_kind(alloc, at, RawStmtKind::Ps(a, b), rest)
}

/// A `psm`.
pub fn psm<'a>(
    alloc: Global,
    at: Place,
    variable: Read<'a, RawName>,
    place: Read<'a, Boxed<RawSpot>>,
) -> Result<Read<'a, Boxed<RawStmt>>, ReadError>
    ensures { gives.Gives result (got (grammar.statement at (s.Psm variable.entry.tree place.entry.tree)) 0 place.entry.rest.now) }
{
    let Read { tree: a, .. } = variable;
    let Read { tree: b, rest, .. } = place;
    of_kind(alloc, at, RawStmtKind::Psm(a, b), rest)
}

/// A `printf`.
pub fn print<'a>(
    alloc: Global,
    at: Place,
    text: Read<'a, RawText>,
    values: Read<'a, Items<RawExpr>>,
) -> Result<Read<'a, Boxed<RawStmt>>, ReadError>
    ensures { gives.Gives result (got (grammar.statement at (s.Print text.entry.tree values.entry.tree)) 0 values.entry.rest.now) }
{
    let Read { tree: a, .. } = text;
    let Read {
        tree: all,
        rest,
        ..
    } = values;
    of_kind(alloc, at, RawStmtKind::Print(a, all), rest)
}
