//! Typed statements.
ghost use Rattle.std.specs.Prelude.{◌≡◌, ◌++◌, OnOk, IfOk};
ghost use Rattle.name_scopes.specs.Locals.{env};
ghost use Rattle.name_scopes.specs.Locals as scoped;
ghost use Rattle.name_scopes.specs.Table.{IsTable};
ghost use Rattle.name_faults.specs.Statements as reach;
ghost use Rattle.source_meaning.specs.declared.tree.StmtKind.TheVariants as s;
ghost use Rattle.typed_programs.specs.Expressions as part;
ghost use Rattle.typed_programs.specs.Statements as spec;
ghost use Rattle.xmt_types.specs.Statements as form;

use crate::expressions::{
    boxed_expression, expressions, number, optional_expression, place, register_number, variable,
};
use name_faults::meaning;
use name_scopes::{Locals, Scope, is_constant};
use raw_tree::{
    RawDecl, RawExpr, RawFirst, RawLocal, RawName, RawSpot, RawStmt, RawStmtKind, RawText,
};
use source_meaning::{Expr, Spot, Stmt, StmtKind};
use sqlite_items::{Boxed, Items};
use std::alloc::{AllocError, Global};
use xmt_base::Place;

// A node, in a box from the start.
fn node(alloc: Global, at: Place, kind: StmtKind) -> Result<Boxed<Stmt>, AllocError>
    ensures { IfOk result (λ made. made ≡ spec.statement at kind) }
{
    Boxed::new(alloc, Stmt { at, kind })
}

// One declared name with its initial value.
fn declare(
    alloc: Global,
    locals: &mut Locals,
    constant: bool,
    local: &RawLocal,
) -> Result<Boxed<Stmt>, AllocError>
    requires { IsTable locals.old.scope }
    ensures table { OnOk result (IsTable locals.new.scope) }
    ensures env { OnOk result (env locals.new ≡ scoped.declare_local constant local.now.name (env locals.old)) }
    ensures made { IfOk result (λ made. made ≡ spec.declare local.now (env locals.old)) }
{
    let slot = number(locals.variables.len());
    let value = optional_expression(alloc, &locals.scope, &local.value)?;
    locals.declare(alloc, constant, &local.name)?;
    node(alloc, local.name.at, StmtKind::Declare(slot, value))
}

// A statement for each declared name, behind those that are made.
fn declarations(
    alloc: Global,
    locals: &mut Locals,
    made: &mut Items<Stmt>,
    decl: &RawDecl,
) -> Result<(), AllocError>
    requires { IsTable locals.old.scope }
    ensures table { OnOk result (IsTable locals.new.scope) }
    ensures env { OnOk result (env locals.new ≡ reach.after_decl decl.now (env locals.old)) }
    ensures made { OnOk result (made.new ≡ made.old ++ spec.declares_of decl.now (env locals.old)) }
{
    let constant = is_constant(decl.ty.qualifiers.as_slice());
    for local in decl.locals.as_slice() {
        let one = declare(alloc, locals, constant, local)?;
        made.push(one.into_inner())?;
    }
    Ok(())
}

// A declaration as a list of statements.
fn declaration(
    alloc: Global,
    locals: &mut Locals,
    decl: &RawDecl,
) -> Result<Items<Stmt>, AllocError>
    requires { IsTable locals.old.scope }
    ensures table { OnOk result (IsTable locals.new.scope) }
    ensures env { OnOk result (env locals.new ≡ reach.after_decl decl.now (env locals.old)) }
    ensures made { IfOk result (λ made. made ≡ spec.declares_of decl.now (env locals.old)) }
{
    let mut made = Items::new(alloc);
    declarations(alloc, locals, &mut made, decl)?;
    Ok(made)
}

// An expression as the first part of a loop.
fn first_value(
    alloc: Global,
    scope: &Scope,
    e: &Option<Boxed<RawExpr>>,
) -> Result<Items<Stmt>, AllocError>
    requires { IsTable scope.now }
    ensures { IfOk result (λ made. made ≡ spec.first_value scope.now.declared e.now) }
{
    let mut made = Items::new(alloc);
    match e {
        None => Ok(made),
        Some(e) => {
            let value = boxed_expression(alloc, scope, e.get())?;
            let one = node(alloc, e.get().at, StmtKind::Value(value))?;
            made.push(one.into_inner())?;
            Ok(made)
        }
    }
}

fn first_part(
    alloc: Global,
    locals: &mut Locals,
    begin: &RawFirst,
) -> Result<Items<Stmt>, AllocError>
    requires { IsTable locals.old.scope }
    ensures table { OnOk result (IsTable locals.new.scope) }
    ensures env { OnOk result (env locals.new ≡ reach.after_first begin.now (env locals.old)) }
    ensures made { IfOk result (λ made. made ≡ spec.first_of begin.now (env locals.old)) }
{
    match begin {
        RawFirst::Decl(decl) => declaration(alloc, locals, decl),
        RawFirst::Value(value) => first_value(alloc, &locals.scope, value),
    }
}

// The parts of a loop before its body.
#[derive(Drop)]
pub struct ForHead {
    pub first: Items<Stmt>,
    pub test: Option<Boxed<Expr>>,
    pub third: Option<Boxed<Expr>>,
}

// The test and the third part of a loop.
#[derive(Drop)]
pub struct LoopParts {
    pub test: Option<Boxed<Expr>>,
    pub third: Option<Boxed<Expr>>,
}

fn steps(
    alloc: Global,
    scope: &Scope,
    test: &Option<Boxed<RawExpr>>,
    third: &Option<Boxed<RawExpr>>,
) -> Result<LoopParts, AllocError>
    requires { IsTable scope.now }
    ensures { IfOk result (λ made. made ≡ form.steps test.now third.now scope.now.declared) }
{
    let test = optional_expression(alloc, scope, test)?;
    let third = optional_expression(alloc, scope, third)?;
    Ok(LoopParts { test, third })
}

fn for_head(
    alloc: Global,
    locals: &mut Locals,
    begin: &RawFirst,
    test: &Option<Boxed<RawExpr>>,
    third: &Option<Boxed<RawExpr>>,
) -> Result<ForHead, AllocError>
    requires { IsTable locals.old.scope }
    ensures table { OnOk result (IsTable locals.new.scope) }
    ensures env { OnOk result (env locals.new ≡ reach.after_first begin.now (env locals.old)) }
    ensures made { IfOk result (λ made. made ≡ form.for_head begin.now test.now third.now (env locals.old)) }
{
    let first = first_part(alloc, locals, begin)?;
    let LoopParts { test, third } = steps(alloc, &locals.scope, test, third)?;
    Ok(ForHead { first, test, third })
}

fn looped(
    alloc: Global,
    at: Place,
    head: ForHead,
    body: Boxed<Stmt>,
) -> Result<Boxed<Stmt>, AllocError>
    ensures { IfOk result (λ made. made ≡ form.looped at head body) }
{
    let ForHead { first, test, third } = head;
    node(alloc, at, StmtKind::For(first, test, third, body))
}

// The bounds of a spawn.
#[derive(Drop)]
pub struct SpawnBounds {
    pub low: Boxed<Expr>,
    pub high: Boxed<Expr>,
}

fn bounds(
    alloc: Global,
    scope: &Scope,
    low: &RawExpr,
    high: &RawExpr,
) -> Result<SpawnBounds, AllocError>
    requires { IsTable scope.now }
    ensures { IfOk result (λ made. made ≡ form.bounds low.now high.now scope.now.declared) }
{
    let low = boxed_expression(alloc, scope, low)?;
    let high = boxed_expression(alloc, scope, high)?;
    Ok(SpawnBounds { low, high })
}

fn spawned(
    alloc: Global,
    at: Place,
    bounds: SpawnBounds,
    body: Items<Stmt>,
) -> Result<Boxed<Stmt>, AllocError>
    ensures { IfOk result (λ made. made ≡ spec.statement at (s.Spawn bounds.low bounds.high body)) }
{
    let SpawnBounds { low, high } = bounds;
    node(alloc, at, StmtKind::Spawn(low, high, body))
}

fn dropped(alloc: Global, scope: &Scope, at: Place, e: &RawExpr) -> Result<Boxed<Stmt>, AllocError>
    requires { IsTable scope.now }
    ensures { IfOk result (λ made. made ≡ spec.statement at (s.Value (part.expression scope.now.declared e.now))) }
{
    let e = boxed_expression(alloc, scope, e)?;
    node(alloc, at, StmtKind::Value(e))
}

fn returned(
    alloc: Global,
    scope: &Scope,
    at: Place,
    e: &Option<Boxed<RawExpr>>,
) -> Result<Boxed<Stmt>, AllocError>
    requires { IsTable scope.now }
    ensures { IfOk result (λ made. made ≡ spec.statement at (s.Return (part.option scope.now.declared e.now))) }
{
    let e = optional_expression(alloc, scope, e)?;
    node(alloc, at, StmtKind::Return(e))
}

fn sum(
    alloc: Global,
    scope: &Scope,
    at: Place,
    name: &RawName,
    register: &RawName,
) -> Result<Boxed<Stmt>, AllocError>
    requires { IsTable scope.now }
    ensures { IfOk result (λ made. made ≡ form.sum at name.now register.now scope.now.declared) }
{
    let spot = variable(meaning(scope, name));
    let register = register_number(meaning(scope, register));
    node(alloc, at, StmtKind::Ps(spot, register))
}

fn memory_sum(
    alloc: Global,
    scope: &Scope,
    at: Place,
    name: &RawName,
    spot: &RawSpot,
) -> Result<Boxed<Stmt>, AllocError>
    requires { IsTable scope.now }
    ensures { IfOk result (λ made. made ≡ form.memory_sum at name.now spot.now scope.now.declared) }
{
    let summed = variable(meaning(scope, name));
    let spot = place(alloc, scope, spot)?;
    node(alloc, at, StmtKind::Psm(summed, spot))
}

fn printed(
    alloc: Global,
    scope: &Scope,
    at: Place,
    text: &RawText,
    values: &[RawExpr],
) -> Result<Boxed<Stmt>, AllocError>
    requires { IsTable scope.now }
    ensures { IfOk result (λ made. made ≡ spec.statement at (s.Print text.now.bytes (part.expressions scope.now.declared values.now))) }
{
    let values = expressions(alloc, scope, values)?;
    let text = Items::from_slice(alloc, text.bytes.as_slice())?;
    node(alloc, at, StmtKind::Print(text, values))
}

// An `if` as far as its first form.
#[derive(Drop)]
pub struct IfHead {
    pub test: Boxed<Expr>,
    pub body: Boxed<Stmt>,
}

fn conditional(
    alloc: Global,
    at: Place,
    head: IfHead,
    other: Option<Boxed<Stmt>>,
) -> Result<Boxed<Stmt>, AllocError>
    ensures { IfOk result (λ made. made ≡ spec.statement at (s.If head.test head.body other)) }
{
    let IfHead { test, body } = head;
    node(alloc, at, StmtKind::If(test, body, other))
}

fn nested(alloc: Global, at: Place, body: Items<Stmt>) -> Result<Boxed<Stmt>, AllocError>
    ensures { IfOk result (λ made. made ≡ spec.statement at (s.Block body)) }
{
    node(alloc, at, StmtKind::Block(body))
}

// A declaration where one statement is wanted: a block of its own.
fn declared_alone(
    alloc: Global,
    locals: &mut Locals,
    at: Place,
    decl: &RawDecl,
) -> Result<Boxed<Stmt>, AllocError>
    requires { IsTable locals.old.scope }
    ensures table { OnOk result (IsTable locals.new.scope) }
    ensures env { OnOk result (env locals.new ≡ reach.after_decl decl.now (env locals.old)) }
    ensures made { IfOk result (λ made. made ≡ spec.statement at (s.Block (spec.declares_of decl.now (env locals.old)))) }
{
    let body = declaration(alloc, locals, decl)?;
    nested(alloc, at, body)
}

// A statement where one statement is wanted.
#[tactic(auto, unfolding(name_scopes::specs::Opened::opened))]
#[cycle(statements)]
fn statement(alloc: Global, locals: &mut Locals, s: &RawStmt) -> Result<Boxed<Stmt>, AllocError>
    requires { IsTable locals.old.scope }
    ensures table { OnOk result (IsTable locals.new.scope) }
    ensures env { OnOk result (env locals.new ≡ reach.after s.now.kind (env locals.old)) }
    ensures made { IfOk result (λ made. made ≡ spec.typed s.now.at s.now.kind (env locals.old)) }
{
    match &s.kind {
        #[tactic(auto)]
        RawStmtKind::Block(body) => block_statement(alloc, locals, s.at, body.as_slice()),
        RawStmtKind::Decl(decl) => declared_alone(alloc, locals, s.at, decl.get()),
        RawStmtKind::Empty => node(alloc, s.at, StmtKind::Empty),
        RawStmtKind::Value(e) => dropped(alloc, &locals.scope, s.at, e.get()),
        RawStmtKind::If(test, body, other) => {
            let head = if_head(alloc, locals, body.get(), test.get())?;
            let other = other_branch(alloc, locals, other)?;
            conditional(alloc, s.at, head, other)
        }
        RawStmtKind::While(test, body) => {
            while_loop(alloc, locals, s.at, body.get(), test.get())
        }
        RawStmtKind::Do(body, test) => do_loop(alloc, locals, s.at, body.get(), test.get()),
        RawStmtKind::For(begin, test, third, body) => {
            for_loop(alloc, locals, s.at, body.get(), begin.get(), test, third)
        }
        RawStmtKind::Break => node(alloc, s.at, StmtKind::Break),
        RawStmtKind::Continue => node(alloc, s.at, StmtKind::Continue),
        RawStmtKind::Return(e) => returned(alloc, &locals.scope, s.at, e),
        #[tactic(auto)]
        RawStmtKind::Spawn(low, high, body) => {
            spawn_block(alloc, locals, s.at, body.as_slice(), low.get(), high.get())
        }
        RawStmtKind::Ps(name, register) => sum(alloc, &locals.scope, s.at, name, register),
        RawStmtKind::Psm(name, spot) => memory_sum(alloc, &locals.scope, s.at, name, spot.get()),
        RawStmtKind::Print(text, values) => {
            printed(alloc, &locals.scope, s.at, text, values.as_slice())
        }
    }
}

#[tactic(auto)]
#[cycle(statements)]
fn block_statement(
    alloc: Global,
    locals: &mut Locals,
    at: Place,
    body: &[RawStmt],
) -> Result<Boxed<Stmt>, AllocError>
    requires { IsTable locals.old.scope }
    ensures table { OnOk result (IsTable locals.new.scope) }
    ensures env { OnOk result (env locals.new ≡ form.behind_all body.now (env locals.old)) }
    ensures made { IfOk result (λ made. made ≡ spec.statement at (s.Block (spec.typed_all body.now (env locals.old)))) }
{
    let body = block(alloc, locals, body)?;
    nested(alloc, at, body)
}

#[tactic(auto, unfolding(name_scopes::specs::Opened::opened))]
#[cycle(statements)]
fn while_loop(
    alloc: Global,
    locals: &mut Locals,
    at: Place,
    body: &RawStmt,
    test: &RawExpr,
) -> Result<Boxed<Stmt>, AllocError>
    requires { IsTable locals.old.scope }
    ensures table { OnOk result (IsTable locals.new.scope) }
    ensures env { OnOk result (env locals.new ≡ form.behind body.now (env locals.old)) }
    ensures made { IfOk result (λ made. made ≡ form.while_loop at test.now body.now (env locals.old)) }
{
    let IfHead { test, body } = if_head(alloc, locals, body, test)?;
    node(alloc, at, StmtKind::While(test, body))
}

#[tactic(auto, unfolding(name_scopes::specs::Opened::opened))]
#[cycle(statements)]
fn do_loop(
    alloc: Global,
    locals: &mut Locals,
    at: Place,
    body: &RawStmt,
    test: &RawExpr,
) -> Result<Boxed<Stmt>, AllocError>
    requires { IsTable locals.old.scope }
    ensures table { OnOk result (IsTable locals.new.scope) }
    ensures env { OnOk result (env locals.new ≡ form.behind body.now (env locals.old)) }
    ensures made { IfOk result (λ made. made ≡ form.do_loop at body.now test.now (env locals.old)) }
{
    let IfHead { test, body } = if_head(alloc, locals, body, test)?;
    node(alloc, at, StmtKind::Do(body, test))
}

#[tactic(auto, unfolding(name_scopes::specs::Opened::opened))]
#[cycle(statements)]
fn for_loop(
    alloc: Global,
    locals: &mut Locals,
    at: Place,
    body: &RawStmt,
    begin: &RawFirst,
    test: &Option<Boxed<RawExpr>>,
    third: &Option<Boxed<RawExpr>>,
) -> Result<Boxed<Stmt>, AllocError>
    requires { IsTable locals.old.scope }
    ensures table { OnOk result (IsTable locals.new.scope) }
    ensures env { OnOk result (env locals.new ≡ form.after_for begin.now body.now (env locals.old)) }
    ensures made { IfOk result (λ made. made ≡ form.for_loop at begin.now test.now third.now body.now (env locals.old)) }
{
    let count = locals.scope.declared.len();
    let head = for_head(alloc, locals, begin, test, third)?;
    let made = rest_of_loop(alloc, locals, at, head, body)?;
    locals.leave(alloc, count)?;
    Ok(made)
}

// The rest of a loop behind its head.
#[tactic(auto, unfolding(name_scopes::specs::Opened::opened))]
#[cycle(statements)]
fn rest_of_loop(
    alloc: Global,
    locals: &mut Locals,
    at: Place,
    head: ForHead,
    body: &RawStmt,
) -> Result<Boxed<Stmt>, AllocError>
    requires { IsTable locals.old.scope }
    ensures table { OnOk result (IsTable locals.new.scope) }
    ensures env { OnOk result (env locals.new ≡ form.behind body.now (env locals.old)) }
    ensures made { IfOk result (λ made. made ≡ form.looped at head (form.typed body.now (env locals.old))) }
{
    let body = inner(alloc, locals, body)?;
    looped(alloc, at, head, body)
}

#[tactic(auto)]
#[cycle(statements)]
fn spawn_block(
    alloc: Global,
    locals: &mut Locals,
    at: Place,
    body: &[RawStmt],
    low: &RawExpr,
    high: &RawExpr,
) -> Result<Boxed<Stmt>, AllocError>
    requires { IsTable locals.old.scope }
    ensures table { OnOk result (IsTable locals.new.scope) }
    ensures env { OnOk result (env locals.new ≡ form.behind_all body.now (env locals.old)) }
    ensures made { IfOk result (λ made. made ≡ form.spawn_block at low.now high.now body.now (env locals.old)) }
{
    let bounds = bounds(alloc, &locals.scope, low, high)?;
    let body = block(alloc, locals, body)?;
    spawned(alloc, at, bounds, body)
}

// The test and the first branch of an `if`, or the test and the body of a loop.
#[tactic(auto, unfolding(name_scopes::specs::Opened::opened))]
#[cycle(statements)]
fn if_head(
    alloc: Global,
    locals: &mut Locals,
    body: &RawStmt,
    test: &RawExpr,
) -> Result<IfHead, AllocError>
    requires { IsTable locals.old.scope }
    ensures table { OnOk result (IsTable locals.new.scope) }
    ensures env { OnOk result (env locals.new ≡ form.behind body.now (env locals.old)) }
    ensures made { IfOk result (λ made. made ≡ form.if_head test.now body.now (env locals.old)) }
{
    let test = boxed_expression(alloc, &locals.scope, test)?;
    let body = inner(alloc, locals, body)?;
    Ok(IfHead { test, body })
}

#[tactic(auto, unfolding(name_scopes::specs::Opened::opened))]
#[cycle(statements)]
fn other_branch(
    alloc: Global,
    locals: &mut Locals,
    other: &Option<Boxed<RawStmt>>,
) -> Result<Option<Boxed<Stmt>>, AllocError>
    requires { IsTable locals.old.scope }
    ensures table { OnOk result (IsTable locals.new.scope) }
    ensures env { OnOk result (env locals.new ≡ form.after_other other.now (env locals.old)) }
    ensures made { IfOk result (λ made. made ≡ form.other_of other.now (env locals.old)) }
{
    match other {
        None => Ok(None),
        Some(other) => {
            let other = inner(alloc, locals, other.get())?;
            Ok(Some(other))
        }
    }
}

// A statement that is a scope of its own.
#[tactic(auto, unfolding(name_scopes::specs::Opened::opened))]
#[cycle(statements)]
fn inner(alloc: Global, locals: &mut Locals, s: &RawStmt) -> Result<Boxed<Stmt>, AllocError>
    requires { IsTable locals.old.scope }
    ensures table { OnOk result (IsTable locals.new.scope) }
    ensures env { OnOk result (env locals.new ≡ form.behind s.now (env locals.old)) }
    ensures made { IfOk result (λ made. made ≡ form.typed s.now (env locals.old)) }
{
    let count = locals.scope.declared.len();
    let made = statement(alloc, locals, s)?;
    locals.leave(alloc, count)?;
    Ok(made)
}

// Statements that are a scope of their own.
#[tactic(auto)]
#[cycle(statements)]
fn block(alloc: Global, locals: &mut Locals, body: &[RawStmt]) -> Result<Items<Stmt>, AllocError>
    requires { IsTable locals.old.scope }
    ensures table { OnOk result (IsTable locals.new.scope) }
    ensures env { OnOk result (env locals.new ≡ form.behind_all body.now (env locals.old)) }
    ensures made { IfOk result (λ made. made ≡ spec.typed_all body.now (env locals.old)) }
{
    let count = locals.scope.declared.len();
    let made = statements(alloc, locals, body)?;
    locals.leave(alloc, count)?;
    Ok(made)
}

// A statement among others, behind those that are made.
#[tactic(auto, unfolding(name_scopes::specs::Opened::opened))]
#[cycle(statements)]
fn add(
    alloc: Global,
    locals: &mut Locals,
    s: &RawStmt,
    made: &mut Items<Stmt>,
) -> Result<(), AllocError>
    requires { IsTable locals.old.scope }
    ensures table { OnOk result (IsTable locals.new.scope) }
    ensures env { OnOk result (env locals.new ≡ reach.after s.now.kind (env locals.old)) }
    ensures made { OnOk result (made.new ≡ made.old ++ spec.pieces s.now.at s.now.kind (env locals.old)) }
{
    match &s.kind {
        RawStmtKind::Decl(decl) => declarations(alloc, locals, made, decl.get()),
        _ => {
            let one = statement(alloc, locals, s)?;
            made.push(one.into_inner())?;
            Ok(())
        }
    }
}

/// Statements one behind the other.
#[tactic(auto)]
#[cycle(statements)]
pub(crate) fn statements(
    alloc: Global,
    locals: &mut Locals,
    body: &[RawStmt],
) -> Result<Items<Stmt>, AllocError>
    requires { IsTable locals.old.scope }
    ensures table { OnOk result (IsTable locals.new.scope) }
    ensures env { OnOk result (env locals.new ≡ reach.after_all body.now (env locals.old)) }
    ensures made { IfOk result (λ made. made ≡ spec.typed_all body.now (env locals.old)) }
{
    let mut made = Items::new(alloc);
    for s in body {
        add(alloc, locals, s, &mut made)?;
    }
    Ok(made)
}
