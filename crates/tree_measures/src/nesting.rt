//! How deep a program is nested.
#![tactic(auto, using(crate::proofs::Rows::depths), unfolding(source_meaning::specs::Opened::opened))]

ghost use Rattle.std.specs.Prelude.{◌≡◌, ◌^◌, ◌-◌, ◌+◌, min};
ghost use Rattle.tree_measures.specs.Nesting.{expression_depth, index_depth, deepest_expression, option_depth, statement_depth, deepest_statement, program_depth};

use source_meaning::{Expr, ExprKind, Program, Spot, Stmt, StmtKind};
use sqlite_items::Boxed;

/// The greatest number of statements and expressions on a path from the body of a function to a
/// leaf. Above the greatest `u32` it answers that.
pub fn nest_depth(program: &Program) -> u32
    ensures { result ≡ min (program_depth program.now) (2 ^ 32 - 1) }
{
    let mut deepest = 0u32;
    for function in program.functions.as_slice() {
        deepest = deepest.max(depth_of_statements(function.body.as_slice()));
    }
    deepest
}

/// One more, for the node itself.
fn below_itself(inside: u32) -> u32
    ensures { result ≡ min (inside + 1) (2 ^ 32 - 1) }
{
    inside.saturating_add(1)
}

#[cycle(expressions)]
fn depth_of_expression(e: &Expr) -> u32
    ensures { result ≡ min (expression_depth e.now.kind) (2 ^ 32 - 1) }
{
    match &e.kind {
        ExprKind::Number(_) | ExprKind::Dollar => 1,
        ExprKind::Read(p) | ExprKind::Step { spot: p, .. } => below_itself(depth_of_index(p)),
        ExprKind::Assign(p, e) | ExprKind::Update(_, p, e) => {
            below_itself(depth_of_index(p).max(depth_of_expression(e.get())))
        }
        ExprKind::Unary(_, e) => below_itself(depth_of_expression(e.get())),
        ExprKind::Binary(_, a, b) | ExprKind::Both(a, b) | ExprKind::Either(a, b) => {
            below_itself(depth_of_expression(a.get()).max(depth_of_expression(b.get())))
        }
        ExprKind::Choose(test, a, b) => {
            let choices = depth_of_expression(a.get()).max(depth_of_expression(b.get()));
            below_itself(depth_of_expression(test.get()).max(choices))
        }
        ExprKind::Call(_, values) => below_itself(depth_of_expressions(values.as_slice())),
    }
}

#[cycle(expressions)]
fn depth_of_index(p: &Spot) -> u32
    ensures { result ≡ min (index_depth p.now) (2 ^ 32 - 1) }
{
    match p {
        Spot::Element(_, index) => depth_of_expression(index.get()),
        Spot::Global(_) | Spot::Register(_) | Spot::Local(_) => 0,
    }
}

#[cycle(expressions)]
fn depth_of_expressions(values: &[Expr]) -> u32
    ensures { result ≡ min (deepest_expression values.now) (2 ^ 32 - 1) }
{
    let mut deepest = 0u32;
    for value in values {
        deepest = deepest.max(depth_of_expression(value));
    }
    deepest
}

fn depth_of_option(e: &Option<Boxed<Expr>>) -> u32
    ensures { result ≡ min (option_depth e.now) (2 ^ 32 - 1) }
{
    match e {
        None => 0,
        Some(e) => depth_of_expression(e.get()),
    }
}

#[cycle(statements)]
fn depth_of_statement(s: &Stmt) -> u32
    ensures { result ≡ min (statement_depth s.now.kind) (2 ^ 32 - 1) }
{
    match &s.kind {
        StmtKind::Empty | StmtKind::Break | StmtKind::Continue => 1,
        StmtKind::Value(e) => below_itself(depth_of_expression(e.get())),
        StmtKind::Declare(_, value) => below_itself(depth_of_option(value)),
        StmtKind::Block(body) => below_itself(depth_of_statements(body.as_slice())),
        StmtKind::If(test, body, None) => {
            below_itself(depth_of_expression(test.get()).max(depth_of_statement(body.get())))
        }
        StmtKind::If(test, body, Some(other)) => {
            let branches = depth_of_statement(body.get()).max(depth_of_statement(other.get()));
            below_itself(depth_of_expression(test.get()).max(branches))
        }
        StmtKind::While(test, body) | StmtKind::Do(body, test) => {
            below_itself(depth_of_expression(test.get()).max(depth_of_statement(body.get())))
        }
        StmtKind::For(first, test, third, body) => {
            let head = depth_of_option(test).max(depth_of_option(third));
            let parts = depth_of_statements(first.as_slice()).max(head);
            below_itself(parts.max(depth_of_statement(body.get())))
        }
        StmtKind::Return(value) => below_itself(depth_of_option(value)),
        StmtKind::Spawn(low, high, body) => {
            let bounds = depth_of_expression(low.get()).max(depth_of_expression(high.get()));
            below_itself(bounds.max(depth_of_statements(body.as_slice())))
        }
        StmtKind::Ps(v, _) => below_itself(depth_of_index(v)),
        StmtKind::Psm(v, p) => below_itself(depth_of_index(v).max(depth_of_index(p))),
        StmtKind::Print(_, values) => below_itself(depth_of_expressions(values.as_slice())),
    }
}

#[cycle(statements)]
fn depth_of_statements(body: &[Stmt]) -> u32
    ensures { result ≡ min (deepest_statement body.now) (2 ^ 32 - 1) }
{
    let mut deepest = 0u32;
    for s in body {
        deepest = deepest.max(depth_of_statement(s));
    }
    deepest
}
