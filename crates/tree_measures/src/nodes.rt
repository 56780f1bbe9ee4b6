//! How many nodes a program has.
#![tactic(auto, using(crate::proofs::Rows::nodes), unfolding(source_meaning::specs::Opened::opened))]

ghost use Rattle.std.specs.Prelude.{◌≡◌, ◌^◌, ◌-◌, ◌+◌, min};
ghost use Rattle.tree_measures.specs.Nodes.{expression_nodes, spot_nodes, nodes_of_expressions, option_nodes, statement_nodes, nodes_of_statements, program_nodes};

use source_meaning::{Expr, ExprKind, Program, Spot, Stmt, StmtKind};
use sqlite_items::Boxed;

/// How many nodes the program has: each statement, expression, function, parameter, global,
/// register and initial value is one. Above the greatest `u64` it answers that.
pub fn node_count(program: &Program) -> u64
    ensures { result ≡ min (program_nodes program.now) (2 ^ 64 - 1) }
{
    let mut count = 0u64;
    for global in program.globals.as_slice() {
        count = count
            .saturating_add(1)
            .saturating_add(global.opening.len() as u64);
    }
    count = count.saturating_add(program.registers.len() as u64);
    for function in program.functions.as_slice() {
        let inside = (function.params as u64).saturating_add(statements_count(
            function.body.as_slice(),
        ));
        count = count.saturating_add(1).saturating_add(inside);
    }
    count
}

/// One more, for the node itself.
fn with_itself(inside: u64) -> u64
    ensures { result ≡ min (inside + 1) (2 ^ 64 - 1) }
{
    inside.saturating_add(1)
}

#[cycle(expressions)]
fn expression_count(e: &Expr) -> u64
    ensures { result ≡ min (expression_nodes e.now.kind) (2 ^ 64 - 1) }
{
    match &e.kind {
        ExprKind::Number(_) | ExprKind::Dollar => 1,
        ExprKind::Read(p) | ExprKind::Step { spot: p, .. } => with_itself(spot_count(p)),
        ExprKind::Assign(p, e) | ExprKind::Update(_, p, e) => {
            with_itself(spot_count(p).saturating_add(expression_count(e.get())))
        }
        ExprKind::Unary(_, e) => with_itself(expression_count(e.get())),
        ExprKind::Binary(_, a, b) | ExprKind::Both(a, b) | ExprKind::Either(a, b) => {
            with_itself(expression_count(a.get()).saturating_add(expression_count(b.get())))
        }
        ExprKind::Choose(test, a, b) => {
            let choices = expression_count(a.get()).saturating_add(expression_count(b.get()));
            with_itself(expression_count(test.get()).saturating_add(choices))
        }
        ExprKind::Call(_, values) => with_itself(expressions_count(values.as_slice())),
    }
}

#[cycle(expressions)]
fn spot_count(p: &Spot) -> u64
    ensures { result ≡ min (spot_nodes p.now) (2 ^ 64 - 1) }
{
    match p {
        Spot::Element(_, index) => expression_count(index.get()),
        Spot::Global(_) | Spot::Register(_) | Spot::Local(_) => 0,
    }
}

#[cycle(expressions)]
fn expressions_count(values: &[Expr]) -> u64
    ensures { result ≡ min (nodes_of_expressions values.now) (2 ^ 64 - 1) }
{
    let mut count = 0u64;
    for value in values {
        count = count.saturating_add(expression_count(value));
    }
    count
}

fn option_count(e: &Option<Boxed<Expr>>) -> u64
    ensures { result ≡ min (option_nodes e.now) (2 ^ 64 - 1) }
{
    match e {
        None => 0,
        Some(e) => expression_count(e.get()),
    }
}

#[cycle(statements)]
fn statement_count(s: &Stmt) -> u64
    ensures { result ≡ min (statement_nodes s.now.kind) (2 ^ 64 - 1) }
{
    match &s.kind {
        StmtKind::Empty | StmtKind::Break | StmtKind::Continue => 1,
        StmtKind::Value(e) => with_itself(expression_count(e.get())),
        StmtKind::Declare(_, value) => with_itself(option_count(value)),
        StmtKind::Block(body) => with_itself(statements_count(body.as_slice())),
        StmtKind::If(test, body, None) => {
            with_itself(expression_count(test.get()).saturating_add(statement_count(body.get())))
        }
        StmtKind::If(test, body, Some(other)) => {
            let branches = statement_count(body.get()).saturating_add(statement_count(other.get()));
            with_itself(expression_count(test.get()).saturating_add(branches))
        }
        StmtKind::While(test, body) | StmtKind::Do(body, test) => {
            with_itself(expression_count(test.get()).saturating_add(statement_count(body.get())))
        }
        StmtKind::For(first, test, third, body) => {
            let head = option_count(test).saturating_add(option_count(third));
            let parts = statements_count(first.as_slice()).saturating_add(head);
            with_itself(parts.saturating_add(statement_count(body.get())))
        }
        StmtKind::Return(value) => with_itself(option_count(value)),
        StmtKind::Spawn(low, high, body) => {
            let bounds = expression_count(low.get()).saturating_add(expression_count(high.get()));
            with_itself(bounds.saturating_add(statements_count(body.as_slice())))
        }
        StmtKind::Ps(v, _) => with_itself(spot_count(v)),
        StmtKind::Psm(v, p) => with_itself(spot_count(v).saturating_add(spot_count(p))),
        StmtKind::Print(_, values) => with_itself(expressions_count(values.as_slice())),
    }
}

#[cycle(statements)]
fn statements_count(body: &[Stmt]) -> u64
    ensures { result ≡ min (nodes_of_statements body.now) (2 ^ 64 - 1) }
{
    let mut count = 0u64;
    for s in body {
        count = count.saturating_add(statement_count(s));
    }
    count
}
