//! How many values wait at most while an expression is computed.
#![tactic(auto, using(crate::proofs::Rows::waiting_of_call), unfolding(source_meaning::specs::Opened::opened))]

ghost use Rattle.std.specs.Prelude.{◌≡◌, ◌^◌, ◌-◌, ◌+◌, min, max};
ghost use Rattle.tree_measures.specs.Waiting.{waiting_in, waiting_at, waiting_behind_list, waiting_for_sum, waiting_in_statement};

use source_meaning::{Expr, ExprKind, Spot, Stmt, StmtKind};

/// How many values wait at most while the expression is computed. Above the greatest `u64` it
/// answers that.
#[cycle(waiting)]
pub fn waiting(e: &Expr) -> u64
    ensures { result ≡ min (waiting_in e.now.kind) (2 ^ 64 - 1) }
{
    match &e.kind {
        ExprKind::Number(_) | ExprKind::Dollar => 1,
        ExprKind::Read(p) => waiting_at_spot(p, 1, 0),
        ExprKind::Assign(p, e) => {
            let value = waiting(e.get());
            waiting_at_spot(p, value, value.saturating_add(1))
        }
        ExprKind::Update(_, p, e) => {
            let value = waiting(e.get());
            waiting_at_spot(p, value.saturating_add(1), value.saturating_add(2))
        }
        ExprKind::Step { spot, .. } => waiting_at_spot(spot, 2, 3),
        ExprKind::Unary(_, e) => waiting(e.get()),
        ExprKind::Binary(_, a, b) => waiting(a.get()).max(waiting(b.get()).saturating_add(1)),
        ExprKind::Both(a, b) | ExprKind::Either(a, b) => waiting(a.get()).max(waiting(b.get())),
        ExprKind::Choose(test, a, b) => {
            waiting(test.get()).max(waiting(a.get()).max(waiting(b.get())))
        }
        ExprKind::Call(_, values) => waiting_of_values(values.as_slice()).max(1),
    }
}

#[cycle(waiting)]
fn waiting_at_spot(p: &Spot, variable: u64, element: u64) -> u64
    ensures { result ≡ min (waiting_at p.now variable element) (2 ^ 64 - 1) }
{
    match p {
        Spot::Element(_, index) => waiting(index.get()).max(element),
        Spot::Global(_) | Spot::Register(_) | Spot::Local(_) => variable,
    }
}

#[cycle(waiting)]
fn waiting_of_values(values: &[Expr]) -> u64
    ensures { result ≡ min (waiting_behind_list 0 values.now) (2 ^ 64 - 1) }
{
    let mut most = 0u64;
    let mut before = 0u64;
    for value in values {
        most = most.max(waiting(value).saturating_add(before));
        before = before.saturating_add(1);
    }
    most
}

/// How many values wait at most in a statement that computes several values: the two bounds of a
/// spawn, the values of a print, and those of a prefix-sum. For another statement it is 0. Above
/// the greatest `u64` it answers that.
pub fn statement_waiting(s: &Stmt) -> u64
    ensures { result ≡ min (waiting_in_statement s.now.kind) (2 ^ 64 - 1) }
{
    match &s.kind {
        StmtKind::Spawn(low, high, _) => {
            let bounds = waiting(low.get()).max(waiting(high.get()).saturating_add(1));
            bounds.max(1)
        }
        StmtKind::Ps(..) => 2,
        StmtKind::Psm(_, place) => waiting_for_place(place),
        StmtKind::Print(_, values) => waiting_of_values(values.as_slice()).max(1),
        _ => 0,
    }
}

fn waiting_for_place(p: &Spot) -> u64
    ensures { result ≡ min (waiting_for_sum p.now) (2 ^ 64 - 1) }
{
    match p {
        Spot::Element(_, index) => waiting(index.get()).saturating_add(1).max(3),
        Spot::Global(_) | Spot::Register(_) | Spot::Local(_) => 3,
    }
}
