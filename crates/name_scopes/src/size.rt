//! How many nodes a tree has, and how many of its values wait. The numbers stay at the greatest
//! u64.
ghost use Rattle.std.specs.Prelude.{◌≡◌, ◌+◌, ◌-◌, ◌^◌, suc, min, sum, map};
ghost use Rattle.name_scopes.specs.Size as spec;
ghost use Rattle.name_scopes.specs.Waiting as wait;
ghost use Rattle.xmt_base.specs.Counters.{capped};

use raw_tree::{RawExpr, RawExprKind, RawSpot};
use xmt_lex::Mark;

/// How many nodes the typed tree of an expression has.
#[tactic(auto, unfolding(crate::specs::Opened::opened))]
#[cycle(nodes)]
pub fn nodes(e: &RawExpr) -> u64
    ensures { result ≡ capped (spec.nodes e.now.kind) }
{
    match &e.kind {
        RawExprKind::Assign(spot, _, value) => nodes_of_spot(spot)
            .saturating_add(nodes(value.get()))
            .saturating_add(1),
        RawExprKind::Choose(test, left, right) => nodes(test.get())
            .saturating_add(nodes(left.get()))
            .saturating_add(nodes(right.get()))
            .saturating_add(1),
        RawExprKind::Binary(_, left, right) => nodes(left.get())
            .saturating_add(nodes(right.get()))
            .saturating_add(1),
        RawExprKind::Prefix(_, inner) => nodes(inner.get()).saturating_add(1),
        RawExprKind::StepBefore(_, spot) => nodes_of_spot(spot).saturating_add(1),
        RawExprKind::StepAfter(spot, _) => nodes_of_spot(spot).saturating_add(1),
        RawExprKind::Read(spot) => nodes_of_spot(spot).saturating_add(1),
        RawExprKind::Call(_, values) => nodes_of_all(values.as_slice()).saturating_add(1),
        RawExprKind::Number(_) => 1,
        RawExprKind::Dollar => 1,
        RawExprKind::Brackets(inner) => nodes(inner.get()),
    }
}

/// How many nodes the index of a place has.
#[tactic(auto, unfolding(crate::specs::Opened::opened))]
#[cycle(nodes)]
pub fn nodes_of_spot(spot: &RawSpot) -> u64
    ensures { result ≡ capped (spec.nodes_of_spot spot.now) }
{
    match spot {
        RawSpot::Name(_) => 0,
        RawSpot::Element(_, index) => nodes(index.get()),
    }
}

/// How many nodes expressions have.
#[tactic(auto, unfolding(crate::specs::Opened::opened))]
#[cycle(nodes)]
pub fn nodes_of_all(values: &[RawExpr]) -> u64
    ensures { result ≡ capped (sum (map (λ e. spec.nodes e.kind) values.now)) }
{
    let mut total = 0u64;
    for e in values {
        total = total.saturating_add(nodes(e));
    }
    total
}

fn kept(mark: Mark) -> u64
    ensures { result ≡ wait.kept mark }
{
    match mark {
        Mark::Equal => 0,
        _ => 1,
    }
}

fn waiting_of_both(mark: Mark, left: u64, right: u64) -> u64
    ensures { result ≡ capped (wait.waiting_of_both mark left right) }
{
    match mark {
        Mark::AndAnd | Mark::OrOr => left.max(right),
        _ => left.max(right.saturating_add(1)),
    }
}

/// How many values wait at most while an expression is computed.
#[tactic(auto, unfolding(crate::specs::Opened::opened))]
#[cycle(waiting)]
pub fn waiting(e: &RawExpr) -> u64
    ensures { result ≡ capped (wait.waiting e.now.kind) }
{
    match &e.kind {
        RawExprKind::Assign(spot, mark, value) => {
            let inside = kept(*mark).saturating_add(waiting(value.get()));
            waiting_of_write(spot, inside)
        }
        RawExprKind::Choose(test, left, right) => waiting(test.get()).max(waiting(left.get()).max(
            waiting(right.get()),
        )),
        RawExprKind::Binary(mark, left, right) => {
            waiting_of_both(*mark, waiting(left.get()), waiting(right.get()))
        }
        RawExprKind::Prefix(_, inner) => waiting(inner.get()),
        RawExprKind::StepBefore(_, spot) => waiting_of_step(spot),
        RawExprKind::StepAfter(spot, _) => waiting_of_step(spot),
        RawExprKind::Read(spot) => waiting_of_read(spot),
        RawExprKind::Call(_, values) => waiting_of_values(values.as_slice()).max(1),
        RawExprKind::Number(_) => 1,
        RawExprKind::Dollar => 1,
        RawExprKind::Brackets(inner) => waiting(inner.get()),
    }
}

#[tactic(auto, unfolding(crate::specs::Opened::opened))]
#[cycle(waiting)]
fn waiting_of_write(spot: &RawSpot, value: u64) -> u64
    ensures { result ≡ capped (wait.waiting_of_write spot.now value) }
{
    match spot {
        RawSpot::Name(_) => value,
        RawSpot::Element(_, index) => waiting(index.get()).max(value.saturating_add(1)),
    }
}

/// How many values wait at most while a place is read.
#[tactic(auto, unfolding(crate::specs::Opened::opened))]
#[cycle(waiting)]
pub fn waiting_of_read(spot: &RawSpot) -> u64
    ensures { result ≡ capped (wait.waiting_of_read spot.now) }
{
    match spot {
        RawSpot::Name(_) => 1,
        RawSpot::Element(_, index) => waiting(index.get()),
    }
}

#[tactic(auto, unfolding(crate::specs::Opened::opened))]
#[cycle(waiting)]
fn waiting_of_step(spot: &RawSpot) -> u64
    ensures { result ≡ capped (wait.waiting_of_step spot.now) }
{
    match spot {
        RawSpot::Name(_) => 2,
        RawSpot::Element(_, index) => waiting(index.get()).max(3),
    }
}

/// How many values wait at most while values are computed one behind the other and all kept.
#[tactic(auto, unfolding(crate::specs::Opened::opened))]
#[cycle(waiting)]
pub fn waiting_of_values(values: &[RawExpr]) -> u64
    ensures { result ≡ capped (wait.waiting_of_values values.now) }
{
    let mut most = 0u64;
    let mut before = 0u64;
    for e in values {
        most = most.max(
            before
                .saturating_add(waiting(e))
                .max(before.saturating_add(1)),
        );
        before = before.saturating_add(1);
    }
    most
}
