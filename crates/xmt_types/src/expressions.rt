//! Typed expressions.
ghost use Rattle.std.specs.Prelude.{◌≡◌, IfOk};
ghost use Rattle.name_scopes.specs.Table.{IsTable};
ghost use Rattle.typed_programs.specs.Expressions as spec;

use name_faults::meaning;
use name_scopes::{Meaning, Scope, binary_of, unary_of};
use raw_tree::{RawExpr, RawExprKind, RawSpot};
use source_meaning::{Expr, ExprKind, Spot};
use sqlite_items::{Boxed, Items};
use std::alloc::{AllocError, Global};
use xmt_base::Place;
use xmt_lex::Mark;

/// A number as 32 bits.
pub(crate) fn number(n: usize) -> u32
    ensures { result ≡ spec.number n }
{
    n.min(u32::MAX as usize) as u32
}

/// The variable or register that a name stands for.
pub(crate) fn variable(meaning: Option<Meaning>) -> Spot
    ensures { result ≡ spec.variable meaning }
{
    match meaning {
        Some(Meaning::Scalar { number: n, .. }) => Spot::Global(number(n)),
        Some(Meaning::Register { number: n }) => Spot::Register(number(n)),
        Some(Meaning::Local { slot, .. }) => Spot::Local(number(slot)),
        _ => Spot::Local(0),
    }
}

fn array_number(meaning: Option<Meaning>) -> u32
    ensures { result ≡ spec.array_number meaning }
{
    match meaning {
        Some(Meaning::Array { number: n, .. }) => number(n),
        _ => 0,
    }
}

/// The number of the function that a name stands for.
pub(crate) fn function_number(meaning: Option<Meaning>) -> u32
    ensures { result ≡ spec.function_number meaning }
{
    match meaning {
        Some(Meaning::Function { number: n, .. }) => number(n),
        _ => 0,
    }
}

/// The number of the register that a name stands for.
pub(crate) fn register_number(meaning: Option<Meaning>) -> u32
    ensures { result ≡ spec.register_number meaning }
{
    match meaning {
        Some(Meaning::Register { number: n }) => number(n),
        _ => 0,
    }
}

// A node, in a box from the start.
fn node(alloc: Global, at: Place, kind: ExprKind) -> Result<Boxed<Expr>, AllocError>
    ensures { IfOk result (λ made. made ≡ spec.node at kind) }
{
    Boxed::new(alloc, Expr { at, kind })
}

fn assigned(
    alloc: Global,
    at: Place,
    place: Spot,
    mark: Mark,
    value: Boxed<Expr>,
) -> Result<Boxed<Expr>, AllocError>
    ensures { IfOk result (λ made. made ≡ spec.node at (spec.assigned mark place value)) }
{
    match mark {
        Mark::Equal => node(alloc, at, ExprKind::Assign(place, value)),
        _ => node(alloc, at, ExprKind::Update(binary_of(mark), place, value)),
    }
}

// An expression that stands for none.
fn nothing(alloc: Global) -> Result<Boxed<Expr>, AllocError>
    ensures { IfOk result (λ made. made ≡ spec.nothing) }
{
    let at = Place { line: 0, column: 0 };
    node(alloc, at, ExprKind::Number(0))
}

// The two last parts of an expression.
#[derive(Drop)]
pub struct Pair {
    pub left: Boxed<Expr>,
    pub right: Boxed<Expr>,
}

fn joined(alloc: Global, mark: Mark, parts: Pair) -> Result<Boxed<Expr>, AllocError>
    ensures { IfOk result (λ made. made ≡ spec.node parts.left.at (spec.joined mark parts.left parts.right)) }
{
    let Pair { left, right } = parts;
    let at = left.get().at;
    match mark {
        Mark::AndAnd => node(alloc, at, ExprKind::Both(left, right)),
        Mark::OrOr => node(alloc, at, ExprKind::Either(left, right)),
        _ => node(alloc, at, ExprKind::Binary(binary_of(mark), left, right)),
    }
}

fn chosen(alloc: Global, test: Boxed<Expr>, parts: Pair) -> Result<Boxed<Expr>, AllocError>
    ensures { IfOk result (λ made. made ≡ spec.chosen test parts.left parts.right) }
{
    let Pair { left, right } = parts;
    let at = test.get().at;
    node(alloc, at, ExprKind::Choose(test, left, right))
}

fn prefixed(
    alloc: Global,
    at: Place,
    mark: Mark,
    inner: Boxed<Expr>,
) -> Result<Boxed<Expr>, AllocError>
    ensures { IfOk result (λ made. made ≡ spec.prefixed at mark inner) }
{
    node(alloc, at, ExprKind::Unary(unary_of(mark), inner))
}

fn is_up(mark: Mark) -> bool
    ensures { result ≡ spec.is_up mark }
{
    match mark {
        Mark::PlusPlus => true,
        _ => false,
    }
}

fn element(array: u32, index: Boxed<Expr>) -> Spot
    ensures { result ≡ spec.element array index }
{
    Spot::Element(array, index)
}

/// The typed expression of a raw one.
#[tactic(auto, unfolding(name_scopes::specs::Opened::opened))]
#[cycle(typed)]
pub(crate) fn expression(
    alloc: Global,
    scope: &Scope,
    e: &RawExpr,
) -> Result<Boxed<Expr>, AllocError>
    requires { IsTable scope.now }
    ensures { IfOk result (λ made. made ≡ spec.typed scope.now.declared e.now.at e.now.kind) }
{
    match &e.kind {
        RawExprKind::Assign(spot, mark, value) => {
            let value = expression(alloc, scope, value.get())?;
            let place = place(alloc, scope, spot)?;
            assigned(alloc, e.at, place, *mark, value)
        }
        RawExprKind::Choose(test, _, _) => {
            let test = expression(alloc, scope, test.get())?;
            let parts = last_two(alloc, scope, e)?;
            chosen(alloc, test, parts)
        }
        RawExprKind::Binary(mark, _, _) => {
            let parts = last_two(alloc, scope, e)?;
            joined(alloc, *mark, parts)
        }
        RawExprKind::Prefix(mark, inner) => {
            let inner = expression(alloc, scope, inner.get())?;
            prefixed(alloc, e.at, *mark, inner)
        }
        RawExprKind::StepBefore(mark, spot) => {
            let spot = place(alloc, scope, spot)?;
            let up = is_up(*mark);
            let after = false;
            node(alloc, e.at, ExprKind::Step { spot, up, after })
        }
        RawExprKind::StepAfter(spot, mark) => {
            let spot = place(alloc, scope, spot)?;
            let up = is_up(*mark);
            let after = true;
            node(alloc, e.at, ExprKind::Step { spot, up, after })
        }
        RawExprKind::Read(spot) => {
            let spot = place(alloc, scope, spot)?;
            node(alloc, e.at, ExprKind::Read(spot))
        }
        #[tactic(auto)]
        RawExprKind::Call(name, values) => {
            let values = expressions(alloc, scope, values.as_slice())?;
            let function = function_number(meaning(scope, name));
            node(alloc, e.at, ExprKind::Call(function, values))
        }
        RawExprKind::Number(value) => node(alloc, e.at, ExprKind::Number(*value)),
        RawExprKind::Dollar => node(alloc, e.at, ExprKind::Dollar),
        RawExprKind::Brackets(inner) => expression(alloc, scope, inner.get()),
    }
}

// The two last parts of a choice or of a binary operator's expression.
#[tactic(auto, unfolding(name_scopes::specs::Opened::opened))]
#[cycle(typed)]
fn last_two(alloc: Global, scope: &Scope, e: &RawExpr) -> Result<Pair, AllocError>
    requires { IsTable scope.now }
    ensures { IfOk result (λ made. made ≡ record { left = spec.last_left scope.now.declared e.now.kind; right = spec.last_right scope.now.declared e.now.kind }) }
{
    match &e.kind {
        RawExprKind::Choose(_, left, right) => {
            let left = expression(alloc, scope, left.get())?;
            let right = expression(alloc, scope, right.get())?;
            Ok(Pair { left, right })
        }
        RawExprKind::Binary(_, left, right) => {
            let left = expression(alloc, scope, left.get())?;
            let right = expression(alloc, scope, right.get())?;
            Ok(Pair { left, right })
        }
        _ => {
            let left = nothing(alloc)?;
            let right = nothing(alloc)?;
            Ok(Pair { left, right })
        }
    }
}

/// The spot of a raw place.
#[tactic(auto, unfolding(name_scopes::specs::Opened::opened))]
#[cycle(typed)]
pub(crate) fn place(alloc: Global, scope: &Scope, spot: &RawSpot) -> Result<Spot, AllocError>
    requires { IsTable scope.now }
    ensures { IfOk result (λ made. made ≡ spec.typed_spot scope.now.declared spot.now) }
{
    match spot {
        RawSpot::Name(name) => Ok(variable(meaning(scope, name))),
        RawSpot::Element(name, index) => {
            let index = expression(alloc, scope, index.get())?;
            Ok(element(array_number(meaning(scope, name)), index))
        }
    }
}

/// The typed expressions of raw ones.
#[cycle(typed)]
pub(crate) fn expressions(
    alloc: Global,
    scope: &Scope,
    values: &[RawExpr],
) -> Result<Items<Expr>, AllocError>
    requires { IsTable scope.now }
    ensures { IfOk result (λ made. made ≡ spec.expressions scope.now.declared values.now) }
{
    let mut made = Items::new(alloc);
    for e in values {
        let one = expression(alloc, scope, e)?;
        made.push(one.into_inner())?;
    }
    Ok(made)
}

/// The typed expression of a raw one, in a box.
pub(crate) fn boxed_expression(
    alloc: Global,
    scope: &Scope,
    e: &RawExpr,
) -> Result<Boxed<Expr>, AllocError>
    requires { IsTable scope.now }
    ensures { IfOk result (λ made. made ≡ spec.expression scope.now.declared e.now) }
{
    expression(alloc, scope, e)
}

/// The typed expression of a raw one, where there is one.
pub(crate) fn optional_expression(
    alloc: Global,
    scope: &Scope,
    e: &Option<Boxed<RawExpr>>,
) -> Result<Option<Boxed<Expr>>, AllocError>
    requires { IsTable scope.now }
    ensures { IfOk result (λ made. made ≡ spec.option scope.now.declared e.now) }
{
    match e {
        None => Ok(None),
        Some(e) => {
            let made = boxed_expression(alloc, scope, e.get())?;
            Ok(Some(made))
        }
    }
}
