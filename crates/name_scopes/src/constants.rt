//! The values of constant expressions, and the operators that marks are.
ghost use Rattle.std.specs.Prelude.{◌≡◌};
ghost use Rattle.name_scopes.specs.Constant as spec;

use raw_tree::{RawExpr, RawExprKind};
use xmt_base::{BinOp, UnOp, binary, unary};
use xmt_lex::Mark;

/// The unary operator that a mark is.
pub fn unary_of(mark: Mark) -> UnOp
    ensures { result ≡ spec.unary_of mark }
{
    match mark {
        Mark::Minus => UnOp::Neg,
        Mark::Not => UnOp::Not,
        Mark::Tilde => UnOp::Flip,
        _ => UnOp::Plus,
    }
}

/// The binary operator that a mark is, or with which an assignment joins the old value.
pub fn binary_of(mark: Mark) -> BinOp
    ensures { result ≡ spec.binary_of mark }
{
    match mark {
        Mark::Minus | Mark::MinusEqual => BinOp::Sub,
        Mark::Star | Mark::StarEqual => BinOp::Mul,
        Mark::Slash | Mark::SlashEqual => BinOp::Div,
        Mark::Percent | Mark::PercentEqual => BinOp::Rem,
        Mark::Shl | Mark::ShlEqual => BinOp::Shl,
        Mark::Shr | Mark::ShrEqual => BinOp::Shr,
        Mark::And | Mark::AndEqual => BinOp::BitAnd,
        Mark::Or | Mark::OrEqual => BinOp::BitOr,
        Mark::Caret | Mark::CaretEqual => BinOp::BitXor,
        Mark::Less => BinOp::Lt,
        Mark::LessEqual => BinOp::Le,
        Mark::More => BinOp::Gt,
        Mark::MoreEqual => BinOp::Ge,
        Mark::EqualEqual => BinOp::Eq,
        Mark::NotEqual => BinOp::Ne,
        _ => BinOp::Add,
    }
}

fn both_values(op: BinOp, left: Option<u32>, right: Option<u32>) -> Option<u32>
    ensures { result ≡ spec.both_values op left right }
{
    match left {
        None => None,
        Some(a) => match right {
            None => None,
            Some(b) => binary(op, a, b),
        },
    }
}

fn chosen_value(test: Option<u32>, zero: Option<u32>, other: Option<u32>) -> Option<u32>
    ensures { result ≡ spec.chosen_value test zero other }
{
    match test {
        None => None,
        Some(a) => { if a == 0 { zero } else { other } }
    }
}

fn truth_value(value: Option<u32>) -> Option<u32>
    ensures { result ≡ spec.truth_value value }
{
    match value {
        None => None,
        Some(a) => Some(u32::from(a != 0)),
    }
}

fn joined_value(mark: Mark, left: Option<u32>, right: Option<u32>) -> Option<u32>
    ensures { result ≡ spec.joined_value mark left right }
{
    match mark {
        Mark::AndAnd => chosen_value(left, Some(0), truth_value(right)),
        Mark::OrOr => chosen_value(left, truth_value(right), Some(1)),
        _ => both_values(binary_of(mark), left, right),
    }
}

fn prefixed_value(mark: Mark, value: Option<u32>) -> Option<u32>
    ensures { result ≡ spec.prefixed_value mark value }
{
    match value {
        None => None,
        Some(a) => Some(unary(unary_of(mark), a)),
    }
}

#[tactic(auto, unfolding(crate::specs::Opened::opened))]
fn is_arithmetic(e: &RawExpr) -> bool
    ensures { result ≡ spec.is_arithmetic e.now.kind }
{
    match &e.kind {
        RawExprKind::Number(_) => true,
        RawExprKind::Brackets(inner) => is_arithmetic(inner.get()),
        RawExprKind::Prefix(_, inner) => is_arithmetic(inner.get()),
        RawExprKind::Binary(_, left, right) => {
            is_arithmetic(left.get()) && is_arithmetic(right.get())
        }
        RawExprKind::Choose(test, left, right) => {
            is_arithmetic(test.get()) && is_arithmetic(left.get()) && is_arithmetic(right.get())
        }
        _ => false,
    }
}

#[tactic(auto, unfolding(crate::specs::Opened::opened))]
fn value(e: &RawExpr) -> Option<u32>
    ensures { result ≡ spec.value e.now.kind }
{
    match &e.kind {
        RawExprKind::Number(number) => Some(*number),
        RawExprKind::Brackets(inner) => value(inner.get()),
        RawExprKind::Prefix(mark, inner) => prefixed_value(*mark, value(inner.get())),
        RawExprKind::Binary(mark, left, right) => {
            joined_value(*mark, value(left.get()), value(right.get()))
        }
        RawExprKind::Choose(test, left, right) => chosen_value(
            value(test.get()),
            value(right.get()),
            value(left.get()),
        ),
        _ => None,
    }
}

/// The value of a constant expression, and none where it holds more than numbers and operators or
/// divides by 0.
pub fn constant(e: &RawExpr) -> Option<u32>
    ensures { result ≡ spec.constant e.now.kind }
{
    if is_arithmetic(e) { value(e) } else { None }
}
