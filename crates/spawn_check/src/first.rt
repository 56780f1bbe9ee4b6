//! The first refusal, when it is marked which functions reach a `printf` and which a `spawn`.
#![tactic(auto, unfolding(source_meaning::specs::Opened::opened))]

ghost use Rattle.std.specs.Prelude.{◌≡◌, None};
ghost use Rattle.spawn_check.specs.Things.{occurrence};
ghost use Rattle.spawn_check.specs.First.{call_kind, kind_of, earlier, first_with, first_in_expression, first_in_spot, first_in_values, first_in_option, first_in_statement, first_in_statements, first_in_functions};

use crate::questions::is_marked;
use crate::refusal::{SpawnKind, SpawnRefusal, comes_before};
use crate::things::{Around, Marks, Thing};
use source_meaning::{Expr, ExprKind, Function, Spot, Stmt, StmtKind};
use sqlite_items::Boxed;
use xmt_base::Place;

fn kind_of_call(prints: bool, spawns: bool) -> Option<SpawnKind>
    ensures { result ≡ call_kind prints spawns }
{
    if prints {
        Some(SpawnKind::PrintInside)
    } else if spawns {
        Some(SpawnKind::CallReachesSpawn)
    } else {
        None
    }
}

/// The first line of the table that a thing meets.
fn kind_met(marks: &Marks, thing: Thing, around: Around) -> Option<SpawnKind>
    ensures { result ≡ kind_of marks.now thing around.inside around.looped }
{
    match (thing, around.inside) {
        (Thing::Dollar, false) => Some(SpawnKind::DollarOutside),
        (Thing::Return, true) => Some(SpawnKind::ReturnInside),
        (Thing::Jump, _) if !around.looped => Some(SpawnKind::JumpOut),
        (Thing::Spawn, true) => Some(SpawnKind::Nested),
        (Thing::Print, true) => Some(SpawnKind::PrintInside),
        (Thing::Call(function), true) => kind_of_call(
            is_marked(&marks.prints, function),
            is_marked(&marks.spawns, function),
        ),
        _ => None,
    }
}

fn earlier_of(first: Option<SpawnRefusal>, refusal: SpawnRefusal) -> SpawnRefusal
    ensures { result ≡ earlier first refusal }
{
    match first {
        None => refusal,
        Some(first) => {
            if comes_before(refusal, first) {
                refusal
            } else {
                first
            }
        }
    }
}

/// The first refusal, when this one is the first of the others.
fn after_thing(
    marks: &Marks,
    thing: Thing,
    place: Place,
    around: Around,
    first: Option<SpawnRefusal>,
) -> Option<SpawnRefusal>
    ensures { result ≡ first_with marks.now first (occurrence thing place around) }
{
    match kind_met(marks, thing, around) {
        None => first,
        Some(kind) => Some(earlier_of(first, SpawnRefusal { kind, place })),
    }
}

#[cycle(expressions)]
fn after_expression(
    marks: &Marks,
    e: &Expr,
    around: Around,
    first: Option<SpawnRefusal>,
) -> Option<SpawnRefusal>
    ensures { result ≡ first_in_expression marks.now around e.now.at e.now.kind first }
{
    let place = e.at;
    match &e.kind {
        ExprKind::Number(_) => first,
        ExprKind::Dollar => after_thing(marks, Thing::Dollar, place, around, first),
        ExprKind::Read(p) | ExprKind::Step { spot: p, .. } => after_spot(marks, p, around, first),
        ExprKind::Assign(p, e) | ExprKind::Update(_, p, e) => {
            let first = after_spot(marks, p, around, first);
            after_expression(marks, e.get(), around, first)
        }
        ExprKind::Unary(_, e) => after_expression(marks, e.get(), around, first),
        ExprKind::Binary(_, a, b) | ExprKind::Both(a, b) | ExprKind::Either(a, b) => {
            let first = after_expression(marks, a.get(), around, first);
            after_expression(marks, b.get(), around, first)
        }
        ExprKind::Choose(test, a, b) => {
            let first = after_expression(marks, test.get(), around, first);
            let first = after_expression(marks, a.get(), around, first);
            after_expression(marks, b.get(), around, first)
        }
        ExprKind::Call(function, values) => {
            let first = after_thing(marks, Thing::Call(*function), place, around, first);
            after_values(marks, values.as_slice(), around, first)
        }
    }
}

#[cycle(expressions)]
fn after_spot(
    marks: &Marks,
    p: &Spot,
    around: Around,
    first: Option<SpawnRefusal>,
) -> Option<SpawnRefusal>
    ensures { result ≡ first_in_spot marks.now around p.now first }
{
    match p {
        Spot::Element(_, index) => after_expression(marks, index.get(), around, first),
        Spot::Global(_) | Spot::Register(_) | Spot::Local(_) => first,
    }
}

#[cycle(expressions)]
fn after_values(
    marks: &Marks,
    values: &[Expr],
    around: Around,
    first: Option<SpawnRefusal>,
) -> Option<SpawnRefusal>
    ensures { result ≡ first_in_values marks.now around values.now first }
{
    let mut first = first;
    for value in values {
        first = after_expression(marks, value, around, first);
    }
    first
}

fn after_option(
    marks: &Marks,
    e: &Option<Boxed<Expr>>,
    around: Around,
    first: Option<SpawnRefusal>,
) -> Option<SpawnRefusal>
    ensures { result ≡ first_in_option marks.now around e.now first }
{
    match e {
        None => first,
        Some(e) => after_expression(marks, e.get(), around, first),
    }
}

#[cycle(statements)]
fn after_statement(
    marks: &Marks,
    s: &Stmt,
    around: Around,
    first: Option<SpawnRefusal>,
) -> Option<SpawnRefusal>
    ensures { result ≡ first_in_statement marks.now around s.now.at s.now.kind first }
{
    let place = s.at;
    match &s.kind {
        StmtKind::Empty => first,
        StmtKind::Value(e) => after_expression(marks, e.get(), around, first),
        StmtKind::Declare(_, value) => after_option(marks, value, around, first),
        StmtKind::Block(body) => after_statements(marks, body.as_slice(), around, first),
        StmtKind::If(test, body, None) => {
            let first = after_expression(marks, test.get(), around, first);
            after_statement(marks, body.get(), around, first)
        }
        StmtKind::If(test, body, Some(other)) => {
            let first = after_expression(marks, test.get(), around, first);
            let first = after_statement(marks, body.get(), around, first);
            after_statement(marks, other.get(), around, first)
        }
        StmtKind::While(test, body) => {
            let first = after_expression(marks, test.get(), around, first);
            after_statement(marks, body.get(), around.with_loop(), first)
        }
        StmtKind::Do(body, test) => {
            let first = after_statement(marks, body.get(), around.with_loop(), first);
            after_expression(marks, test.get(), around, first)
        }
        StmtKind::For(start, test, third, body) => {
            let first = after_statements(marks, start.as_slice(), around, first);
            let first = after_option(marks, test, around, first);
            let first = after_option(marks, third, around, first);
            after_statement(marks, body.get(), around.with_loop(), first)
        }
        StmtKind::Break | StmtKind::Continue => after_thing(
            marks,
            Thing::Jump,
            place,
            around,
            first,
        ),
        StmtKind::Return(value) => {
            let first = after_thing(marks, Thing::Return, place, around, first);
            after_option(marks, value, around, first)
        }
        StmtKind::Spawn(low, high, block) => {
            let first = after_thing(marks, Thing::Spawn, place, around, first);
            let first = after_expression(marks, low.get(), around, first);
            let first = after_expression(marks, high.get(), around, first);
            after_statements(marks, block.as_slice(), Around::block(), first)
        }
        StmtKind::Ps(v, _) => after_spot(marks, v, around, first),
        StmtKind::Psm(v, p) => {
            let first = after_spot(marks, v, around, first);
            after_spot(marks, p, around, first)
        }
        StmtKind::Print(_, values) => {
            let first = after_thing(marks, Thing::Print, place, around, first);
            after_values(marks, values.as_slice(), around, first)
        }
    }
}

#[cycle(statements)]
fn after_statements(
    marks: &Marks,
    body: &[Stmt],
    around: Around,
    first: Option<SpawnRefusal>,
) -> Option<SpawnRefusal>
    ensures { result ≡ first_in_statements marks.now around body.now first }
{
    let mut first = first;
    for s in body {
        first = after_statement(marks, s, around, first);
    }
    first
}

/// The first refusal of a program with these functions.
pub(crate) fn first_refusal(marks: &Marks, functions: &[Function]) -> Option<SpawnRefusal>
    ensures { result ≡ first_in_functions marks.now functions.now None }
{
    let mut first = None;
    for function in functions {
        first = after_statements(marks, function.body.as_slice(), Around::serial(), first);
    }
    first
}
