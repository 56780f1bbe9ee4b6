//! What may be asked of the statements of a body, at any depth.
#![tactic(auto, using(crate::proofs::Rows::tests), unfolding(source_meaning::specs::Opened::opened))]

ghost use Rattle.std.specs.Prelude.{◌≡◌, slice_index_or, false};
ghost use Rattle.std.specs.List.{list_any};
ghost use Rattle.source_meaning.specs.Inside.{some_inside, some_in_spot, some_expression, some_option, some_of_statement, some_below, some_statement, some_in_list};
ghost use Rattle.source_meaning.specs.Variables.{is_local};
ghost use Rattle.spawn_check.specs.Questions.{expression_test, own_test, statement_test};

use crate::things::Sought;
use source_meaning::{Expr, ExprKind, Spot, Stmt, StmtKind};
use sqlite_items::Boxed;

/// What is asked of each statement.
#[derive(Clone, Copy)]
pub(crate) enum Question {
    /// Whether it declares the variable.
    Declares(u32),
    /// Whether it writes the variable.
    Writes(u32),
    /// Whether it is what is sought, or calls a function that is marked.
    LeadsTo(Sought),
}

/// Whether a function is marked. A number behind the marks isn't.
pub(crate) fn is_marked(marks: &[bool], function: u32) -> bool
    ensures { result ≡ slice_index_or marks.now function false }
{
    match marks.get(function as usize) {
        Some(mark) => *mark,
        None => false,
    }
}

fn is_variable(slot: u32, p: &Spot) -> bool
    ensures { result ≡ is_local slot p.now }
{
    match p {
        Spot::Local(other) => slot == *other,
        Spot::Global(_) | Spot::Element(..) | Spot::Register(_) => false,
    }
}

fn expression_passes(question: Question, marks: &[bool], kind: &ExprKind) -> bool
    ensures { result ≡ expression_test question marks.now kind.now }
{
    match (question, kind) {
        (Question::Writes(slot), ExprKind::Assign(p, _) | ExprKind::Update(_, p, _)) => {
            is_variable(slot, p)
        }
        (Question::Writes(slot), ExprKind::Step { spot, .. }) => is_variable(slot, spot),
        (Question::LeadsTo(_), ExprKind::Call(function, _)) => is_marked(marks, *function),
        _ => false,
    }
}

#[cycle(expressions)]
fn some_in_expression(question: Question, marks: &[bool], e: &Expr) -> bool
    ensures { result ≡ some_expression (expression_test question marks.now) e.now.kind }
{
    expression_passes(question, marks, &e.kind) || some_in_parts(question, marks, &e.kind)
}

#[cycle(expressions)]
fn some_in_parts(question: Question, marks: &[bool], kind: &ExprKind) -> bool
    ensures { result ≡ some_inside (expression_test question marks.now) kind.now }
{
    match kind {
        ExprKind::Number(_) | ExprKind::Dollar => false,
        ExprKind::Read(p) | ExprKind::Step { spot: p, .. } => some_in_index(question, marks, p),
        ExprKind::Assign(p, e) | ExprKind::Update(_, p, e) => {
            some_in_index(question, marks, p) || some_in_expression(question, marks, e.get())
        }
        ExprKind::Unary(_, e) => some_in_expression(question, marks, e.get()),
        ExprKind::Binary(_, a, b) | ExprKind::Both(a, b) | ExprKind::Either(a, b) => {
            some_in_expression(question, marks, a.get())
                || some_in_expression(question, marks, b.get())
        }
        ExprKind::Choose(test, a, b) => {
            some_in_expression(question, marks, test.get())
                || some_in_expression(question, marks, a.get())
                || some_in_expression(question, marks, b.get())
        }
        ExprKind::Call(_, values) => some_in_values(question, marks, values.as_slice()),
    }
}

#[cycle(expressions)]
fn some_in_index(question: Question, marks: &[bool], p: &Spot) -> bool
    ensures { result ≡ some_in_spot (expression_test question marks.now) p.now }
{
    match p {
        Spot::Element(_, index) => some_in_expression(question, marks, index.get()),
        Spot::Global(_) | Spot::Register(_) | Spot::Local(_) => false,
    }
}

#[cycle(expressions)]
fn some_in_values(question: Question, marks: &[bool], values: &[Expr]) -> bool
    ensures { result ≡ list_any (λ e. some_expression (expression_test question marks.now) e.kind) values.now }
{
    for value in values {
        if some_in_expression(question, marks, value) {
            return true;
        }
    }
    false
}

fn some_in_option(question: Question, marks: &[bool], e: &Option<Boxed<Expr>>) -> bool
    ensures { result ≡ some_option (expression_test question marks.now) e.now }
{
    match e {
        None => false,
        Some(e) => some_in_expression(question, marks, e.get()),
    }
}

/// Whether an expression of the statement passes, without those of statements inside it.
fn some_of_its_expressions(question: Question, marks: &[bool], kind: &StmtKind) -> bool
    ensures { result ≡ some_of_statement (expression_test question marks.now) kind.now }
{
    match kind {
        StmtKind::Empty | StmtKind::Block(_) | StmtKind::Break | StmtKind::Continue => false,
        StmtKind::Value(e) | StmtKind::If(e, ..) | StmtKind::While(e, _) | StmtKind::Do(_, e) =>
            some_in_expression(question, marks, e.get()),
        StmtKind::Declare(_, value) | StmtKind::Return(value) => {
            some_in_option(question, marks, value)
        }
        StmtKind::For(_, test, third, _) => {
            some_in_option(question, marks, test) || some_in_option(question, marks, third)
        }
        StmtKind::Spawn(low, high, _) => {
            some_in_expression(question, marks, low.get())
                || some_in_expression(question, marks, high.get())
        }
        StmtKind::Ps(v, _) => some_in_index(question, marks, v),
        StmtKind::Psm(v, p) => {
            some_in_index(question, marks, v) || some_in_index(question, marks, p)
        }
        StmtKind::Print(_, values) => some_in_values(question, marks, values.as_slice()),
    }
}

/// Whether the statement passes by itself, without its expressions.
fn passes_itself(question: Question, kind: &StmtKind) -> bool
    ensures { result ≡ own_test question kind.now }
{
    match (question, kind) {
        (Question::Declares(slot), StmtKind::Declare(other, _)) => slot == *other,
        (Question::Writes(slot), StmtKind::Ps(v, _)) => is_variable(slot, v),
        (Question::Writes(slot), StmtKind::Psm(v, p)) => {
            is_variable(slot, v) || is_variable(slot, p)
        }
        (Question::LeadsTo(Sought::Print), StmtKind::Print(..)) => true,
        (Question::LeadsTo(Sought::Spawn), StmtKind::Spawn(..)) => true,
        _ => false,
    }
}

/// Whether the statement passes, without those inside it.
fn statement_passes(question: Question, marks: &[bool], kind: &StmtKind) -> bool
    ensures { result ≡ statement_test question marks.now kind.now }
{
    match question {
        Question::Declares(_) => passes_itself(question, kind),
        Question::Writes(_) | Question::LeadsTo(_) => {
            passes_itself(question, kind) || some_of_its_expressions(question, marks, kind)
        }
    }
}

#[cycle(statements)]
fn some_in_statement(question: Question, marks: &[bool], s: &Stmt) -> bool
    ensures { result ≡ some_statement (statement_test question marks.now) s.now.kind }
{
    statement_passes(question, marks, &s.kind) || some_below_it(question, marks, &s.kind)
}

#[cycle(statements)]
fn some_below_it(question: Question, marks: &[bool], kind: &StmtKind) -> bool
    ensures { result ≡ some_below (statement_test question marks.now) kind.now }
{
    match kind {
        StmtKind::Block(body) => some_in_body(question, marks, body.as_slice()),
        StmtKind::Spawn(_, _, block) => some_in_body(question, marks, block.as_slice()),
        StmtKind::If(_, body, None) | StmtKind::While(_, body) | StmtKind::Do(body, _) => {
            some_in_statement(question, marks, body.get())
        }
        StmtKind::If(_, body, Some(other)) => {
            some_in_statement(question, marks, body.get())
                || some_in_statement(question, marks, other.get())
        }
        StmtKind::For(first, _, _, body) => {
            some_in_body(question, marks, first.as_slice())
                || some_in_statement(question, marks, body.get())
        }
        _ => false,
    }
}

/// Whether one of these statements passes, or one inside them.
#[cycle(statements)]
pub(crate) fn some_in_body(question: Question, marks: &[bool], body: &[Stmt]) -> bool
    ensures { result ≡ some_in_list (statement_test question marks.now) body.now }
{
    for s in body {
        if some_in_statement(question, marks, s) {
            return true;
        }
    }
    false
}
