//! The first breach in a statement.
ghost use Rattle.std.specs.Prelude.{ℕ, ◌≡◌, true, map, OnOk, IfOk};
ghost use Rattle.name_scopes.specs.Fault.{first, over};
ghost use Rattle.name_scopes.specs.Fault as fault;
ghost use Rattle.name_scopes.specs.declared.fault.Which.TheVariants as which;
ghost use Rattle.name_scopes.specs.Locals.{env};
ghost use Rattle.name_scopes.specs.Locals as scoped;
ghost use Rattle.name_scopes.specs.Table.{IsTable};
ghost use Rattle.name_scopes.specs.Waiting as wait;
ghost use Rattle.name_faults.specs.Expressions as part;
ghost use Rattle.name_faults.specs.Parts as form;
ghost use Rattle.name_faults.specs.Statements as spec;
ghost use Rattle.xmt_base.specs.Counters.{capped};

use crate::expressions::{
    faults, faults_of_spot, faults_of_values, meaning, register_fault, sum_fault, whole,
    write_fault, written,
};
use name_scopes::{
    Fault, Locals, NameKind, Scope, Which, breach, earlier, is_constant, printed_values, waiting,
    waiting_of_read, waiting_of_values, when,
};
use raw_tree::{
    RawDecl, RawExpr, RawFirst, RawLocal, RawName, RawSpot, RawStmt, RawStmtKind, RawText,
};
use sqlite_items::Boxed;
use std::alloc::{AllocError, Global};
use xmt_base::Place;

/// The name is declared already in the scope that began after so many declarations.
pub(crate) fn double_fault(scope: &Scope, start: usize, name: &RawName) -> Option<Fault>
    requires { IsTable scope.now }
    ensures { result ≡ first (spec.double_fault start name.now scope.now.declared) }
{
    match scope.look(name.bytes.as_slice()) {
        None => None,
        Some(binding) => when(binding.place >= start, NameKind::Double, name.at),
    }
}

fn whole_option(scope: &Scope, wanted: bool, e: &Option<Boxed<RawExpr>>) -> Option<Fault>
    requires { IsTable scope.now }
    ensures { result ≡ first (part.whole_option scope.now.declared wanted e.now) }
{
    match e {
        None => None,
        Some(e) => whole(scope, wanted, e.get()),
    }
}

// One declared name with its initial value.
fn declare_one(
    alloc: Global,
    locals: &mut Locals,
    start: usize,
    constant: bool,
    local: &RawLocal,
) -> Result<Option<Fault>, AllocError>
    requires { IsTable locals.old.scope }
    ensures table { OnOk result (IsTable locals.new.scope) }
    ensures env { OnOk result (env locals.new ≡ scoped.declare_local constant local.now.name (env locals.old)) }
    ensures fault { IfOk result (λ found. found ≡ first (fault.both (part.whole_option locals.old.scope.declared true local.now.value) (spec.double_fault start local.now.name locals.old.scope.declared))) }
{
    let value = whole_option(&locals.scope, true, &local.value);
    let double = double_fault(&locals.scope, start, &local.name);
    locals.declare(alloc, constant, &local.name)?;
    Ok(earlier(value, double))
}

fn declaration(
    alloc: Global,
    locals: &mut Locals,
    start: usize,
    decl: &RawDecl,
) -> Result<Option<Fault>, AllocError>
    requires { IsTable locals.old.scope }
    ensures table { OnOk result (IsTable locals.new.scope) }
    ensures env { OnOk result (env locals.new ≡ spec.after_decl decl.now (env locals.old)) }
    ensures fault { IfOk result (λ found. found ≡ first (spec.decl_faults start decl.now (env locals.old))) }
{
    let constant = is_constant(decl.ty.qualifiers.as_slice());
    let mut found = None;
    for local in decl.locals.as_slice() {
        let one = declare_one(alloc, locals, start, constant, local)?;
        found = earlier(found, one);
    }
    Ok(found)
}

fn first_part(
    alloc: Global,
    locals: &mut Locals,
    start: usize,
    begin: &RawFirst,
) -> Result<Option<Fault>, AllocError>
    requires { IsTable locals.old.scope }
    ensures table { OnOk result (IsTable locals.new.scope) }
    ensures env { OnOk result (env locals.new ≡ spec.after_first begin.now (env locals.old)) }
    ensures fault { IfOk result (λ found. found ≡ first (spec.first_faults start begin.now (env locals.old))) }
{
    match begin {
        RawFirst::Decl(decl) => declaration(alloc, locals, start, decl),
        RawFirst::Value(value) => Ok(whole_option(&locals.scope, false, value)),
    }
}

fn return_faults(scope: &Scope, value: bool, at: Place, e: &Option<Boxed<RawExpr>>) -> Option<Fault>
    requires { IsTable scope.now }
    ensures { result ≡ first (spec.return_faults value at e.now scope.now.declared) }
{
    match e {
        None => None,
        Some(e) => earlier(
            whole(scope, true, e.get()),
            when(!value, NameKind::VoidValue, at),
        ),
    }
}

// More values wait than may.
fn waits(number: u64, at: Place) -> Option<Fault>
    ensures { (n : ℕ) → number ≡ capped n → result ≡ first (spec.waits n at) }
{
    when(number > 256, NameKind::TooMany(Which::Waiting), at)
}

fn bounds_faults(scope: &Scope, at: Place, low: &RawExpr, high: &RawExpr) -> Option<Fault>
    requires { IsTable scope.now }
    ensures { result ≡ first (spec.bounds_faults at low.now high.now scope.now.declared) }
{
    let number = waiting(low).max(waiting(high).saturating_add(1));
    let parts = earlier(faults(scope, true, low), faults(scope, true, high));
    earlier(parts, waits(number, at))
}

fn summed_fault(scope: &Scope, name: &RawName) -> Option<Fault>
    requires { IsTable scope.now }
    ensures { result ≡ first (spec.summed_fault name.now scope.now.declared) }
{
    let meaning = meaning(scope, name);
    earlier(sum_fault(name, meaning), write_fault(name, meaning))
}

fn sum_place_faults(scope: &Scope, place: &RawSpot) -> Option<Fault>
    requires { IsTable scope.now }
    ensures { result ≡ first (spec.sum_place_faults place.now scope.now.declared) }
{
    match place {
        RawSpot::Name(name) => summed_fault(scope, name),
        RawSpot::Element(_, _) => earlier(faults_of_spot(scope, place), written(scope, place)),
    }
}

fn ps_faults(scope: &Scope, name: &RawName, register: &RawName) -> Option<Fault>
    requires { IsTable scope.now }
    ensures { result ≡ first (fault.both (spec.summed_fault name.now scope.now.declared) (part.register_fault register.now (part.meaning scope.now.declared register.now))) }
{
    earlier(
        summed_fault(scope, name),
        register_fault(register, meaning(scope, register)),
    )
}

fn psm_faults(scope: &Scope, at: Place, name: &RawName, place: &RawSpot) -> Option<Fault>
    requires { IsTable scope.now }
    ensures { result ≡ first (spec.psm_faults at name.now place.now scope.now.declared) }
{
    let number = waiting_of_read(place).saturating_add(1).max(3);
    let names = earlier(summed_fault(scope, name), sum_place_faults(scope, place));
    earlier(names, waits(number, at))
}

fn format_fault(at: Place, text: &RawText, count: usize) -> Option<Fault>
    ensures { result ≡ first (spec.format_fault at text.now count) }
{
    match printed_values(text.bytes.as_slice()) {
        None => breach(NameKind::BadFormat, text.at),
        Some(printed) => when(printed != count, NameKind::WrongCount, at),
    }
}

// The 17th value.
fn past_values(values: &[RawExpr]) -> Option<Fault>
    ensures { result ≡ first (over 16 which.PrintValues (map spec.place_of values.now)) }
{
    match values.get(16) {
        None => None,
        Some(e) => breach(NameKind::TooMany(Which::PrintValues), e.at),
    }
}

fn print_faults(scope: &Scope, at: Place, text: &RawText, values: &[RawExpr]) -> Option<Fault>
    requires { IsTable scope.now }
    ensures { result ≡ first (spec.print_faults at text.now values.now scope.now.declared) }
{
    let format = format_fault(at, text, values.len());
    let inside = faults_of_values(scope, values);
    let limits = earlier(past_values(values), waits(waiting_of_values(values), at));
    earlier(format, earlier(inside, limits))
}

// A statement of the scope that began after `start` declarations, in a function whose calls have a
// value or have none.
#[tactic(auto, unfolding(name_scopes::specs::Opened::opened))]
#[cycle(statements)]
fn statement(
    alloc: Global,
    locals: &mut Locals,
    value: bool,
    start: usize,
    s: &RawStmt,
) -> Result<Option<Fault>, AllocError>
    requires { IsTable locals.old.scope }
    ensures table { OnOk result (IsTable locals.new.scope) }
    ensures env { OnOk result (env locals.new ≡ spec.after s.now.kind (env locals.old)) }
    ensures fault { IfOk result (λ found. found ≡ first (spec.statement_faults value start s.now.at s.now.kind (env locals.old))) }
{
    match &s.kind {
        #[tactic(auto)]
        RawStmtKind::Block(body) => block(alloc, locals, value, body.as_slice()),
        RawStmtKind::Decl(decl) => declaration(alloc, locals, start, decl.get()),
        RawStmtKind::Empty => Ok(None),
        RawStmtKind::Value(e) => Ok(whole(&locals.scope, false, e.get())),
        RawStmtKind::If(test, body, other) => {
            let test = whole(&locals.scope, true, test.get());
            let body = inner(alloc, locals, value, body.get())?;
            let other = other_branch(alloc, locals, value, other)?;
            Ok(earlier(test, earlier(body, other)))
        }
        RawStmtKind::While(test, body) => {
            while_loop(alloc, locals, value, body.get(), test.get())
        }
        RawStmtKind::Do(body, test) => do_loop(alloc, locals, value, body.get(), test.get()),
        RawStmtKind::For(begin, test, third, body) => {
            for_loop(alloc, locals, value, body.get(), begin.get(), test, third)
        }
        RawStmtKind::Break => Ok(None),
        RawStmtKind::Continue => Ok(None),
        RawStmtKind::Return(e) => Ok(return_faults(&locals.scope, value, s.at, e)),
        #[tactic(auto)]
        RawStmtKind::Spawn(low, high, body) => {
            let bounds = bounds_faults(&locals.scope, s.at, low.get(), high.get());
            spawn_block(alloc, locals, value, body.as_slice(), bounds)
        }
        RawStmtKind::Ps(name, register) => Ok(ps_faults(&locals.scope, name, register)),
        RawStmtKind::Psm(name, place) => { Ok(psm_faults(&locals.scope, s.at, name, place.get())) }
        RawStmtKind::Print(text, values) => {
            Ok(print_faults(&locals.scope, s.at, text, values.as_slice()))
        }
    }
}

// The branch behind `else`, where there is one.
#[tactic(auto, unfolding(name_scopes::specs::Opened::opened))]
#[cycle(statements)]
fn other_branch(
    alloc: Global,
    locals: &mut Locals,
    value: bool,
    other: &Option<Boxed<RawStmt>>,
) -> Result<Option<Fault>, AllocError>
    requires { IsTable locals.old.scope }
    ensures table { OnOk result (IsTable locals.new.scope) }
    ensures env { OnOk result (env locals.new ≡ form.after_other other.now (env locals.old)) }
    ensures fault { IfOk result (λ found. found ≡ first (form.other_faults value other.now (env locals.old))) }
{
    match other {
        None => Ok(None),
        Some(other) => inner(alloc, locals, value, other.get()),
    }
}

#[tactic(auto, unfolding(name_scopes::specs::Opened::opened))]
#[cycle(statements)]
fn while_loop(
    alloc: Global,
    locals: &mut Locals,
    value: bool,
    body: &RawStmt,
    test: &RawExpr,
) -> Result<Option<Fault>, AllocError>
    requires { IsTable locals.old.scope }
    ensures table { OnOk result (IsTable locals.new.scope) }
    ensures env { OnOk result (env locals.new ≡ form.behind body.now (env locals.old)) }
    ensures fault { IfOk result (λ found. found ≡ first (form.while_faults value test.now body.now (env locals.old))) }
{
    let test = whole(&locals.scope, true, test);
    let body = inner(alloc, locals, value, body)?;
    Ok(earlier(test, body))
}

#[tactic(auto, unfolding(name_scopes::specs::Opened::opened))]
#[cycle(statements)]
fn do_loop(
    alloc: Global,
    locals: &mut Locals,
    value: bool,
    body: &RawStmt,
    test: &RawExpr,
) -> Result<Option<Fault>, AllocError>
    requires { IsTable locals.old.scope }
    ensures table { OnOk result (IsTable locals.new.scope) }
    ensures env { OnOk result (env locals.new ≡ form.behind body.now (env locals.old)) }
    ensures fault { IfOk result (λ found. found ≡ first (form.do_faults value body.now test.now (env locals.old))) }
{
    let test = whole(&locals.scope, true, test);
    let body = inner(alloc, locals, value, body)?;
    Ok(earlier(body, test))
}

// The test and the third part of a loop.
fn steps_faults(
    scope: &Scope,
    test: &Option<Boxed<RawExpr>>,
    third: &Option<Boxed<RawExpr>>,
) -> Option<Fault>
    requires { IsTable scope.now }
    ensures { result ≡ first (form.steps_faults test.now third.now scope.now.declared) }
{
    earlier(
        whole_option(scope, true, test),
        whole_option(scope, false, third),
    )
}

#[tactic(auto, unfolding(name_scopes::specs::Opened::opened))]
#[cycle(statements)]
fn for_loop(
    alloc: Global,
    locals: &mut Locals,
    value: bool,
    body: &RawStmt,
    begin: &RawFirst,
    test: &Option<Boxed<RawExpr>>,
    third: &Option<Boxed<RawExpr>>,
) -> Result<Option<Fault>, AllocError>
    requires { IsTable locals.old.scope }
    ensures table { OnOk result (IsTable locals.new.scope) }
    ensures env { OnOk result (env locals.new ≡ form.after_for begin.now body.now (env locals.old)) }
    ensures fault { IfOk result (λ found. found ≡ first (form.for_faults value begin.now test.now third.now body.now (env locals.old))) }
{
    let count = locals.scope.declared.len();
    let begin = first_part(alloc, locals, count, begin)?;
    let steps = steps_faults(&locals.scope, test, third);
    let body = inner(alloc, locals, value, body)?;
    locals.leave(alloc, count)?;
    Ok(earlier(begin, earlier(steps, body)))
}

// The block of a spawn, behind what its bounds break.
#[tactic(auto)]
#[cycle(statements)]
fn spawn_block(
    alloc: Global,
    locals: &mut Locals,
    value: bool,
    body: &[RawStmt],
    bounds: Option<Fault>,
) -> Result<Option<Fault>, AllocError>
    requires { IsTable locals.old.scope }
    ensures table { OnOk result (IsTable locals.new.scope) }
    ensures env { OnOk result (env locals.new ≡ form.behind_all body.now (env locals.old)) }
    ensures fault { IfOk result (λ found. found ≡ fault.earlier bounds (first (form.block_faults value body.now (env locals.old)))) }
{
    let body = block(alloc, locals, value, body)?;
    Ok(earlier(bounds, body))
}

// A statement that is a scope of its own.
#[tactic(auto, unfolding(name_scopes::specs::Opened::opened))]
#[cycle(statements)]
fn inner(
    alloc: Global,
    locals: &mut Locals,
    value: bool,
    s: &RawStmt,
) -> Result<Option<Fault>, AllocError>
    requires { IsTable locals.old.scope }
    ensures table { OnOk result (IsTable locals.new.scope) }
    ensures env { OnOk result (env locals.new ≡ form.behind s.now (env locals.old)) }
    ensures fault { IfOk result (λ found. found ≡ first (form.inner_faults value s.now (env locals.old))) }
{
    let count = locals.scope.declared.len();
    let found = statement(alloc, locals, value, count, s)?;
    locals.leave(alloc, count)?;
    Ok(found)
}

// Statements that are a scope of their own.
#[tactic(auto)]
#[cycle(statements)]
fn block(
    alloc: Global,
    locals: &mut Locals,
    value: bool,
    body: &[RawStmt],
) -> Result<Option<Fault>, AllocError>
    requires { IsTable locals.old.scope }
    ensures table { OnOk result (IsTable locals.new.scope) }
    ensures env { OnOk result (env locals.new ≡ form.behind_all body.now (env locals.old)) }
    ensures fault { IfOk result (λ found. found ≡ first (form.block_faults value body.now (env locals.old))) }
{
    let count = locals.scope.declared.len();
    let found = statements(alloc, locals, value, count, body)?;
    locals.leave(alloc, count)?;
    Ok(found)
}

/// Statements one behind the other, of the scope that began after `start` declarations.
#[tactic(auto)]
#[cycle(statements)]
pub(crate) fn statements(
    alloc: Global,
    locals: &mut Locals,
    value: bool,
    start: usize,
    body: &[RawStmt],
) -> Result<Option<Fault>, AllocError>
    requires { IsTable locals.old.scope }
    ensures table { OnOk result (IsTable locals.new.scope) }
    ensures env { OnOk result (env locals.new ≡ spec.after_all body.now (env locals.old)) }
    ensures fault { IfOk result (λ found. found ≡ first (spec.statements_faults value start body.now (env locals.old))) }
{
    let mut found = None;
    for s in body {
        let one = statement(alloc, locals, value, start, s)?;
        found = earlier(found, one);
    }
    Ok(found)
}
