//! The first breach in an expression.
ghost use Rattle.std.specs.Prelude.{◌≡◌, nat_lt, true};
ghost use Rattle.name_scopes.specs.declared.fault.NameKind.TheVariants as kinds;
ghost use Rattle.name_scopes.specs.declared.fault.Which.TheVariants as which;
ghost use Rattle.name_scopes.specs.Fault.{first, when as spec_when};
ghost use Rattle.name_scopes.specs.Table.{IsTable};
ghost use Rattle.name_scopes.specs.Waiting as wait;
ghost use Rattle.name_faults.specs.Expressions as spec;

use name_scopes::{
    Fault, Meaning, NameKind, Scope, Which, breach, constant, earlier, waiting, when,
};
use raw_tree::{RawExpr, RawExprKind, RawName, RawSpot};
use xmt_base::Place;

/// What a name stands for.
pub fn meaning(scope: &Scope, name: &RawName) -> Option<Meaning>
    requires { IsTable scope.now }
    ensures { result ≡ spec.meaning scope.now.declared name.now }
{
    match scope.look(name.bytes.as_slice()) {
        None => None,
        Some(binding) => Some(binding.meaning),
    }
}

// A name that is read or written as a variable.
fn variable_fault(name: &RawName, meaning: Option<Meaning>) -> Option<Fault>
    ensures { result ≡ first (spec.variable_fault name.now meaning) }
{
    match meaning {
        None => breach(NameKind::Unknown, name.at),
        Some(Meaning::Array { .. }) => breach(NameKind::NotScalar, name.at),
        Some(Meaning::Function { .. }) => breach(NameKind::NotScalar, name.at),
        Some(_) => None,
    }
}

// A name with an index.
fn array_fault(name: &RawName, meaning: Option<Meaning>) -> Option<Fault>
    ensures { result ≡ first (spec.array_fault name.now meaning) }
{
    match meaning {
        None => breach(NameKind::Unknown, name.at),
        Some(Meaning::Array { .. }) => None,
        Some(_) => breach(NameKind::NotArray, name.at),
    }
}

/// A name that a prefix-sum reads and writes.
pub(crate) fn sum_fault(name: &RawName, meaning: Option<Meaning>) -> Option<Fault>
    ensures { result ≡ first (spec.sum_fault name.now meaning) }
{
    match meaning {
        None => breach(NameKind::Unknown, name.at),
        Some(Meaning::Array { .. }) => breach(NameKind::NotScalar, name.at),
        Some(Meaning::Function { .. }) => breach(NameKind::NotScalar, name.at),
        Some(Meaning::Register { .. }) => breach(NameKind::NotScalar, name.at),
        Some(_) => None,
    }
}

/// The register of a prefix-sum.
pub(crate) fn register_fault(name: &RawName, meaning: Option<Meaning>) -> Option<Fault>
    ensures { result ≡ first (spec.register_fault name.now meaning) }
{
    match meaning {
        None => breach(NameKind::Unknown, name.at),
        Some(Meaning::Register { .. }) => None,
        Some(_) => breach(NameKind::NotRegister, name.at),
    }
}

/// A name that is written.
pub(crate) fn write_fault(name: &RawName, meaning: Option<Meaning>) -> Option<Fault>
    ensures { result ≡ first (spec.write_fault name.now meaning) }
{
    match meaning {
        Some(Meaning::Scalar { constant, .. }) => when(constant, NameKind::ConstWrite, name.at),
        Some(Meaning::Array { constant, .. }) => when(constant, NameKind::ConstWrite, name.at),
        Some(Meaning::Local { constant, .. }) => when(constant, NameKind::ConstWrite, name.at),
        _ => None,
    }
}

// A called name, with so many values.
fn call_fault(wanted: bool, count: usize, name: &RawName, meaning: Option<Meaning>) -> Option<Fault>
    ensures { result ≡ first (spec.call_fault wanted count name.now meaning) }
{
    match meaning {
        None => breach(NameKind::Unknown, name.at),
        Some(Meaning::Function { value, params, .. }) => {
            let counts = when(params != count, NameKind::WrongCount, name.at);
            if wanted {
                earlier(counts, when(!value, NameKind::VoidValue, name.at))
            } else {
                counts
            }
        }
        Some(_) => breach(NameKind::NotFunction, name.at),
    }
}

fn name_of_spot(spot: &RawSpot) -> &RawName
    ensures { result.now ≡ spec.name_of_spot spot.now }
{
    match spot {
        RawSpot::Name(name) => name,
        RawSpot::Element(name, _) => name,
    }
}

/// A place that is written.
pub(crate) fn written(scope: &Scope, spot: &RawSpot) -> Option<Fault>
    requires { IsTable scope.now }
    ensures { result ≡ first (spec.written scope.now.declared spot.now) }
{
    let name = name_of_spot(spot);
    write_fault(name, meaning(scope, name))
}

#[tactic(auto, unfolding(name_scopes::specs::Opened::opened))]
#[cycle(faults)]
pub(crate) fn faults(scope: &Scope, wanted: bool, e: &RawExpr) -> Option<Fault>
    requires { IsTable scope.now }
    ensures { result ≡ first (spec.faults scope.now.declared wanted e.now.kind) }
{
    match &e.kind {
        RawExprKind::Assign(spot, _, value) => {
            let place = earlier(faults_of_spot(scope, spot), written(scope, spot));
            earlier(place, faults(scope, true, value.get()))
        }
        RawExprKind::Choose(test, left, right) => {
            let test = faults(scope, true, test.get());
            let left = faults(scope, true, left.get());
            earlier(test, earlier(left, faults(scope, true, right.get())))
        }
        RawExprKind::Binary(_, left, right) => {
            let left = faults(scope, true, left.get());
            earlier(left, faults(scope, true, right.get()))
        }
        RawExprKind::Prefix(_, inner) => faults(scope, true, inner.get()),
        RawExprKind::StepBefore(_, spot) => {
            earlier(faults_of_spot(scope, spot), written(scope, spot))
        }
        RawExprKind::StepAfter(spot, _) => {
            earlier(faults_of_spot(scope, spot), written(scope, spot))
        }
        RawExprKind::Read(spot) => faults_of_spot(scope, spot),
        #[tactic(auto)]
        RawExprKind::Call(name, values) => {
            let inside = faults_of_values(scope, values.as_slice());
            let call = call_fault(wanted, values.len(), name, meaning(scope, name));
            earlier(call, inside)
        }
        RawExprKind::Number(_) => None,
        RawExprKind::Dollar => None,
        RawExprKind::Brackets(inner) => faults(scope, wanted, inner.get()),
    }
}

/// The first breach in a place that is read.
#[tactic(auto, unfolding(name_scopes::specs::Opened::opened))]
#[cycle(faults)]
pub(crate) fn faults_of_spot(scope: &Scope, spot: &RawSpot) -> Option<Fault>
    requires { IsTable scope.now }
    ensures { result ≡ first (spec.faults_of_spot scope.now.declared spot.now) }
{
    match spot {
        RawSpot::Name(name) => variable_fault(name, meaning(scope, name)),
        RawSpot::Element(name, index) => {
            let array = array_fault(name, meaning(scope, name));
            earlier(array, faults(scope, true, index.get()))
        }
    }
}

/// The first breach in values that are all used.
#[tactic(auto, unfolding(name_scopes::specs::Opened::opened))]
#[cycle(faults)]
pub(crate) fn faults_of_values(scope: &Scope, values: &[RawExpr]) -> Option<Fault>
    requires { IsTable scope.now }
    ensures { result ≡ first (spec.faults_of_values scope.now.declared values.now) }
{
    let mut found = None;
    for e in values {
        found = earlier(found, faults(scope, true, e));
    }
    found
}

fn waits(e: &RawExpr) -> Option<Fault>
    ensures { result ≡ first (spec_when (nat_lt 256 (wait.waiting e.now.kind)) (kinds.TooMany which.Waiting) e.now.at) }
{
    when(waiting(e) > 256, NameKind::TooMany(Which::Waiting), e.at)
}

/// The first breach in a whole expression.
pub(crate) fn whole(scope: &Scope, wanted: bool, e: &RawExpr) -> Option<Fault>
    requires { IsTable scope.now }
    ensures { result ≡ first (spec.whole scope.now.declared wanted e.now) }
{
    earlier(faults(scope, wanted, e), waits(e))
}

/// The first breach in an expression that has to be constant.
pub(crate) fn constant_faults(scope: &Scope, e: &RawExpr) -> Option<Fault>
    requires { IsTable scope.now }
    ensures { result ≡ first (spec.constant_faults scope.now.declared e.now) }
{
    let value = constant(e);
    earlier(
        faults(scope, true, e),
        when(value.is_none(), NameKind::NotConstant, e.at),
    )
}

/// The first breach in expressions that have to be constant.
pub(crate) fn constants_faults(scope: &Scope, values: &[RawExpr]) -> Option<Fault>
    requires { IsTable scope.now }
    ensures { result ≡ first (spec.constants_faults scope.now.declared values.now) }
{
    let mut found = None;
    for e in values {
        found = earlier(found, constant_faults(scope, e));
    }
    found
}
