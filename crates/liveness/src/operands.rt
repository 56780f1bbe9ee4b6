//! Which registers a quad reads and writes.
ghost use Rattle.std.specs.Prelude.{◌≡◌, ◌≤◌, ◌^◌};
ghost use Rattle.xmt_quads.specs.Live.{is_register, reads, writes};
ghost use Rattle.liveness.specs.Operands.{index_of, first_of, second_of, above, above_all, AreReadBelow};

use xmt_quads::{Operand, Quad, Where};

// What is read where nothing is.
const NOTHING: Operand = Operand::Literal(0);

fn index_of(place: &Where) -> Operand
    ensures { result ≡ index_of place.now }
{
    match place {
        Where::Element(_, index) => *index,
        _ => NOTHING,
    }
}

// The operand that a quad reads first, of two.
fn first_of(quad: &Quad) -> Operand
    ensures { result ≡ first_of quad.now }
{
    match quad {
        Quad::Binary(_, _, left, _) => *left,
        Quad::Store(place, _) => index_of(place),
        Quad::Add(_, place, _) => index_of(place),
        Quad::Spawn(low, _) => *low,
        _ => NOTHING,
    }
}

// The operand that a quad reads last.
fn second_of(quad: &Quad) -> Operand
    ensures { result ≡ second_of quad.now }
{
    match quad {
        Quad::Copy(_, o) => *o,
        Quad::Unary(_, _, o) => *o,
        Quad::Binary(_, _, _, right) => *right,
        Quad::Test(o, _) => *o,
        Quad::Load(_, place) => index_of(place),
        Quad::Store(_, o) => *o,
        Quad::Add(_, _, o) => *o,
        Quad::IfZero(o, _) => *o,
        Quad::IfNot(o, _) => *o,
        Quad::Argument(_, o) => *o,
        Quad::Return(o) => *o,
        Quad::Spawn(_, high) => *high,
        _ => NOTHING,
    }
}

fn is_register(register: u32, operand: &Operand) -> bool
    ensures { result ≡ is_register register operand.now }
{
    match operand {
        Operand::Reg(other) => register == *other,
        Operand::Literal(_) => false,
    }
}

/// Whether a quad reads a register.
pub(crate) fn reads(register: u32, quad: &Quad) -> bool
    ensures { result ≡ reads register quad.now }
{
    is_register(register, &first_of(quad)) || is_register(register, &second_of(quad))
}

/// Whether a quad writes a register.
pub(crate) fn writes(register: u32, quad: &Quad) -> bool
    ensures { result ≡ writes register quad.now }
{
    match quad {
        Quad::Copy(to, _) => register == *to,
        Quad::Unary(_, to, _) => register == *to,
        Quad::Binary(_, to, _, _) => register == *to,
        Quad::Dollar(to) => register == *to,
        Quad::Load(to, _) => register == *to,
        Quad::Add(to, _, _) => register == *to,
        Quad::Parameter(to, _) => register == *to,
        Quad::Result(to) => register == *to,
        _ => false,
    }
}

// The number behind that of a register.
fn above(operand: &Operand) -> u64
    ensures above { result ≡ above operand.now }
    ensures fits { result ≤ 2 ^ 32 }
{
    match operand {
        Operand::Reg(register) => u64::from(*register) + 1,
        Operand::Literal(_) => 0,
    }
}

// A number above each register that a quad reads.
fn above_all(quad: &Quad) -> u64
    ensures above { result ≡ above_all quad.now }
    ensures fits { result ≤ 2 ^ 32 }
{
    above(&first_of(quad)).max(above(&second_of(quad)))
}

/// A number above each register that one of the quads reads.
pub(crate) fn read_bound(quads: &[Quad]) -> u64
    ensures above { AreReadBelow quads.now result }
    ensures fits { result ≤ 2 ^ 32 }
{
    let mut bound = 0u64;
    for quad in quads {
        bound = bound.max(above_all(quad));
    }
    bound
}
