//! The code of a quad.
ghost use Rattle.std.specs.Prelude.{◌≡◌, length, slice_index, OnOk};
ghost use Rattle.xmt_quads.specs.declared.code.Quad.TheVariants as quad;
ghost use Rattle.quad_images.specs.Instructions.{quad_code, size};
ghost use Rattle.emit.specs.Emitted.{Appends, slot_at, own_of, TargetExists, placed_at};

use crate::blocks::Own;
use crate::code::{Code, four, one, three, two};
use crate::instruction::{add, binary, fetch, instr, keep, load, read, store, unary};
use std::alloc::AllocError;
use xmt_quads::{Home, Operand, Quad, Where};

/// How many instructions a quad becomes.
pub(crate) fn size(q: &Quad) -> u32
    ensures { result ≡ size q.now }
{
    match q {
        Quad::Copy(_, _) => 2,
        Quad::Unary(_, _, _) => 3,
        Quad::Binary(_, _, _, _) => 4,
        Quad::Dollar(_) => 1,
        Quad::Test(_, _) => 2,
        Quad::Load(_, Where::Word(_)) => 2,
        Quad::Load(_, Where::Element(_, _)) => 3,
        Quad::Load(_, Where::Outer(_)) => 2,
        Quad::Load(_, Where::PsReg(_)) => 2,
        Quad::Store(Where::Word(_), _) => 2,
        Quad::Store(Where::Element(_, _), _) => 3,
        Quad::Store(Where::Outer(_), _) => 2,
        Quad::Store(Where::PsReg(_), _) => 2,
        Quad::Add(_, Where::Word(_), _) => 3,
        Quad::Add(_, Where::Element(_, _), _) => 4,
        Quad::Add(_, Where::Outer(_), _) => 3,
        Quad::Add(_, Where::PsReg(_), _) => 3,
        Quad::Jump(_) => 1,
        Quad::IfZero(_, _) => 2,
        Quad::IfNot(_, _) => 2,
        Quad::Argument(_, _) => 2,
        Quad::Parameter(_, _) => 2,
        Quad::Call(_) => 1,
        Quad::Result(_) => 1,
        Quad::Return(_) => 2,
        Quad::Print(_) => 1,
        Quad::Spawn(_, _) => 3,
        Quad::Join => 1,
    }
}

// The load of a place.
fn push_load(
    code: &mut Code,
    homes: &[Home],
    own: &Own,
    line: u32,
    r: u32,
    place: Where,
) -> Result<(), AllocError>
    ensures { OnOk result (Appends code.old code.new line (quad_code (slot_at homes.now) (λ position. position) (own_of own.now) (quad.Load r place))) }
{
    match place {
        Where::Element(_, index) => three(
            code,
            line,
            fetch(homes, own, 4, index),
            load(place),
            keep(homes, 3, r),
        ),
        Where::Word(_) => two(code, line, load(place), keep(homes, 3, r)),
        Where::Outer(_) => two(code, line, load(place), keep(homes, 3, r)),
        Where::PsReg(_) => two(code, line, load(place), keep(homes, 3, r)),
    }
}

// The store of an operand to a place.
fn push_store(
    code: &mut Code,
    homes: &[Home],
    own: &Own,
    line: u32,
    place: Where,
    o: Operand,
) -> Result<(), AllocError>
    ensures { OnOk result (Appends code.old code.new line (quad_code (slot_at homes.now) (λ position. position) (own_of own.now) (quad.Store place o))) }
{
    let value = fetch(homes, own, 3, o);
    match place {
        Where::Element(_, index) => three(
            code,
            line,
            value,
            fetch(homes, own, 4, index),
            store(place),
        ),
        Where::Word(_) => two(code, line, value, store(place)),
        Where::Outer(_) => two(code, line, value, store(place)),
        Where::PsReg(_) => two(code, line, value, store(place)),
    }
}

// The add of an operand to a place.
fn push_add(
    code: &mut Code,
    homes: &[Home],
    own: &Own,
    line: u32,
    r: u32,
    place: Where,
    o: Operand,
) -> Result<(), AllocError>
    ensures { OnOk result (Appends code.old code.new line (quad_code (slot_at homes.now) (λ position. position) (own_of own.now) (quad.Add r place o))) }
{
    let value = fetch(homes, own, 3, o);
    match place {
        Where::Element(_, index) => four(
            code,
            line,
            value,
            fetch(homes, own, 4, index),
            add(place),
            keep(homes, 3, r),
        ),
        Where::Word(_) => three(code, line, value, add(place), keep(homes, 3, r)),
        Where::Outer(_) => three(code, line, value, add(place), keep(homes, 3, r)),
        Where::PsReg(_) => three(code, line, value, add(place), keep(homes, 3, r)),
    }
}

// A quad whose jump leads to a place of the image.
fn push_placed(
    code: &mut Code,
    homes: &[Home],
    own: &Own,
    line: u32,
    q: Quad,
) -> Result<(), AllocError>
    ensures { OnOk result (Appends code.old code.new line (quad_code (slot_at homes.now) (λ position. position) (own_of own.now) q)) }
{
    match q {
        Quad::Copy(r, o) => two(code, line, fetch(homes, own, 3, o), keep(homes, 3, r)),
        Quad::Unary(op, r, o) => three(
            code,
            line,
            fetch(homes, own, 3, o),
            unary(op),
            keep(homes, 3, r),
        ),
        Quad::Binary(op, r, a, b) => four(
            code,
            line,
            fetch(homes, own, 3, a),
            fetch(homes, own, 4, b),
            binary(op),
            keep(homes, 3, r),
        ),
        Quad::Dollar(r) => one(code, line, keep(homes, 1, r)),
        Quad::Test(o, length) => two(code, line, fetch(homes, own, 3, o), read(30, 3, length)),
        Quad::Load(r, place) => push_load(code, homes, own, line, r, place),
        Quad::Store(place, o) => push_store(code, homes, own, line, place, o),
        Quad::Add(r, place, o) => push_add(code, homes, own, line, r, place, o),
        Quad::Jump(to) => one(code, line, read(20, 0, to)),
        Quad::IfZero(o, to) => two(code, line, fetch(homes, own, 3, o), read(21, 3, to)),
        Quad::IfNot(o, to) => two(code, line, fetch(homes, own, 3, o), read(22, 3, to)),
        Quad::Argument(k, o) => two(code, line, fetch(homes, own, 3, o), read(27, 3, k)),
        Quad::Parameter(r, k) => two(code, line, instr(28, 3, 0, 0, k), keep(homes, 3, r)),
        Quad::Call(function) => one(code, line, read(23, 0, function)),
        Quad::Result(r) => one(code, line, keep(homes, 2, r)),
        Quad::Return(o) => two(code, line, fetch(homes, own, 2, o), read(24, 0, 0)),
        Quad::Print(text) => one(code, line, read(43, 0, text)),
        Quad::Spawn(low, high) => three(
            code,
            line,
            fetch(homes, own, 3, low),
            fetch(homes, own, 4, high),
            instr(44, 3, 4, 0, 0),
        ),
        Quad::Join => one(code, line, read(45, 0, 0)),
    }
}

// The quad with the place that it jumps to.
fn placed(q: Quad, places: &[u32]) -> Quad
    requires { TargetExists (length places.now) q }
    ensures { result ≡ placed_at (slice_index places.now) q }
{
    match q {
        Quad::Jump(to) => Quad::Jump(places[to as usize]),
        Quad::IfZero(o, to) => Quad::IfZero(o, places[to as usize]),
        Quad::IfNot(o, to) => Quad::IfNot(o, places[to as usize]),
        _ => q,
    }
}

/// The code of a quad, of a function whose quads begin at these places.
pub(crate) fn push_quad(
    code: &mut Code,
    homes: &[Home],
    own: &Own,
    places: &[u32],
    line: u32,
    q: Quad,
) -> Result<(), AllocError>
    requires { TargetExists (length places.now) q }
    ensures { OnOk result (Appends code.old code.new line (quad_code (slot_at homes.now) (slice_index places.now) (own_of own.now) q)) }
{
    push_placed(code, homes, own, line, placed(q, places))
}
