//! Single instructions. Registers 3 and 4 hold what is at hand.
ghost use Rattle.std.specs.Prelude.{◌≡◌};
ghost use Rattle.quad_images.specs.Instructions.{unary_code, binary_code, load_code, store_code, add_code, fetch, keep};
ghost use Rattle.quad_images.specs.Image.{all_own};
ghost use Rattle.emit.specs.Emitted.{slot_at, own_of};

use crate::blocks::{Own, is_own};
use xmt_isa::Instr;
use xmt_quads::{BinOp, Home, Operand, UnOp, Where};

/// An instruction of these fields.
pub(crate) fn instr(op: u8, a: u8, b: u8, c: u8, imm: u32) -> Instr
    ensures { result ≡ record { op = op; a = a; b = b; c = c; imm = imm } }
{
    Instr { op, a, b, c, imm }
}

/// An instruction that uses one register and a number.
pub(crate) fn read(op: u8, b: u8, imm: u32) -> Instr
    ensures { result ≡ record { op = op; a = 0; b = b; c = 0; imm = imm } }
{
    instr(op, 0, b, 0, imm)
}

/// A unary operator on register 3.
pub(crate) fn unary(op: UnOp) -> Instr
    ensures { result ≡ unary_code op }
{
    match op {
        UnOp::Plus => instr(2, 3, 3, 0, 0),
        UnOp::Neg => instr(17, 3, 3, 0, 0),
        UnOp::Flip => instr(18, 3, 3, 0, 0),
        UnOp::Not => instr(19, 3, 3, 0, 0),
    }
}

/// A binary operator on registers 3 and 4. The two that have no instruction are others with their
/// operands exchanged.
pub(crate) fn binary(op: BinOp) -> Instr
    ensures { result ≡ binary_code op }
{
    match op {
        BinOp::Add => instr(3, 3, 3, 4, 0),
        BinOp::Sub => instr(4, 3, 3, 4, 0),
        BinOp::Mul => instr(5, 3, 3, 4, 0),
        BinOp::Div => instr(6, 3, 3, 4, 0),
        BinOp::Rem => instr(7, 3, 3, 4, 0),
        BinOp::Shl => instr(8, 3, 3, 4, 0),
        BinOp::Shr => instr(9, 3, 3, 4, 0),
        BinOp::BitAnd => instr(10, 3, 3, 4, 0),
        BinOp::BitOr => instr(11, 3, 3, 4, 0),
        BinOp::BitXor => instr(12, 3, 3, 4, 0),
        BinOp::Lt => instr(13, 3, 3, 4, 0),
        BinOp::Le => instr(14, 3, 3, 4, 0),
        BinOp::Gt => instr(13, 3, 4, 3, 0),
        BinOp::Ge => instr(14, 3, 4, 3, 0),
        BinOp::Eq => instr(15, 3, 3, 4, 0),
        BinOp::Ne => instr(16, 3, 3, 4, 0),
    }
}

/// The load of a place; the index of an element is in register 4.
pub(crate) fn load(place: Where) -> Instr
    ensures { result ≡ load_code place }
{
    match place {
        Where::Word(word) => instr(31, 3, 0, 0, word),
        Where::Element(base, _) => instr(34, 3, 4, 0, base),
        Where::Outer(number) => instr(37, 3, 0, 0, number),
        Where::PsReg(register) => instr(40, 3, 0, 0, register),
    }
}

/// The store to a place.
pub(crate) fn store(place: Where) -> Instr
    ensures { result ≡ store_code place }
{
    match place {
        Where::Word(word) => instr(32, 0, 3, 0, word),
        Where::Element(base, _) => instr(35, 3, 4, 0, base),
        Where::Outer(number) => instr(38, 0, 3, 0, number),
        Where::PsReg(register) => instr(41, 0, 3, 0, register),
    }
}

/// The add to a place.
pub(crate) fn add(place: Where) -> Instr
    ensures { result ≡ add_code place }
{
    match place {
        Where::Word(word) => instr(33, 3, 0, 0, word),
        Where::Element(base, _) => instr(36, 3, 4, 0, base),
        Where::Outer(number) => instr(39, 3, 0, 0, number),
        Where::PsReg(register) => instr(42, 3, 0, 0, register),
    }
}

// The slot of a virtual register.
fn slot(homes: &[Home], register: u32) -> u32
    ensures { result ≡ slot_at homes.now register }
{
    match homes.get(register as usize) {
        Some(Home::Slot(slot)) => *slot,
        Some(Home::Reg(_)) => 0,
        None => 0,
    }
}

/// Sets a register to the value of an operand.
pub(crate) fn fetch(homes: &[Home], own: &Own, to: u8, operand: Operand) -> Instr
    ensures { result ≡ fetch (slot_at homes.now) (λ position. position) (own_of own.now) to operand }
{
    match operand {
        Operand::Reg(register) => {
            if is_own(own, register) {
                instr(25, to, 0, 0, slot(homes, register))
            } else {
                instr(29, to, 0, 0, slot(homes, register))
            }
        }
        Operand::Literal(number) => instr(1, to, 0, 0, number),
    }
}

/// Sets a virtual register to what a register holds.
pub(crate) fn keep(homes: &[Home], from: u8, register: u32) -> Instr
    ensures { result ≡ keep (slot_at homes.now) (λ position. position) all_own from register }
{
    read(26, from, slot(homes, register))
}
