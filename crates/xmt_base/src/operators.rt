//! The operators of the language, on numbers of 32 bits in two's complement.
ghost use Rattle.std.specs.Prelude.{◌≡◌};
ghost use Rattle.xmt_base.specs.Operators.{unary_value, binary_value, quotient, remainder};

/// A unary operator.
#[derive(Clone, Copy, Debug, PartialEq, Eq)]
pub enum UnOp {
    /// `-`
    Neg,
    /// `+`
    Plus,
    /// `!`: 1 for 0, and 0 for each other number.
    Not,
    /// `~`: each bit flipped.
    Flip,
}

/// A binary operator.
#[derive(Clone, Copy, Debug, PartialEq, Eq)]
pub enum BinOp {
    Add,
    Sub,
    Mul,
    /// Cuts towards zero.
    Div,
    /// What `Div` leaves over.
    Rem,
    /// Takes the count modulo 32.
    Shl,
    /// Takes the count modulo 32, and keeps the sign.
    Shr,
    BitAnd,
    BitOr,
    BitXor,
    Lt,
    Le,
    Gt,
    Ge,
    Eq,
    Ne,
}

/// The value of a unary operator.
pub fn unary(op: UnOp, a: u32) -> u32
    ensures { result ≡ unary_value op a }
{
    match op {
        UnOp::Neg => 0u32.wrapping_sub(a),
        UnOp::Plus => a,
        UnOp::Not => u32::from(a == 0),
        UnOp::Flip => !a,
    }
}

/// The value of a binary operator, and none exactly where it traps: `Div` and `Rem` by 0.
pub fn binary(op: BinOp, a: u32, b: u32) -> Option<u32>
    ensures { result ≡ binary_value op a b }
{
    let x = a.cast_signed();
    let y = b.cast_signed();
    match op {
        BinOp::Add => Some(a.wrapping_add(b)),
        BinOp::Sub => Some(a.wrapping_sub(b)),
        BinOp::Mul => Some(a.wrapping_mul(b)),
        BinOp::Div => checked_quotient(a, b),
        BinOp::Rem => checked_remainder(a, b),
        BinOp::Shl => Some(a.wrapping_shl(b)),
        BinOp::Shr => Some((x >> (b % 32)).cast_unsigned()),
        BinOp::BitAnd => Some(a & b),
        BinOp::BitOr => Some(a | b),
        BinOp::BitXor => Some(a ^ b),
        BinOp::Lt => Some(u32::from(x < y)),
        BinOp::Le => Some(u32::from(x <= y)),
        BinOp::Gt => Some(u32::from(x > y)),
        BinOp::Ge => Some(u32::from(x >= y)),
        BinOp::Eq => Some(u32::from(a == b)),
        BinOp::Ne => Some(u32::from(a != b)),
    }
}

// The quotient, cut towards zero.
fn checked_quotient(a: u32, b: u32) -> Option<u32>
    ensures { result ≡ quotient a b }
{
    if b == 0 {
        return None;
    }
    Some(
        a.cast_signed()
            .wrapping_div(b.cast_signed())
            .cast_unsigned(),
    )
}

// What that quotient leaves over.
fn checked_remainder(a: u32, b: u32) -> Option<u32>
    ensures { result ≡ remainder a b }
{
    if b == 0 {
        return None;
    }
    Some(
        a.cast_signed()
            .wrapping_rem(b.cast_signed())
            .cast_unsigned(),
    )
}
