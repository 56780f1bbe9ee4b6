//! What an instruction does.
ghost use Rattle.std.specs.Prelude.{◌≡◌, Some};
ghost use Rattle.xmt_isa.specs.declared.operation.Operation.TheVariants.{Unary, Binary, Load, Store, Add};
ghost use Rattle.xmt_isa.specs.Operation.{operation_of, HasNumber};

use crate::Instr;
use xmt_base::{BinOp, UnOp};

/// The memory location of a shared access.
#[derive(Clone, Copy, Debug, PartialEq, Eq)]
pub enum Location {
    /// A data word.
    Word(u32),
    /// The data word whose place is the sum of a register and a number.
    Indexed(u8, u32),
    /// An outer word of the master's call depth.
    Outer(u32),
    /// A prefix-sum register.
    Register(u32),
}

/// An instruction by its meaning. Register numbers are u8; a first register is the one that is
/// written, tested or stored.
#[derive(Clone, Copy, Debug, PartialEq, Eq)]
pub enum Operation {
    /// Sets a register to a number.
    Set(u8, u32),
    /// Sets the first register to the operator's value of the second; `Plus` copies it.
    Unary(UnOp, u8, u8),
    /// Sets the first register to the operator's value of the other two. No instruction has `Gt`
    /// or `Ge`, which are `Lt` and `Le` with the operands exchanged.
    Binary(BinOp, u8, u8, u8),
    /// Goes to an instruction.
    Jump(u32),
    /// Goes there where the register is 0.
    IfZero(u8, u32),
    /// Goes there where the register isn't 0.
    IfNot(u8, u32),
    /// Enters the function of this number, in the next frame.
    Call(u32),
    /// Goes back to behind the call; at depth 0 the master halts.
    Return,
    /// Sets a register to a slot of the present frame.
    ReadSlot(u8, u32),
    /// Sets a slot of the present frame to a register.
    WriteSlot(u8, u32),
    /// Sets a place of the argument list to a register.
    WriteArgument(u8, u32),
    /// Sets a register to a place of the argument list.
    ReadArgument(u8, u32),
    /// Sets a register to a slot of the master's frame at the spawn.
    ReadMaster(u8, u32),
    /// Traps unless the register, as a signed number, is at least 0 and below this length.
    Check(u8, u32),
    /// Sets a register to what a location holds.
    Load(u8, Location),
    /// Sets a location to a register.
    Store(u8, Location),
    /// Adds a register to a location, and sets the register to what the location held.
    Add(u8, Location),
    /// Prints the text of this number with values from the argument list.
    Print(u32),
    /// Starts a virtual thread for each number from the first register to the second; the number
    /// is a mask of registers that the threads begin with. The block begins behind it.
    Spawn(u8, u8, u32),
    /// Ends a virtual thread.
    Join,
}

impl Instr {
    /// The meaning of the instruction, and none where its number has none.
    pub fn operation(self) -> Option<Operation>
        ensures { result ≡ operation_of self }
    {
        let Instr { op, a, b, c, imm } = self;
        match op {
            1 => Some(Operation::Set(a, imm)),
            2 => Some(Operation::Unary(UnOp::Plus, a, b)),
            3 => Some(Operation::Binary(BinOp::Add, a, b, c)),
            4 => Some(Operation::Binary(BinOp::Sub, a, b, c)),
            5 => Some(Operation::Binary(BinOp::Mul, a, b, c)),
            6 => Some(Operation::Binary(BinOp::Div, a, b, c)),
            7 => Some(Operation::Binary(BinOp::Rem, a, b, c)),
            8 => Some(Operation::Binary(BinOp::Shl, a, b, c)),
            9 => Some(Operation::Binary(BinOp::Shr, a, b, c)),
            10 => Some(Operation::Binary(BinOp::BitAnd, a, b, c)),
            11 => Some(Operation::Binary(BinOp::BitOr, a, b, c)),
            12 => Some(Operation::Binary(BinOp::BitXor, a, b, c)),
            13 => Some(Operation::Binary(BinOp::Lt, a, b, c)),
            14 => Some(Operation::Binary(BinOp::Le, a, b, c)),
            15 => Some(Operation::Binary(BinOp::Eq, a, b, c)),
            16 => Some(Operation::Binary(BinOp::Ne, a, b, c)),
            17 => Some(Operation::Unary(UnOp::Neg, a, b)),
            18 => Some(Operation::Unary(UnOp::Flip, a, b)),
            19 => Some(Operation::Unary(UnOp::Not, a, b)),
            20 => Some(Operation::Jump(imm)),
            21 => Some(Operation::IfZero(b, imm)),
            22 => Some(Operation::IfNot(b, imm)),
            23 => Some(Operation::Call(imm)),
            24 => Some(Operation::Return),
            25 => Some(Operation::ReadSlot(a, imm)),
            26 => Some(Operation::WriteSlot(b, imm)),
            27 => Some(Operation::WriteArgument(b, imm)),
            28 => Some(Operation::ReadArgument(a, imm)),
            29 => Some(Operation::ReadMaster(a, imm)),
            30 => Some(Operation::Check(b, imm)),
            31 => Some(Operation::Load(a, Location::Word(imm))),
            32 => Some(Operation::Store(b, Location::Word(imm))),
            33 => Some(Operation::Add(a, Location::Word(imm))),
            34 => Some(Operation::Load(a, Location::Indexed(b, imm))),
            35 => Some(Operation::Store(a, Location::Indexed(b, imm))),
            36 => Some(Operation::Add(a, Location::Indexed(b, imm))),
            37 => Some(Operation::Load(a, Location::Outer(imm))),
            38 => Some(Operation::Store(b, Location::Outer(imm))),
            39 => Some(Operation::Add(a, Location::Outer(imm))),
            40 => Some(Operation::Load(a, Location::Register(imm))),
            41 => Some(Operation::Store(b, Location::Register(imm))),
            42 => Some(Operation::Add(a, Location::Register(imm))),
            43 => Some(Operation::Print(imm)),
            44 => Some(Operation::Spawn(a, b, imm)),
            45 => Some(Operation::Join),
            0 => None,
            46..=255 => None,
        }
    }
}

impl Operation {
    ghost use Rattle.xmt_isa.specs.Operation.{IsEncodable};

    /// The instruction that does this.
    pub fn instruction(self) -> Instr
        requires { IsEncodable self }
        ensures { operation_of result ≡ Some self }
    {
        match self {
            Operation::Set(a, imm) => instr(1, a, 0, 0, imm),
            Operation::Unary(op, a, b) => unary(op, a, b),
            Operation::Binary(op, a, b, c) => binary(op, a, b, c),
            Operation::Jump(to) => instr(20, 0, 0, 0, to),
            Operation::IfZero(b, to) => instr(21, 0, b, 0, to),
            Operation::IfNot(b, to) => instr(22, 0, b, 0, to),
            Operation::Call(function) => instr(23, 0, 0, 0, function),
            Operation::Return => instr(24, 0, 0, 0, 0),
            Operation::ReadSlot(a, slot) => instr(25, a, 0, 0, slot),
            Operation::WriteSlot(b, slot) => instr(26, 0, b, 0, slot),
            Operation::WriteArgument(b, place) => instr(27, 0, b, 0, place),
            Operation::ReadArgument(a, place) => instr(28, a, 0, 0, place),
            Operation::ReadMaster(a, slot) => instr(29, a, 0, 0, slot),
            Operation::Check(b, length) => instr(30, 0, b, 0, length),
            Operation::Load(a, location) => load(a, location),
            Operation::Store(b, location) => store(b, location),
            Operation::Add(a, location) => add(a, location),
            Operation::Print(text) => instr(43, 0, 0, 0, text),
            Operation::Spawn(low, high, mask) => instr(44, low, high, 0, mask),
            Operation::Join => instr(45, 0, 0, 0, 0),
        }
    }
}

// An instruction of these fields.
fn instr(op: u8, a: u8, b: u8, c: u8, imm: u32) -> Instr
    ensures { result ≡ record { op = op; a = a; b = b; c = c; imm = imm } }
{
    Instr { op, a, b, c, imm }
}

fn unary(op: UnOp, a: u8, b: u8) -> Instr
    ensures { operation_of result ≡ Some (Unary op a b) }
{
    match op {
        UnOp::Plus => instr(2, a, b, 0, 0),
        UnOp::Neg => instr(17, a, b, 0, 0),
        UnOp::Flip => instr(18, a, b, 0, 0),
        UnOp::Not => instr(19, a, b, 0, 0),
    }
}

fn binary(op: BinOp, a: u8, b: u8, c: u8) -> Instr
    requires { HasNumber op }
    ensures { operation_of result ≡ Some (Binary op a b c) }
{
    match op {
        BinOp::Add => instr(3, a, b, c, 0),
        BinOp::Sub => instr(4, a, b, c, 0),
        BinOp::Mul => instr(5, a, b, c, 0),
        BinOp::Div => instr(6, a, b, c, 0),
        BinOp::Rem => instr(7, a, b, c, 0),
        BinOp::Shl => instr(8, a, b, c, 0),
        BinOp::Shr => instr(9, a, b, c, 0),
        BinOp::BitAnd => instr(10, a, b, c, 0),
        BinOp::BitOr => instr(11, a, b, c, 0),
        BinOp::BitXor => instr(12, a, b, c, 0),
        BinOp::Lt => instr(13, a, b, c, 0),
        BinOp::Le => instr(14, a, b, c, 0),
        BinOp::Eq => instr(15, a, b, c, 0),
        BinOp::Ne => instr(16, a, b, c, 0),
        BinOp::Gt | BinOp::Ge => unreachable!(),
    }
}

fn load(a: u8, location: Location) -> Instr
    ensures { operation_of result ≡ Some (Load a location) }
{
    match location {
        Location::Word(word) => instr(31, a, 0, 0, word),
        Location::Indexed(b, word) => instr(34, a, b, 0, word),
        Location::Outer(word) => instr(37, a, 0, 0, word),
        Location::Register(register) => instr(40, a, 0, 0, register),
    }
}

fn store(b: u8, location: Location) -> Instr
    ensures { operation_of result ≡ Some (Store b location) }
{
    match location {
        Location::Word(word) => instr(32, 0, b, 0, word),
        Location::Indexed(index, word) => instr(35, b, index, 0, word),
        Location::Outer(word) => instr(38, 0, b, 0, word),
        Location::Register(register) => instr(41, 0, b, 0, register),
    }
}

fn add(a: u8, location: Location) -> Instr
    ensures { operation_of result ≡ Some (Add a location) }
{
    match location {
        Location::Word(word) => instr(33, a, 0, 0, word),
        Location::Indexed(b, word) => instr(36, a, b, 0, word),
        Location::Outer(word) => instr(39, a, 0, 0, word),
        Location::Register(register) => instr(42, a, 0, 0, register),
    }
}
