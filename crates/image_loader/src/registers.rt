//! The test of register fields.
ghost use Rattle.std.specs.Prelude.{◌≡◌, ◌↔◌, All, IfSome, IsTrue};
ghost use Rattle.xmt_isa.specs.Operation.{operation_of};
ghost use Rattle.xmt_isa.specs.Registers.{UsesNone, ReadsB, ReadsAB, WritesA, WritesAReadsB, WritesAReadsBC, RegistersFit, HasRegisters};

use xmt_isa::{Image, Instr, Location, Operation};

fn uses_none(i: Instr) -> bool
    ensures { IsTrue result ↔ UsesNone i }
{
    i.a == 0 && i.b == 0 && i.c == 0
}

fn reads_b(i: Instr) -> bool
    ensures { IsTrue result ↔ ReadsB i }
{
    i.a == 0 && i.b < 32 && i.c == 0
}

fn reads_ab(i: Instr) -> bool
    ensures { IsTrue result ↔ ReadsAB i }
{
    i.a < 32 && i.b < 32 && i.c == 0
}

fn writes_a(i: Instr) -> bool
    ensures { IsTrue result ↔ WritesA i }
{
    0 < i.a && i.a < 32 && i.b == 0 && i.c == 0
}

fn writes_a_reads_b(i: Instr) -> bool
    ensures { IsTrue result ↔ WritesAReadsB i }
{
    0 < i.a && i.a < 32 && i.b < 32 && i.c == 0
}

fn writes_a_reads_bc(i: Instr) -> bool
    ensures { IsTrue result ↔ WritesAReadsBC i }
{
    0 < i.a && i.a < 32 && i.b < 32 && i.c < 32
}

// The fields of an instruction that does this.
fn registers_fit(i: Instr, operation: Operation) -> bool
    ensures { IsTrue result ↔ RegistersFit i operation }
{
    match operation {
        Operation::Set(_, _) => writes_a(i),
        Operation::Unary(_, _, _) => writes_a_reads_b(i),
        Operation::Binary(_, _, _, _) => writes_a_reads_bc(i),
        Operation::Jump(_) => uses_none(i),
        Operation::IfZero(_, _) => reads_b(i),
        Operation::IfNot(_, _) => reads_b(i),
        Operation::Call(_) => uses_none(i),
        Operation::Return => uses_none(i),
        Operation::ReadSlot(_, _) => writes_a(i),
        Operation::WriteSlot(_, _) => reads_b(i),
        Operation::WriteArgument(_, _) => reads_b(i),
        Operation::ReadArgument(_, _) => writes_a(i),
        Operation::ReadMaster(_, _) => writes_a(i),
        Operation::Check(_, _) => reads_b(i),
        Operation::Load(_, Location::Indexed(_, _)) => writes_a_reads_b(i),
        Operation::Load(_, _) => writes_a(i),
        Operation::Store(_, Location::Indexed(_, _)) => reads_ab(i),
        Operation::Store(_, _) => reads_b(i),
        Operation::Add(_, Location::Indexed(_, _)) => writes_a_reads_b(i),
        Operation::Add(_, _) => writes_a(i),
        Operation::Print(_) => uses_none(i),
        Operation::Spawn(_, _, _) => reads_ab(i),
        Operation::Join => uses_none(i),
    }
}

fn instruction_fits(i: Instr) -> bool
    ensures { IsTrue result ↔ IfSome (operation_of i) (RegistersFit i) }
{
    match i.operation() {
        Some(operation) => registers_fit(i, operation),
        None => true,
    }
}

fn have_registers(code: &[Instr]) -> bool
    ensures { IsTrue result ↔ All (λ i. IfSome (operation_of i) (RegistersFit i)) code.now }
{
    for item in code {
        if !instruction_fits(*item) {
            return false;
        }
    }
    true
}

/// The register fields of each instruction are in their ranges.
pub fn has_registers(image: &Image) -> bool
    ensures { IsTrue result ↔ HasRegisters image.now }
{
    have_registers(image.code.as_slice())
}
