//! Refusals by the table of spawn blocks, and their order.

ghost use Rattle.std.specs.Prelude.{◌≡◌};
ghost use Rattle.spawn_check.specs.Table.{line_of, is_before};

use xmt_base::Place;

/// A line of the table of spawn blocks. The variants are in the order of the table.
#[derive(Clone, Copy, Debug, PartialEq, Eq)]
pub enum SpawnKind {
    /// `$` outside every spawn block.
    DollarOutside,
    /// `return` inside a block.
    ReturnInside,
    /// `break` or `continue` with no loop around it inside the same block or, outside blocks, in
    /// the same function.
    JumpOut,
    /// `spawn` inside a block.
    Nested,
    /// `printf` inside a block, or a call there of a function from which a `printf` is reached.
    PrintInside,
    /// A call inside a block of a function from which a `spawn` is reached.
    CallReachesSpawn,
}

/// A program meets a line of the table at a place: that of `$`, `return`, `break` or `continue`,
/// `spawn`, `printf`, or the called name.
#[derive(Clone, Copy, Debug, PartialEq, Eq)]
pub struct SpawnRefusal {
    pub kind: SpawnKind,
    pub place: Place,
}

fn line_number(kind: SpawnKind) -> u8
    ensures { result ≡ line_of kind }
{
    match kind {
        SpawnKind::DollarOutside => 0,
        SpawnKind::ReturnInside => 1,
        SpawnKind::JumpOut => 2,
        SpawnKind::Nested => 3,
        SpawnKind::PrintInside => 4,
        SpawnKind::CallReachesSpawn => 5,
    }
}

/// Whether `a` comes before `b`: by place, and at one place by the table.
pub(crate) fn comes_before(a: SpawnRefusal, b: SpawnRefusal) -> bool
    ensures { result ≡ is_before a b }
{
    let (here, there) = (a.place, b.place);
    let (number, other) = (line_number(a.kind), line_number(b.kind));
    here.line < there.line
        || (here.line == there.line
            && (here.column < there.column || (here.column == there.column && number < other)))
}
