//! The table of spawn blocks.

ghost use Rattle.std.specs.Prelude.{◌≤◌, ◌↔◌, length, IsOk, IfErr};
ghost use Rattle.spawn_check.specs.Table.{MeetsNone, IsFirst};

use crate::first::first_refusal;
use crate::marking::marks_of;
use crate::refusal::SpawnRefusal;
use crate::things::{Marks, Sought};
use source_meaning::Program;

/// Tests a program by the table of spawn blocks. It takes no memory.
///
/// # Errors
///
/// The first line of the table that the program meets: by place, and at one place by the table.
pub fn check(program: &Program) -> Result<(), SpawnRefusal>
    requires { length program.now.functions ≤ 1000 }
    ensures accepted { IsOk result ↔ MeetsNone program.now }
    ensures refused { IfErr result (IsFirst program.now) }
{
    let functions = program.functions.as_slice();
    let marks = Marks {
        prints: marks_of(functions, Sought::Print),
        spawns: marks_of(functions, Sought::Spawn),
    };
    match first_refusal(&marks, functions) {
        None => Ok(()),
        Some(refusal) => Err(refusal),
    }
}
