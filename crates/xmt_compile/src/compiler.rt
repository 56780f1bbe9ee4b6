//! The compiler.
ghost use Rattle.std.specs.Prelude.{◌*◌, ◌≤◌, length, IfOk};
ghost use Rattle.tree_measures.specs.Nodes.{program_nodes};
ghost use Rattle.lowered_quads.specs.Law.{CanBeLowered};
ghost use Rattle.xmt_compile.specs.Implements.{Implements};
ghost use Rattle.xmt_compile.specs.Compiles.{Compiles};

use broadcast::masks;
use emit::emit;
use front_end::{SourceRefusal, front};
use lowering::lower;
use source_meaning::Program;
use std::alloc::{AllocError, Global};
use xmt_isa::Image;
use xmt_quads::plain;

/// The image of a source, which implements the source's program, with at most 64 instructions for
/// each node of it. A source that breaks a rule is refused, and has no program.
#[tactic(auto, using(crate::proofs::Compiled::compiled, crate::proofs::Compiled::refused))]
pub fn compile(alloc: Global, source: &[u8]) -> Result<Image, SourceRefusal>
    ensures { Compiles source.now result }
{
    match front(alloc, source) {
        Err(refusal) => Err(refusal),
        Ok(program) => Ok(image_of(alloc, &program)?),
    }
}

// The image of a program, whose quads have each register in a slot of its own, so that no register
// is broadcast.
fn image_of(alloc: Global, program: &Program) -> Result<Image, AllocError>
    requires { CanBeLowered program.now }
    ensures implements { IfOk result (Implements program.now) }
    ensures few { IfOk result (λ image. length image.code ≤ 64 * program_nodes program.now) }
{
    let quads = lower(alloc, program)?;
    let allocation = plain(alloc, &quads)?;
    let masks = masks(alloc, &quads, &allocation)?;
    let image = emit(alloc, &quads, &allocation, masks.as_slice())?;
    Ok(image)
}
