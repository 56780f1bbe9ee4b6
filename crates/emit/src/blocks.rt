//! Which virtual registers live in the thread's own frame.
ghost use Rattle.std.specs.Prelude.{◌≡◌, ◌||◌, ℕ, false, length, get_or, All, OnOk, IfOk};
ghost use Rattle.xmt_quads.specs.WellFormed.{AreBelow};
ghost use Rattle.quad_images.specs.Image.{written_in, own_behind};
ghost use Rattle.emit.specs.Emitted.{own_of, register_of, ends_block, begins_block};

use std::alloc::{AllocError, Global};
use xmt_quads::Quad;

/// In a block the registers that the block writes, and outside all.
#[derive(Drop)]
pub(crate) struct Own {
    pub inside: bool,
    pub written: Vec<bool>,
}

/// Outside all blocks.
pub(crate) fn outside(alloc: Global) -> Own
    ensures { result.inside ≡ false }
{
    Own {
        inside: false,
        written: Vec::new(alloc),
    }
}

/// The register lives in the thread's own frame.
pub(crate) fn is_own(own: &Own, register: u32) -> bool
    ensures { result ≡ own_of own.now register }
{
    if own.inside {
        match own.written.get(register as usize) {
            Some(written) => *written,
            None => false,
        }
    } else {
        true
    }
}

// The register that a quad writes.
fn written_by(q: &Quad) -> Option<u32>
    ensures { result ≡ register_of q.now }
{
    match q {
        Quad::Copy(r, _) => Some(*r),
        Quad::Unary(_, r, _) => Some(*r),
        Quad::Binary(_, r, _, _) => Some(*r),
        Quad::Dollar(r) => Some(*r),
        Quad::Load(r, _) => Some(*r),
        Quad::Add(r, _, _) => Some(*r),
        Quad::Parameter(r, _) => Some(*r),
        Quad::Result(r) => Some(*r),
        _ => None,
    }
}

fn ends_block(q: &Quad) -> bool
    ensures { result ≡ ends_block q.now }
{
    match q {
        Quad::Join => true,
        _ => false,
    }
}

fn begins_block(q: &Quad) -> bool
    ensures { result ≡ begins_block q.now }
{
    match q {
        Quad::Spawn(_, _) => true,
        _ => false,
    }
}

// Marks what is written before the next join.
fn mark(written: &mut [bool], quads: &[Quad])
    requires { All (AreBelow (length written.old)) quads.now }
    ensures { (r : ℕ) → get_or written.new r false ≡ (get_or written.old r false || written_in quads.now r) }
{
    for q in quads {
        if ends_block(q) {
            return;
        }
        if let Some(r) = written_by(q) {
            written[r as usize] = true;
        }
    }
}

// What a block with so many registers writes.
fn written_by_block(alloc: Global, registers: u32, quads: &[Quad]) -> Result<Vec<bool>, AllocError>
    requires { All (AreBelow registers) quads.now }
    ensures { IfOk result (λ written. (r : ℕ) → get_or written.items r false ≡ written_in quads.now r) }
{
    let mut written = vec![in alloc; false; registers as usize]?;
    mark(written.as_mut_slice(), quads);
    Ok(written)
}

/// Goes on behind a quad.
pub(crate) fn go_on(
    alloc: Global,
    own: &mut Own,
    q: Quad,
    behind: &[Quad],
    registers: u32,
) -> Result<(), AllocError>
    requires { All (AreBelow registers) behind.now }
    ensures { OnOk result ((r : ℕ) → own_of own.new r ≡ own_behind (own_of own.old) q behind.now r) }
{
    if begins_block(&q) {
        own.written = written_by_block(alloc, registers, behind)?;
        own.inside = true;
    } else if ends_block(&q) {
        own.inside = false;
    }
    Ok(())
}
