//! The positions where a register is live.
ghost use Rattle.std.specs.Prelude.{◌≡◌, ◌<◌, ◌+◌, length, vec_len, IfOk};
ghost use Rattle.std.specs.Bool.{OnTrue, OnFalse};
ghost use Rattle.liveness.specs.Marking.{is_marked, leads_on, passes, is_due_at, behind_from, AreSound, AreClosed, count_of_marked};
ghost use Rattle.liveness.specs.Live.{AreLivePositions};

use crate::operands::{reads, writes};
use std::alloc::{AllocError, Global};
use xmt_quads::Quad;

/// Whether a position is marked.
pub(crate) fn is_marked(marks: &[bool], at: usize) -> bool
    ensures { result ≡ is_marked marks.now at }
{
    match marks.get(at) {
        Some(mark) => *mark,
        None => false,
    }
}

// Whether a quad leads to a marked position, by the position of the next quad and the one behind
// the next join.
fn leads_on(marks: &[bool], next: usize, behind: usize, quad: &Quad) -> bool
    ensures { result ≡ leads_on marks.now next behind quad.now }
{
    match quad {
        Quad::Jump(to) => is_marked(marks, *to as usize),
        Quad::IfZero(_, to) => is_marked(marks, *to as usize) || is_marked(marks, next),
        Quad::IfNot(_, to) => is_marked(marks, *to as usize) || is_marked(marks, next),
        Quad::Return(_) => false,
        Quad::Spawn(_, _) => is_marked(marks, next) || is_marked(marks, behind),
        Quad::Join => false,
        _ => is_marked(marks, next),
    }
}

// Whether a register is live in front of a quad, by what is marked so far.
fn passes(register: u32, marks: &[bool], next: usize, behind: usize, quad: &Quad) -> bool
    ensures { result ≡ passes register marks.now next behind quad.now }
{
    reads(register, quad) || !writes(register, quad) && leads_on(marks, next, behind, quad)
}

// Whether a position that isn't marked has to be.
fn is_due(register: u32, marks: &[bool], at: usize, behind: usize, quad: &Quad) -> bool
    requires { at < length marks.now }
    ensures { result ≡ is_due_at register marks.now at behind quad.now }
{
    !marks[at] && passes(register, marks, at + 1, behind, quad)
}

// The position behind the next join, from the one that is it from the next quad on.
fn behind_from(quad: &Quad, next: usize, behind: usize) -> usize
    ensures { result ≡ behind_from quad.now next behind }
{
    match quad {
        Quad::Join => next,
        _ => behind,
    }
}

// Marks more positions where a register is live, and tells whether it marked one.
fn mark_more(quads: &[Quad], register: u32, marks: &mut [bool]) -> bool
    requires room { length marks.old ≡ length quads.now }
    requires sound { AreSound quads.now register marks.old }
    ensures sound { AreSound quads.now register marks.new }
    ensures more { OnTrue result (count_of_marked marks.old < count_of_marked marks.new) }
    ensures closed { OnFalse result (AreClosed quads.now register marks.new) }
{
    let mut more = false;
    let mut behind = quads.len() + 1;
    let mut at = quads.len();
    while at > 0 {
        at -= 1;
        let quad = quads[at];
        behind = behind_from(&quad, at + 1, behind);
        if is_due(register, marks, at, behind, &quad) {
            marks[at] = true;
            more = true;
        }
    }
    more
}

// Marks all positions where a register is live.
fn mark_all(quads: &[Quad], register: u32, marks: &mut [bool])
    requires room { length marks.old ≡ length quads.now }
    requires sound { AreSound quads.now register marks.old }
    ensures { AreLivePositions quads.now register marks.new }
{
    while mark_more(quads, register, marks) {}
}

/// Marks the positions from which some path reads a register before it writes it. Want of memory is
/// the only error.
pub fn live_positions(alloc: Global, quads: &[Quad], register: u32) -> Result<Vec<bool>, AllocError>
    ensures one_for_each { IfOk result (λ marks. vec_len marks ≡ length quads.now) }
    ensures live { IfOk result (λ marks. AreLivePositions quads.now register marks.items) }
{
    let mut marks = vec![in alloc; false; quads.len()]?;
    mark_all(quads, register, marks.as_mut_slice());
    Ok(marks)
}
