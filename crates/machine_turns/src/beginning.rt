//! The machine at the beginning of a run.
ghost use Rattle.std.specs.Prelude.{◌≡◌, ◌+◌, ◌^◌, ◌≤◌, ◌<◌, ◌∷◌, [], map, vec_len, IfOk};
ghost use Rattle.xmt_isa.specs.Opening.{zeros_of, new_unit, new_master, no_start, control_units, opening_words, opening};
ghost use Rattle.machine_turns.specs.Kept.{Kept};
ghost use Rattle.machine_turns.specs.Seats.{Holds, seat_of};
ghost use Rattle.machine_turns.specs.View.{machine_of};

use crate::machine::Machine;
use crate::seats::{Seat, find_next};
use image_loader::Loaded;
use sqlite_items::Items;
use std::alloc::{AllocError, Global};
use tcu_engine::Ask;
use xmt_base::Memory;
use xmt_isa::{Image, Start, Unit};

// How many slots a frame has.
const FRAME: usize = 512;

// So many zeros.
fn zeros(alloc: Global, n: usize) -> Result<Vec<u32>, AllocError>
    ensures { IfOk result (λ zeros. zeros.items ≡ zeros_of n) }
{
    vec![in alloc; 0; n]
}

// The master, and what it does first.
fn new_master(alloc: Global, image: &Loaded, start: &Start, budget: u64) -> Result<Seat, AllocError>
    ensures { IfOk result (λ seat. Holds image.now start.now budget (new_master image.now) seat.unit seat.ask) }
{
    let unit = Unit::new(alloc, 0)?;
    let mut seat = Seat {
        unit,
        ask: Ask::Pause,
    };
    find_next(image, start, budget, &mut seat);
    Ok(seat)
}

// A control unit, which isn't asked what it does before a section begins.
fn new_control(alloc: Global, number: u32) -> Result<Seat, AllocError>
    ensures { IfOk result (λ seat. seat ≡ seat_of (new_unit number)) }
{
    let unit = Unit::new(alloc, number)?;
    Ok(Seat {
        unit,
        ask: Ask::Pause,
    })
}

// The master and n control units.
fn new_seats(alloc: Global, master: Seat, n: u32) -> Result<Vec<Seat>, AllocError>
    requires { n < 2 ^ 31 }
    ensures seats { IfOk result (λ seats. seats.items ≡ master ∷ map seat_of (control_units n)) }
    ensures len { IfOk result (λ seats. vec_len seats ≡ n + 1) }
{
    let mut seats = Vec::new(alloc);
    seats.push(master)?;
    for i in 0..n {
        seats.push(new_control(alloc, i + 1)?)?;
    }
    Ok(seats)
}

// The words at the beginning: four that stay 0, the registers, the data words, and the outer words of each depth.
fn opening_words(alloc: Global, image: &Image, memory: &Memory) -> Result<Vec<u32>, AllocError>
    requires { image.now.outer ≤ 200 }
    ensures { IfOk result (λ words. words.items ≡ opening_words image.now memory.now.words) }
{
    let mut words = Vec::from_slice(alloc, &[0; 4])?;
    words.extend_from_slice(&image.ps)?;
    words.extend_from_slice(memory.words.as_slice())?;
    words.extend_from_slice(zeros(alloc, 257 * image.outer as usize)?.as_slice())?;
    Ok(words)
}

// Nothing was broadcast yet, and there is room for a frame.
fn no_start(alloc: Global) -> Result<Start, AllocError>
    ensures { IfOk result (λ start. start ≡ no_start) }
{
    Ok(Start {
        at: 0,
        low: 0,
        count: 0,
        depth: 0,
        regs: [0; 32],
        frame: Items::from_vec(Vec::with_capacity(alloc, FRAME)?),
    })
}

/// The machine at the beginning, with n control units.
pub fn opening(
    alloc: Global,
    image: &Loaded,
    memory: &Memory,
    budget: u64,
    n: u32,
) -> Result<Machine, AllocError>
    requires some { 1 ≤ n }
    requires few { n < 2 ^ 31 }
    ensures machine { IfOk result (λ machine. machine_of machine [] ≡ opening image.now memory.now.words n) }
    ensures kept { IfOk result (Kept image.now budget) }
    ensures len { IfOk result (λ machine. vec_len machine.seats ≡ n + 1) }
{
    let words = opening_words(alloc, image.image(), memory)?;
    let start = no_start(alloc)?;
    let master = new_master(alloc, image, &start, budget)?;
    Ok(Machine {
        seats: new_seats(alloc, master, n)?,
        words,
        drawn: 0,
        start,
        spawned: false,
    })
}
