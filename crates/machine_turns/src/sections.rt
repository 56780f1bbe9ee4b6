//! The beginnings and the ends of sections.
ghost use Rattle.std.specs.Prelude.{◌≡◌, ℕ, ◌∷◌, List, All, OnOk, vec_len};
ghost use Rattle.std.specs.List.{list_all};
ghost use Rattle.xmt_base.specs.Operators.{count_between};
ghost use Rattle.xmt_isa.specs.declared.image.Image.{Image};
ghost use Rattle.xmt_isa.specs.Machine.{is_stopped, masked, broadcast, ready};
ghost use Rattle.xmt_isa.specs.Fits.{StartFits};
ghost use Rattle.machine_turns.specs.declared.seats.Seat.{Seat};
ghost use Rattle.machine_turns.specs.Seats.{has_stopped, Holds};
ghost use Rattle.machine_turns.specs.Kept.{IsIdle, AreReadied, BehindMaster};

use crate::cells::{behind, front};
use crate::seats::{Seat, find_next};
use image_loader::Loaded;
use sqlite_items::Items;
use std::alloc::AllocError;
use xmt_isa::{SpawnAsk, Start, Unit, UnitState};

// A control unit that drew a number past the count.
fn is_stopped(state: UnitState) -> bool
    ensures { result ≡ is_stopped state }
{
    match state {
        UnitState::Stopped => true,
        UnitState::Draws | UnitState::Runs | UnitState::Halted => false,
    }
}

// Each of these units has stopped.
fn all_stopped(seats: &[Seat]) -> bool
    ensures { result ≡ list_all has_stopped seats.now }
{
    seats.iter().all(|seat| is_stopped(seat.unit.state))
}

/// All control units have stopped.
pub(crate) fn have_stopped(seats: &Vec<Seat>) -> bool
    ensures { (master : Seat) (others : List Seat) → seats.now.items ≡ master ∷ others → result ≡ list_all has_stopped others }
{
    match seats.split_first() {
        None => true,
        Some((_, others)) => all_stopped(others),
    }
}

// Clears the registers whose bit isn't set.
fn mask_out(mask: u32, regs: &mut [u32])
    ensures { regs.new ≡ masked mask regs.old }
{
    if let Some((first, others)) = regs.split_first_mut() {
        if mask % 2 != 1 {
            *first = 0;
        }
        mask_out(mask / 2, others);
    }
}

// How many numbers there are from low to high, both included and both read as signed.
fn count_between(low: u32, high: u32) -> u64
    ensures { result ≡ count_between low high }
{
    if high.cast_signed() < low.cast_signed() {
        0
    } else {
        high.wrapping_sub(low) as u64 + 1
    }
}

// Puts these values in place of those of a list, in the room that it has.
fn overwrite(frame: &mut Items<u32>, values: &[u32]) -> Result<(), AllocError>
    ensures { OnOk result (frame.new ≡ values.now) }
{
    while let Some(_) = frame.pop() {}
    for value in values {
        frame.push(*value)?;
    }
    Ok(())
}

/// What the master broadcasts.
pub fn broadcast(start: &mut Start, unit: &Unit, ask: SpawnAsk) -> Result<(), AllocError>
    ensures { OnOk result (start.new ≡ broadcast unit.now ask) }
{
    let mut regs = [0; 32];
    regs.copy_from_slice(&unit.regs);
    mask_out(ask.mask, &mut regs);
    let frames = behind(unit.frames.as_slice(), 512 * unit.depth as usize);
    overwrite(&mut start.frame, front(frames, 512))?;
    start.at = ask.at;
    start.low = ask.low;
    start.count = count_between(ask.low, ask.high);
    start.depth = unit.depth;
    start.regs = regs;
    Ok(())
}

// Makes an idle unit due to draw.
fn make_due(seat: &mut Seat)
    ensures { (image : Image) (budget : ℕ) → IsIdle image budget seat.old → seat.new.unit ≡ ready seat.old.unit }
{
    match seat.unit.state {
        UnitState::Stopped => seat.unit.ready(),
        UnitState::Draws | UnitState::Runs | UnitState::Halted => {}
    }
}

// An idle unit draws next, or has spent the budget.
fn begin_one(image: &Loaded, start: &Start, budget: u64, seat: &mut Seat)
    requires fits { StartFits image.now start.now }
    requires idle { IsIdle image.now budget seat.old }
    ensures { Holds image.now start.now budget (ready seat.old.unit) seat.new.unit seat.new.ask }
{
    make_due(seat);
    find_next(image, start, budget, seat);
}

// Idle units draw next.
fn begin_all(image: &Loaded, start: &Start, budget: u64, seats: &mut [Seat])
    requires fits { StartFits image.now start.now }
    requires idle { All (IsIdle image.now budget) seats.old }
    ensures { AreReadied image.now start.now budget seats.old seats.new }
{
    if let Some((first, others)) = seats.split_first_mut() {
        begin_one(image, start, budget, first);
        begin_all(image, start, budget, others);
    }
}

// The units behind the master draw next.
fn begin_others(image: &Loaded, start: &Start, budget: u64, seats: &mut [Seat])
    requires fits { StartFits image.now start.now }
    requires idle { (master : Seat) (others : List Seat) → seats.old ≡ master ∷ others → All (IsIdle image.now budget) others }
    ensures { (master : Seat) (others : List Seat) → seats.old ≡ master ∷ others → BehindMaster image.now start.now budget master others seats.new }
{
    if let Some((_master, others)) = seats.split_first_mut() {
        begin_all(image, start, budget, others);
    }
}

/// The control units at the beginning of a section.
pub(crate) fn begin_section(image: &Loaded, start: &Start, budget: u64, seats: &mut Vec<Seat>)
    requires fits { StartFits image.now start.now }
    requires idle { (master : Seat) (others : List Seat) → seats.old.items ≡ master ∷ others → All (IsIdle image.now budget) others }
    ensures behind { (master : Seat) (others : List Seat) → seats.old.items ≡ master ∷ others → BehindMaster image.now start.now budget master others seats.new.items }
    ensures len { vec_len seats.new ≡ vec_len seats.old }
{
    begin_others(image, start, budget, seats);
}
