//! Units, each kept together with what it does next.
ghost use Rattle.std.specs.Prelude.{◌≡◌, ◌<◌, ◌≤◌, true, false, slice_get, vec_len, IfSome, IfOk};
ghost use Rattle.xmt_isa.specs.Step.{local_of};
ghost use Rattle.xmt_isa.specs.Fits.{UnitFits};
ghost use Rattle.xmt_base.specs.Text.{piece};
ghost use Rattle.xmt_isa.specs.Machine.{text_of};
ghost use Rattle.xmt_isa.specs.Valid.{IsValid};
ghost use Rattle.unit_steps.specs.Steps.{begun, answered};
ghost use Rattle.unit_steps.specs.Keeps.{HasStart};
ghost use Rattle.tcu_engine.specs.Asks.{is_request};
ghost use Rattle.machine_turns.specs.Seats.{Holds, Replaced, HasRunOn, RanOn};
ghost use Rattle.machine_turns.specs.Kept.{MayGo};

use image_loader::Loaded;
use std::alloc::{AllocError, Global};
use tcu_engine::{Ask, advance, answer, piece};
use xmt_isa::{Start, Unit};

/// A unit, and what it does next; of a control unit outside a section that isn't looked at.
#[derive(Drop)]
pub struct Seat {
    pub unit: Unit,
    /// What it does next.
    pub ask: Ask,
}

/// Finds what a unit that doesn't wait does next; a master that is due to begin begins.
pub(crate) fn find_next(image: &Loaded, start: &Start, budget: u64, seat: &mut Seat)
    requires fits { UnitFits image.now start.now seat.old.unit }
    requires start { HasStart image.now start.now seat.old.unit }
    requires free { seat.old.unit.waits ≡ false }
    requires within { seat.old.unit.counts.steps ≤ budget }
    ensures { Holds image.now start.now budget (begun image.now seat.old.unit) seat.new.unit seat.new.ask }
{
    seat.ask = advance(image, start, &mut seat.unit, budget, 0);
}

// Runs the next instruction of a unit, which touches it alone.
fn run_one(image: &Loaded, start: &Start, budget: u64, seat: &mut Seat)
    requires may { MayGo image.now start.now budget seat.old }
    requires pauses { seat.old.ask ≡ Ask.Pause }
    ensures { Holds image.now start.now budget (local_of image.now start.now seat.old.unit) seat.new.unit seat.new.ask }
{
    seat.ask = advance(image, start, &mut seat.unit, budget, 1);
}

// Runs instructions of a unit that touch it alone, one at least.
fn run_more(image: &Loaded, start: &Start, budget: u64, seat: &mut Seat, most: u32)
    requires may { MayGo image.now start.now budget seat.old }
    requires pauses { seat.old.ask ≡ Ask.Pause }
    requires some { 1 ≤ most }
    ensures { HasRunOn image.now start.now budget seat.old.unit seat.new.unit seat.new.ask }
{
    seat.ask = advance(image, start, &mut seat.unit, budget, most);
}

// The reply to a unit that waits.
fn reply(image: &Loaded, start: &Start, budget: u64, seat: &mut Seat, value: u64)
    requires may { MayGo image.now start.now budget seat.old }
    requires asks { is_request seat.old.ask ≡ true }
    ensures { Holds image.now start.now budget (answered image.now start.now seat.old.unit value) seat.new.unit seat.new.ask }
{
    answer(image, start, &mut seat.unit, value);
    find_next(image, start, budget, seat);
}

/// Runs the next instruction of the unit in this place.
pub(crate) fn run_in(image: &Loaded, start: &Start, budget: u64, seats: &mut Vec<Seat>, k: usize)
    requires inside { k < vec_len seats.old }
    requires may { IfSome (slice_get seats.old.items k) (MayGo image.now start.now budget) }
    requires pauses { IfSome (slice_get seats.old.items k) (λ s. s.ask ≡ Ask.Pause) }
    ensures { IfSome (slice_get seats.old.items k) (λ s. Replaced image.now start.now budget seats.old.items seats.new.items k (local_of image.now start.now s.unit)) }
{
    run_one(image, start, budget, &mut seats[k]);
}

/// Runs instructions of the unit in this place that touch it alone, one at least.
pub(crate) fn run_more_in(
    image: &Loaded,
    start: &Start,
    budget: u64,
    seats: &mut Vec<Seat>,
    k: usize,
    most: u32,
)
    requires inside { k < vec_len seats.old }
    requires may { IfSome (slice_get seats.old.items k) (MayGo image.now start.now budget) }
    requires pauses { IfSome (slice_get seats.old.items k) (λ s. s.ask ≡ Ask.Pause) }
    requires some { 1 ≤ most }
    ensures ran { IfSome (slice_get seats.old.items k) (λ s. RanOn image.now start.now budget seats.old.items seats.new.items k s.unit) }
    ensures len { vec_len seats.new ≡ vec_len seats.old }
{
    run_more(image, start, budget, &mut seats[k], most);
}

/// The reply to what the unit in this place asks for.
pub fn reply_in(
    image: &Loaded,
    start: &Start,
    budget: u64,
    seats: &mut Vec<Seat>,
    k: usize,
    value: u64,
)
    requires inside { k < vec_len seats.old }
    requires may { IfSome (slice_get seats.old.items k) (MayGo image.now start.now budget) }
    requires asks { IfSome (slice_get seats.old.items k) (λ s. is_request s.ask ≡ true) }
    ensures replaced { IfSome (slice_get seats.old.items k) (λ s. Replaced image.now start.now budget seats.old.items seats.new.items k (answered image.now start.now s.unit value)) }
    ensures len { vec_len seats.new ≡ vec_len seats.old }
{
    reply(image, start, budget, &mut seats[k], value);
}

/// The bytes that the unit in this place prints.
pub(crate) fn piece_in(
    alloc: Global,
    image: &Loaded,
    start: &Start,
    budget: u64,
    seats: &Vec<Seat>,
    k: usize,
    text: u32,
) -> Result<Vec<u8>, AllocError>
    requires inside { k < vec_len seats.now }
    requires valid { IsValid image.now }
    requires may { IfSome (slice_get seats.now.items k) (MayGo image.now start.now budget) }
    requires prints { IfSome (slice_get seats.now.items k) (λ s. s.ask ≡ Ask.Print text) }
    ensures { IfOk result (λ bytes. IfSome (slice_get seats.now.items k) (λ s. bytes.items ≡ piece (text_of image.now text) s.unit.list)) }
{
    piece(alloc, image, text, seats[k].unit.args())
}
