//! How a picked run goes on.
ghost use Rattle.std.specs.Prelude.{◌≡◌, ℕ, ◌^◌, ◌<◌, ◌≤◌, length, map, find, vec_len, slice_get, true, Some, IsSomeAnd};
ghost use Rattle.std.specs.Option.{option_copied};
ghost use Rattle.xmt_isa.specs.Picked.{is_live, is_active, place_of, picks, state_after};
ghost use Rattle.machine_turns.specs.Seats.{unit_of};
ghost use Rattle.machine_turns.specs.Sole.{OnlyActive, sole_place, sole_choice};
ghost use Rattle.machine_turns.specs.Kept.{IsAt};
ghost use Rattle.machine_turns.specs.Goes.{asks_trap, asks_spent, seat_trapped, seat_spent, trap_choice, count_active, seats_choice, SeatGoesOn};

use machine_turns::{Machine, Seat, is_active, sole_choice, sole_place};
use tcu_engine::Ask;
use xmt_base::Picker;
use xmt_isa::Choice;

// The unit stands at a trap.
fn asks_trap(ask: Ask) -> bool
    ensures { result ≡ asks_trap ask }
{
    matches!(&ask, Ask::Trap(_))
}

// The unit has spent the budget.
fn asks_spent(ask: Ask) -> bool
    ensures { result ≡ asks_spent ask }
{
    matches!(&ask, Ask::Spent)
}

// An active unit stands at a trap.
fn is_trapped(spawned: bool, seat: &Seat) -> bool
    ensures { result ≡ seat_trapped spawned seat.now }
{
    is_active(spawned, &seat.unit) && asks_trap(seat.ask)
}

// An active unit has spent the budget.
fn is_spent(spawned: bool, seat: &Seat) -> bool
    ensures { result ≡ seat_spent spawned seat.now }
{
    is_active(spawned, &seat.unit) && asks_spent(seat.ask)
}

// The least unit at a trap.
fn find_trapped(spawned: bool, seats: &[Seat]) -> Option<&Seat>
    ensures { option_copied result ≡ find (seat_trapped spawned) seats.now }
{
    seats.iter().find(|seat| is_trapped(spawned, seat))
}

// The least unit that has spent the budget.
fn find_spent(spawned: bool, seats: &[Seat]) -> Option<&Seat>
    ensures { option_copied result ≡ find (seat_spent spawned) seats.now }
{
    seats.iter().find(|seat| is_spent(spawned, seat))
}

// How many units are active.
fn count_active(spawned: bool, seats: &[Seat]) -> usize
    ensures { result ≡ count_active spawned seats.now }
{
    seats
        .iter()
        .filter(|seat| is_active(spawned, &seat.unit))
        .count()
}

// The place of the active unit before which i are active.
fn place_of(spawned: bool, seats: &[Seat], i: u32) -> usize
    ensures place { result ≡ place_of spawned (map unit_of seats.now) i }
    ensures inside { result ≤ length seats.now }
    ensures active { i < count_active spawned seats.now → IsSomeAnd (slice_get seats.now result) (λ s. is_active spawned s.unit ≡ true) }
{
    match seats.split_first() {
        None => 0,
        Some((first, others)) => {
            if is_active(spawned, &first.unit) {
                if i == 0 {
                    0
                } else {
                    1 + place_of(spawned, others, i - 1)
                }
            } else {
                1 + place_of(spawned, others, i)
            }
        }
    }
}

// The trap at which a unit stands.
fn trap_of(ask: Ask) -> Choice
    ensures { result ≡ trap_choice ask }
{
    match ask {
        Ask::Trap(trap) => Choice::Trap(trap),
        _ => Choice::Done,
    }
}

// One of the active units.
fn pick(spawned: bool, seats: &[Seat], picker: &mut Picker) -> Choice
    requires { length seats.now < 2 ^ 32 }
    ensures choice { result ≡ picks spawned (map unit_of seats.now) (count_active spawned seats.now) picker.old.state }
    ensures state { picker.new.state ≡ state_after (count_active spawned seats.now) picker.old.state }
    ensures active { (k : ℕ) → result ≡ Choice.Step k → IsSomeAnd (slice_get seats.now k) (λ s. is_active spawned s.unit ≡ true) }
{
    let count = count_active(spawned, seats) as u32;
    if count == 0 {
        return Choice::Done;
    }
    let i = if count == 1 { 0 } else { picker.pick(count) };
    Choice::Step(place_of(spawned, seats, i))
}

// How the run goes on: it ends at the least unit at a trap, else at the least one that has spent the budget, else where
// no unit is active, else one of the active units has a turn.
fn choose_among(machine: &Machine, picker: &mut Picker) -> Choice
    requires few { vec_len machine.now.seats < 2 ^ 32 }
    ensures choice { result ≡ seats_choice machine.now.spawned machine.now.seats.items picker.old.state }
    ensures turn { (k : ℕ) → result ≡ Choice.Step k → IsSomeAnd (slice_get machine.now.seats.items k) (SeatGoesOn machine.now.spawned) }
    ensures state { (k : ℕ) → result ≡ Choice.Step k → picker.new.state ≡ state_after (count_active machine.now.spawned machine.now.seats.items) picker.old.state }
{
    let seats = machine.seats.as_slice();
    let spawned = machine.spawned;
    match find_trapped(spawned, seats) {
        Some(seat) => trap_of(seat.ask),
        None => match find_spent(spawned, seats) {
            Some(seat) => Choice::Spent {
                unit: seat.unit.number,
                steps: seat.unit.counts.steps,
            },
            None => pick(spawned, seats, picker),
        },
    }
}

/// How the run goes on: it ends at the least unit at a trap, else at the least one that has spent the budget, else where
/// no unit is active, else one of the active units has a turn.
pub(crate) fn choose(machine: &Machine, picker: &mut Picker) -> Choice
    requires few { vec_len machine.now.seats < 2 ^ 32 }
    requires sole { (k : ℕ) → sole_place machine.now.spawned machine.now.seats.items ≡ Some k → OnlyActive machine.now.spawned machine.now.seats.items k }
    ensures choice { result ≡ seats_choice machine.now.spawned machine.now.seats.items picker.old.state }
    ensures turn { (k : ℕ) → result ≡ Choice.Step k → IsSomeAnd (slice_get machine.now.seats.items k) (SeatGoesOn machine.now.spawned) }
    ensures state { (k : ℕ) → result ≡ Choice.Step k → picker.new.state ≡ state_after (count_active machine.now.spawned machine.now.seats.items) picker.old.state }
{
    match sole_place(machine) {
        None => choose_among(machine, picker),
        Some(k) => sole_choice(machine.spawned, &machine.seats[k], k),
    }
}
