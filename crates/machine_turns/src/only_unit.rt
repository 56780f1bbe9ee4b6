//! The unit that alone may be active, and its turns.
ghost use Rattle.std.specs.Prelude.{◌≡◌, ◌<◌, vec_len, true};
ghost use Rattle.xmt_isa.specs.Picked.{is_live, is_active};
ghost use Rattle.machine_turns.specs.Kept.{Kept, IsAt};
ghost use Rattle.machine_turns.specs.Runs.{RunsOn};
ghost use Rattle.machine_turns.specs.Sole.{sole_place, sole_choice};

use crate::machine::{Machine, run_more_alone};
use crate::seats::Seat;
use image_loader::Loaded;
use tcu_engine::Ask;
use xmt_isa::{Choice, Unit, UnitState};

// The places of the master and of the first control unit.
const MASTER: usize = 0;

const FIRST_UNIT: usize = 1;

// How many units there are where there is one control unit.
const ONE_UNIT: usize = 2;

// How many instructions a unit that alone is active runs at a time, at most.
const MANY: u32 = 1048576;

// It has neither stopped nor halted.
fn is_live(state: UnitState) -> bool
    ensures { result ≡ is_live state }
{
    match state {
        UnitState::Draws | UnitState::Runs => true,
        UnitState::Stopped | UnitState::Halted => false,
    }
}

/// A unit has a turn.
pub fn is_active(spawned: bool, unit: &Unit) -> bool
    ensures { result ≡ is_active spawned unit.now }
{
    is_live(unit.state) && (if unit.number == 0 { !spawned } else { spawned })
}

/// How the run goes on where no unit but the one in this place is active.
pub fn sole_choice(spawned: bool, seat: &Seat, k: usize) -> Choice
    ensures { result ≡ sole_choice spawned k seat.now }
{
    if !is_active(spawned, &seat.unit) {
        return Choice::Done;
    }
    match seat.ask {
        Ask::Trap(trap) => Choice::Trap(trap),
        Ask::Spent => Choice::Spent {
            unit: seat.unit.number,
            steps: seat.unit.counts.steps,
        },
        _ => Choice::Step(k),
    }
}

/// The place of the unit that alone may be active.
pub fn sole_place(machine: &Machine) -> Option<usize>
    ensures { result ≡ sole_place machine.now.spawned machine.now.seats.items }
{
    if !machine.spawned {
        Some(MASTER)
    } else if machine.seats.len() == ONE_UNIT {
        Some(FIRST_UNIT)
    } else {
        None
    }
}

// The unit in this place has a turn, and its next instruction touches it alone.
fn pauses(machine: &Machine, k: usize) -> bool
    requires inside { k < vec_len machine.now.seats }
    ensures { result ≡ true → IsAt machine.now k Ask.Pause }
{
    let seat = &machine.seats[k];
    is_active(machine.spawned, &seat.unit) && matches!(&seat.ask, Ask::Pause)
}

/// Runs the unit that alone may be active, if its next instruction touches it alone.
pub fn run_on(image: &Loaded, budget: u64, machine: &mut Machine)
    requires kept { Kept image.now budget machine.old }
    ensures on { RunsOn image.now budget machine.old machine.new }
    ensures len { vec_len machine.new.seats ≡ vec_len machine.old.seats }
    ensures spawned { machine.new.spawned ≡ machine.old.spawned }
{
    match sole_place(machine) {
        None => {}
        Some(k) => {
            if pauses(machine, k) {
                run_more_alone(image, budget, machine, k, MANY);
            }
        }
    }
}
