//! The control units of the machine, as workers.
ghost use Rattle.std.specs.Prelude.{◌≡◌, ◌≤◌, ◌++◌, map, take, drop, vec_len, IfOk, OnOk};
ghost use Rattle.threaded_runs.specs.Units.{due_worker, seat_again};

use machine_turns::Seat;
use spawn_join::Worker;
use std::alloc::{AllocError, Global};
use tcu_engine::Ask;
use xmt_isa::UnitState;

// A control unit that is due to draw, where it was idle.
fn due_worker(seat: Seat) -> Worker
    ensures { result ≡ due_worker seat }
{
    let mut unit = seat.unit;
    match unit.state {
        UnitState::Stopped => unit.ready(),
        UnitState::Draws | UnitState::Runs | UnitState::Halted => {}
    }
    Worker {
        unit,
        pass: None,
        gap: [0; 8],
    }
}

/// Takes the control units from behind the master; idle ones are due to draw then.
pub(crate) fn take_units(alloc: Global, seats: &mut Vec<Seat>) -> Result<Vec<Worker>, AllocError>
    requires some { 1 ≤ vec_len seats.old }
    ensures left { OnOk result (seats.new.items ≡ take 1 seats.old.items) }
    ensures taken { IfOk result (λ workers. workers.items ≡ map due_worker (drop 1 seats.old.items)) }
{
    let others = seats.split_off(1)?;
    others
        .into_iter()
        .map(|seat| due_worker(seat))
        .collect(alloc)
}

// A control unit back in its seat.
fn seat_again(worker: Worker) -> Seat
    ensures { result ≡ seat_again worker }
{
    Seat {
        unit: worker.unit,
        ask: Ask::Pause,
    }
}

/// Puts the control units back behind the master.
pub(crate) fn put_units(
    alloc: Global,
    seats: &mut Vec<Seat>,
    workers: Vec<Worker>,
) -> Result<(), AllocError>
    ensures { OnOk result (seats.new.items ≡ seats.old.items ++ map seat_again workers.items) }
{
    let mut others = workers
        .into_iter()
        .map(|worker| seat_again(worker))
        .collect(alloc)?;
    seats.append(&mut others)
}
