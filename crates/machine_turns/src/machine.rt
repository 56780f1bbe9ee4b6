//! The machine's turns over a plain vector of words.
ghost use Rattle.std.specs.Prelude.{◌≡◌, ◌<◌, ◌≤◌, Some, slice_set, slice_index, vec_len, OnOk};
ghost use Rattle.machine_turns.specs.Goes.{Goes};
ghost use Rattle.machine_turns.specs.Kept.{Kept, IsAt};
ghost use Rattle.machine_turns.specs.Runs.{RunsOn};
ghost use Rattle.machine_turns.specs.Sole.{sole_place};

use crate::cells::{look, put};
use crate::seats::{Seat, reply_in, run_in, run_more_in};
use crate::sections::{begin_section, broadcast, have_stopped};
use image_loader::Loaded;
use std::alloc::AllocError;
use tcu_engine::Ask;
use xmt_isa::{SpawnAsk, Start};

/// The units and all that they share.
#[derive(Drop)]
pub struct Machine {
    /// The master, and then the control units.
    pub seats: Vec<Seat>,
    /// The shared words.
    pub words: Vec<u32>,
    /// The next number to be drawn.
    pub drawn: u64,
    /// What the last spawn broadcast.
    pub start: Start,
    /// A section runs.
    pub spawned: bool,
}

// Writes a word of the table.
fn put_word(words: &mut Vec<u32>, at: u32, value: u32)
    ensures { words.new.items ≡ slice_set words.old.items at value }
{
    put(words, at as usize, value);
}

// The word of the table in a place.
fn look_word(words: &Vec<u32>, at: u32) -> u32
    ensures { result ≡ slice_index words.now.items at }
{
    look(words, at as usize)
}

/// Runs the next instruction of a unit, which touches it alone.
pub(crate) fn run_alone(image: &Loaded, budget: u64, machine: &mut Machine, k: usize)
    requires kept { Kept image.now budget machine.old }
    requires inside { k < vec_len machine.old.seats }
    requires asks { IsAt machine.old k Ask.Pause }
    ensures goes { Goes image.now budget k machine.old machine.new }
    ensures len { vec_len machine.new.seats ≡ vec_len machine.old.seats }
{
    run_in(image, &machine.start, budget, &mut machine.seats, k);
}

/// Runs instructions of the only active unit that touch it alone, one at least.
pub(crate) fn run_more_alone(
    image: &Loaded,
    budget: u64,
    machine: &mut Machine,
    k: usize,
    most: u32,
)
    requires kept { Kept image.now budget machine.old }
    requires inside { k < vec_len machine.old.seats }
    requires asks { IsAt machine.old k Ask.Pause }
    requires sole { sole_place machine.old.spawned machine.old.seats.items ≡ Some k }
    requires some { 1 ≤ most }
    ensures on { RunsOn image.now budget machine.old machine.new }
    ensures len { vec_len machine.new.seats ≡ vec_len machine.old.seats }
    ensures spawned { machine.new.spawned ≡ machine.old.spawned }
{
    run_more_in(image, &machine.start, budget, &mut machine.seats, k, most);
}

/// Gives a unit the word that it asks for.
pub(crate) fn load(image: &Loaded, budget: u64, machine: &mut Machine, k: usize, at: u32)
    requires kept { Kept image.now budget machine.old }
    requires inside { k < vec_len machine.old.seats }
    requires asks { IsAt machine.old k (Ask.Load at) }
    ensures goes { Goes image.now budget k machine.old machine.new }
    ensures len { vec_len machine.new.seats ≡ vec_len machine.old.seats }
{
    let word = look_word(&machine.words, at);
    reply_in(
        image,
        &machine.start,
        budget,
        &mut machine.seats,
        k,
        word as u64,
    );
}

/// Stores a unit's value.
pub(crate) fn store(
    image: &Loaded,
    budget: u64,
    machine: &mut Machine,
    k: usize,
    at: u32,
    value: u32,
)
    requires kept { Kept image.now budget machine.old }
    requires inside { k < vec_len machine.old.seats }
    requires asks { IsAt machine.old k (Ask.Store at value) }
    ensures goes { Goes image.now budget k machine.old machine.new }
    ensures len { vec_len machine.new.seats ≡ vec_len machine.old.seats }
{
    reply_in(image, &machine.start, budget, &mut machine.seats, k, 0);
    put_word(&mut machine.words, at, value);
}

/// Adds a unit's value to a word, and gives it what the word held.
pub(crate) fn add(image: &Loaded, budget: u64, machine: &mut Machine, k: usize, at: u32, value: u32)
    requires kept { Kept image.now budget machine.old }
    requires inside { k < vec_len machine.old.seats }
    requires asks { IsAt machine.old k (Ask.Add at value) }
    ensures goes { Goes image.now budget k machine.old machine.new }
    ensures len { vec_len machine.new.seats ≡ vec_len machine.old.seats }
{
    let word = look_word(&machine.words, at);
    reply_in(
        image,
        &machine.start,
        budget,
        &mut machine.seats,
        k,
        word as u64,
    );
    put_word(&mut machine.words, at, word.wrapping_add(value));
}

/// Gives a control unit the next number, and lets the master go on where all control units have stopped.
pub(crate) fn draw(image: &Loaded, budget: u64, machine: &mut Machine, k: usize)
    requires kept { Kept image.now budget machine.old }
    requires inside { k < vec_len machine.old.seats }
    requires asks { IsAt machine.old k Ask.Draw }
    ensures goes { Goes image.now budget k machine.old machine.new }
    ensures len { vec_len machine.new.seats ≡ vec_len machine.old.seats }
{
    let number = machine.drawn;
    reply_in(image, &machine.start, budget, &mut machine.seats, k, number);
    machine.drawn = number.saturating_add(1);
    if !have_stopped(&machine.seats) {
        return;
    }
    machine.spawned = false;
    reply_in(image, &machine.start, budget, &mut machine.seats, 0, 0);
}

/// Begins the section of the master's spawn.
pub(crate) fn spawn(
    image: &Loaded,
    budget: u64,
    machine: &mut Machine,
    k: usize,
    ask: SpawnAsk,
) -> Result<(), AllocError>
    requires kept { Kept image.now budget machine.old }
    requires inside { k < vec_len machine.old.seats }
    requires asks { IsAt machine.old k (Ask.Spawn ask) }
    ensures goes { OnOk result (Goes image.now budget k machine.old machine.new) }
    ensures len { vec_len machine.new.seats ≡ vec_len machine.old.seats }
{
    broadcast(&mut machine.start, &machine.seats[k].unit, ask)?;
    machine.drawn = 0;
    machine.spawned = true;
    begin_section(image, &machine.start, budget, &mut machine.seats);
    Ok(())
}
