//! A section of control units, each on a host thread of its own.
ghost use Rattle.std.specs.Prelude.{◌≡◌, ◌+◌, ◌*◌, ◌≤◌, true, false, length, slice_get, slice_index, vec_len, IfOk, IfSome};
ghost use Rattle.tcu_engine.specs.Asks.{is_request};
ghost use Rattle.machine_turns.specs.Kept.{Kept, IsAt, MayGo};
ghost use Rattle.threaded_runs.specs.Sections.{AreNumbered, GoesOn, HasSection};

use crate::units::{put_units, take_units};
use crate::words::{narrow, widen};
use image_loader::Loaded;
use machine_turns::{Machine, broadcast, reply_in};
use spawn_join::{Gate, SectionEnd, section};
use std::alloc::{AllocError, Global};
use std::thread::Threads;
use tcu_engine::Ask;
use xmt_isa::{Choice, SpawnAsk};

// The next number to be drawn, as threads have left it.
fn drawn_of(words: &Vec<u64>) -> u64
    ensures { result ≡ slice_index words.now.items 1 }
{
    words.get(1).copied().unwrap_or(0)
}

// Lets the master go on behind its section, which has left these words.
fn go_on(image: &Loaded, budget: u64, machine: &mut Machine, words: &Vec<u64>, drawn: u64)
    requires size { vec_len words.now ≡ vec_len machine.old.words }
    requires drawn { drawn ≡ slice_index words.now.items 1 }
    requires inside { 1 ≤ vec_len machine.old.seats }
    requires may { IfSome (slice_get machine.old.seats.items 0) (MayGo image.now machine.old.start budget) }
    requires asks { IfSome (slice_get machine.old.seats.items 0) (λ s. is_request s.ask ≡ true) }
    ensures goes { GoesOn image.now budget machine.old words.now.items machine.new }
    ensures len { vec_len machine.new.seats ≡ vec_len machine.old.seats }
{
    narrow(&mut machine.words, words.as_slice());
    machine.drawn = drawn;
    machine.spawned = false;
    reply_in(image, &machine.start, budget, &mut machine.seats, 0, 0);
}

/// Runs the section of the master's spawn, each control unit on a host thread of its own. Where all have stopped, the
/// master goes on; else answers how the run has ended.
pub(crate) fn run_section<R: Threads + Sync, G: Gate + Sync>(
    rt: &R,
    alloc: Global,
    image: &Loaded,
    budget: u64,
    machine: &mut Machine,
    ask: SpawnAsk,
    gate: &G,
) -> Result<Option<Choice>, AllocError>
    requires kept { Kept image.now budget machine.old }
    requires serial { machine.old.spawned ≡ false }
    requires asks { IsAt machine.old 0 (Ask.Spawn ask) }
    requires numbered { AreNumbered machine.old.seats.items }
    requires few { vec_len machine.old.seats ≤ 65 }
    requires long { vec_len machine.old.words ≡ 12 + length image.now.words + 257 * image.now.outer }
    ensures section { IfOk result (HasSection image.now budget machine.old machine.new) }
    ensures seats { IfOk result (λ end. vec_len machine.new.seats ≡ vec_len machine.old.seats) }
{
    broadcast(&mut machine.start, &machine.seats[0].unit, ask)?;
    let words = widen(alloc, &machine.words)?;
    let mut workers = take_units(alloc, &mut machine.seats)?;
    let (words, end) = section(
        rt,
        alloc,
        image,
        &machine.start,
        words,
        &mut workers,
        gate,
        budget,
    );
    put_units(alloc, &mut machine.seats, workers)?;
    let drawn = drawn_of(&words);
    match end {
        SectionEnd::All => {
            go_on(image, budget, machine, &words, drawn);
            Ok(None)
        }
        SectionEnd::Trap(_, trap) => Ok(Some(Choice::Trap(trap))),
        SectionEnd::Spent(number) => Ok(Some(Choice::Spent {
            unit: number,
            steps: budget,
        })),
        SectionEnd::NoMemory => Err(AllocError),
    }
}
