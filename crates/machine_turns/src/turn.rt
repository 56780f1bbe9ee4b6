//! One turn of the machine, which prints to the host.
ghost use Rattle.std.specs.Prelude.{◌≡◌, ◌<◌, OnOk, OnErr, slice_get, vec_len, IsSomeAnd};
ghost use Rattle.xmt_host.specs.Told.{OnlyPrints};
ghost use Rattle.xmt_host.specs.Host.{HasCause};
ghost use Rattle.machine_turns.specs.Goes.{Goes, GoesSilently, SeatGoesOn};
ghost use Rattle.machine_turns.specs.Kept.{Kept, IsAt};
ghost use Rattle.machine_turns.specs.Turns.{Turns, IsCutShort};

use crate::machine::{Machine, add, draw, load, run_alone, spawn, store};
use crate::print::print_all;
use crate::seats::{piece_in, reply_in};
use image_loader::Loaded;
use std::alloc::{AllocError, Global};
use tcu_engine::Ask;
use xmt_host::{Host, HostFault};

// Prints the text of the unit in this place, and answers it.
fn print_in<H: Host>(
    alloc: Global,
    image: &Loaded,
    budget: u64,
    machine: &mut Machine,
    k: usize,
    text: u32,
    host: &mut H,
) -> Result<(), HostFault>
    requires kept { Kept image.now budget machine.old }
    requires inside { k < vec_len machine.old.seats }
    requires asks { IsAt machine.old k (Ask.Print text) }
    ensures kept { OnOk result (Kept image.now budget machine.new) }
    ensures ok { OnOk result (Turns image.now k machine.old machine.new (H.told host.old).out (H.told host.new).out) }
    ensures cut { OnErr result (IsCutShort image.now k machine.old (H.told host.old).out (H.told host.new).out) }
    ensures len { vec_len machine.new.seats ≡ vec_len machine.old.seats }
    ensures cause { HasCause (H.told host.old) (H.told host.new) result }
    ensures only { OnlyPrints (H.told host.old) (H.told host.new) }
{
    let bytes = match piece_in(
        alloc,
        image,
        &machine.start,
        budget,
        &machine.seats,
        k,
        text,
    ) {
        Ok(bytes) => bytes,
        Err(_) => return Err(HostFault::NoMemory),
    };
    match print_all(host, bytes.as_slice()) {
        Ok(()) => {}
        Err(fault) => return Err(fault),
    }
    reply_in(image, &machine.start, budget, &mut machine.seats, k, 0);
    Ok(())
}

// A turn of the unit in this place that prints nothing.
fn take_silent(
    image: &Loaded,
    budget: u64,
    machine: &mut Machine,
    k: usize,
    asked: Ask,
) -> Result<(), AllocError>
    requires kept { Kept image.now budget machine.old }
    requires inside { k < vec_len machine.old.seats }
    requires asks { IsAt machine.old k asked }
    requires silent { GoesSilently asked }
    ensures goes { OnOk result (Goes image.now budget k machine.old machine.new) }
    ensures len { vec_len machine.new.seats ≡ vec_len machine.old.seats }
{
    match asked {
        Ask::Pause => run_alone(image, budget, machine, k),
        Ask::Load(at) => load(image, budget, machine, k, at),
        Ask::Store(at, value) => store(image, budget, machine, k, at, value),
        Ask::Add(at, value) => add(image, budget, machine, k, at, value),
        Ask::Draw => draw(image, budget, machine, k),
        Ask::Spawn(ask) => return spawn(image, budget, machine, k, ask),
        Ask::Print(_) | Ask::Stopped | Ask::Halt | Ask::Trap(_) | Ask::Spent => unreachable!(),
    }
    Ok(())
}

// What the unit in this place does next.
fn ask_in(machine: &Machine, k: usize) -> Ask
    requires inside { k < vec_len machine.now.seats }
    requires goes { IsSomeAnd (slice_get machine.now.seats.items k) (SeatGoesOn machine.now.spawned) }
    ensures { IsAt machine.now k result }
{
    machine.seats[k].ask
}

/// A turn of the unit in this place.
pub fn take_turn<H: Host>(
    alloc: Global,
    image: &Loaded,
    budget: u64,
    machine: &mut Machine,
    k: usize,
    host: &mut H,
) -> Result<(), HostFault>
    requires kept { Kept image.now budget machine.old }
    requires inside { k < vec_len machine.old.seats }
    requires goes { IsSomeAnd (slice_get machine.old.seats.items k) (SeatGoesOn machine.old.spawned) }
    ensures kept { OnOk result (Kept image.now budget machine.new) }
    ensures ok { OnOk result (Turns image.now k machine.old machine.new (H.told host.old).out (H.told host.new).out) }
    ensures cut { OnErr result (IsCutShort image.now k machine.old (H.told host.old).out (H.told host.new).out) }
    ensures len { vec_len machine.new.seats ≡ vec_len machine.old.seats }
    ensures cause { HasCause (H.told host.old) (H.told host.new) result }
    ensures only { OnlyPrints (H.told host.old) (H.told host.new) }
{
    let asked = ask_in(machine, k);
    match asked {
        Ask::Print(text) => print_in(alloc, image, budget, machine, k, text, host),
        _ => match take_silent(image, budget, machine, k, asked) {
            Ok(()) => Ok(()),
            Err(_) => Err(HostFault::NoMemory),
        },
    }
}
