//! Whole runs on host threads.
ghost use Rattle.std.specs.Prelude.{◌≡◌, ◌≢◌, ◌+◌, ◌*◌, ◌<◌, ◌≤◌, ℕ, false, [], length, vec_len, slice_get, None, IfSome, IfOk, OnErr, IsSomeAnd};
ghost use Rattle.xmt_host.specs.Told.{OnlyPrints};
ghost use Rattle.xmt_host.specs.Host.{HasCause, Rose};
ghost use Rattle.xmt_isa.specs.Opening.{opening};
ghost use Rattle.machine_turns.specs.Kept.{Kept, IsAt};
ghost use Rattle.machine_turns.specs.Goes.{SeatGoesOn};
ghost use Rattle.machine_turns.specs.Sole.{sole_choice};
ghost use Rattle.machine_turns.specs.Turns.{IsCutShort};
ghost use Rattle.machine_turns.specs.View.{machine_of};
ghost use Rattle.threaded_runs.specs.Runs.{HasEnded, PrintsSome, EndsSome};
ghost use Rattle.threaded_runs.specs.Sections.{AreNumbered, HasGoneOn};

use crate::sections::run_section;
use image_loader::Loaded;
use machine_turns::{Machine, data_words, opening, run_on, sole_choice, take_turn};
use run_options::{SimEnd, SimOptions};
use spawn_join::Gate;
use std::alloc::{AllocError, Global};
use std::thread::Threads;
use tcu_engine::Ask;
use xmt_base::Memory;
use xmt_host::{Host, HostFault};
use xmt_isa::{Choice, Image};

// The place of the master.
const MASTER: usize = 0;

// How the run has ended, if the master has no turn.
fn find_end(machine: &Machine) -> Option<Choice>
    requires inside { 1 ≤ vec_len machine.now.seats }
    ensures goes { result ≡ None → IsSomeAnd (slice_get machine.now.seats.items 0) (SeatGoesOn false) }
    ensures end { IfSome result (λ end. IsSomeAnd (slice_get machine.now.seats.items 0) (λ s. sole_choice false 0 s ≡ end)) }
    ensures no_step { IfSome result (λ end. (k : ℕ) → end ≢ Choice.Step k) }
{
    match sole_choice(false, &machine.seats[MASTER], MASTER) {
        Choice::Step(_) => None,
        Choice::Done => Some(Choice::Done),
        Choice::Trap(trap) => Some(Choice::Trap(trap)),
        Choice::Spent { unit, steps } => Some(Choice::Spent { unit, steps }),
    }
}

// What the master does next.
fn master_ask(machine: &Machine) -> Ask
    requires inside { 1 ≤ vec_len machine.now.seats }
    requires serial { machine.now.spawned ≡ false }
    requires goes { IsSomeAnd (slice_get machine.now.seats.items 0) (SeatGoesOn false) }
    ensures { IsAt machine.now 0 result }
{
    machine.seats[MASTER].ask
}

// The master's next turn, or the section that it begins. Where the run has ended in the section, answers how.
fn go_on<R: Threads + Sync, H: Host, G: Gate + Sync>(
    rt: &R,
    alloc: Global,
    image: &Loaded,
    budget: u64,
    machine: &mut Machine,
    host: &mut H,
    gate: &G,
) -> Result<Option<Choice>, HostFault>
    requires kept { Kept image.now budget machine.old }
    requires serial { machine.old.spawned ≡ false }
    requires numbered { AreNumbered machine.old.seats.items }
    requires some { 1 ≤ vec_len machine.old.seats }
    requires few { vec_len machine.old.seats ≤ 65 }
    requires long { vec_len machine.old.words ≡ 12 + length image.now.words + 257 * image.now.outer }
    requires goes { IsSomeAnd (slice_get machine.old.seats.items 0) (SeatGoesOn false) }
    ensures on { IfOk result (HasGoneOn image.now budget machine.old machine.new (H.told host.old).out (H.told host.new).out) }
    ensures seats { IfOk result (λ end. vec_len machine.new.seats ≡ vec_len machine.old.seats) }
    ensures cut { OnErr result (IsCutShort image.now 0 machine.old (H.told host.old).out (H.told host.new).out) }
    ensures cause { HasCause (H.told host.old) (H.told host.new) result }
    ensures only { OnlyPrints (H.told host.old) (H.told host.new) }
{
    match master_ask(machine) {
        Ask::Spawn(ask) => match run_section(rt, alloc, image, budget, machine, ask, gate) {
            Ok(end) => Ok(end),
            Err(_) => Err(HostFault::NoMemory),
        },
        _ => match take_turn(alloc, image, budget, machine, MASTER, host) {
            Ok(()) => Ok(None),
            Err(fault) => Err(fault),
        },
    }
}

// Runs the machine until it has ended.
fn run_to_end<R: Threads + Sync, H: Host, G: Gate + Sync>(
    rt: &R,
    alloc: Global,
    image: &Loaded,
    budget: u64,
    machine: &mut Machine,
    host: &mut H,
    gate: &G,
) -> Result<Choice, HostFault>
    requires kept { Kept image.now budget machine.old }
    requires serial { machine.old.spawned ≡ false }
    requires numbered { AreNumbered machine.old.seats.items }
    requires some { 1 ≤ vec_len machine.old.seats }
    requires few { vec_len machine.old.seats ≤ 65 }
    requires long { vec_len machine.old.words ≡ 12 + length image.now.words + 257 * image.now.outer }
    ensures ends { IfOk result (λ end. (k : ℕ) → end ≢ Choice.Step k) }
    ensures ended { IfOk result (λ end. HasEnded image.now budget (machine_of machine.old []) end machine.new.words.items (H.told host.old).out (H.told host.new).out) }
    ensures cut { OnErr result (PrintsSome image.now (machine_of machine.old []) (H.told host.old).out (H.told host.new).out) }
    ensures cause { HasCause (H.told host.old) (H.told host.new) result }
    ensures only { OnlyPrints (H.told host.old) (H.told host.new) }
{
    'turns: loop {
        run_on(image, budget, machine);
        if let Some(end) = find_end(machine) {
            return Ok(end);
        }
        match go_on(rt, alloc, image, budget, machine, host, gate) {
            Ok(None) => {}
            Ok(Some(end)) => return Ok(end),
            Err(fault) => return Err(fault),
        }
    }
}

// How many prefix-sum registers an image opens.
fn registers(image: &Image) -> usize
    ensures all { result ≡ length image.now.ps }
    ensures eight { length image.now.ps ≡ 8 }
{
    let ps: &[u32] = &image.ps;
    ps.len()
}

// The machine at the beginning, outside sections.
fn begin(
    alloc: Global,
    image: &Loaded,
    memory: &Memory,
    budget: u64,
    n: u32,
) -> Result<Machine, AllocError>
    requires some { 1 ≤ n }
    requires few { n ≤ 64 }
    requires memory { length memory.now.words ≡ length image.now.words }
    ensures machine { IfOk result (λ machine. machine_of machine [] ≡ opening image.now memory.now.words n) }
    ensures kept { IfOk result (Kept image.now budget) }
    ensures serial { IfOk result (λ machine. machine.spawned ≡ false) }
    ensures numbered { IfOk result (λ machine. AreNumbered machine.seats.items) }
    ensures seats { IfOk result (λ machine. vec_len machine.seats ≡ n + 1) }
    ensures words { IfOk result (λ machine. vec_len machine.words ≡ 12 + length image.now.words + 257 * image.now.outer) }
{
    let _registers = registers(image.image());
    opening(alloc, image, memory, budget, n)
}

/// The machine with the control units of each section on host threads of their own, one a unit; `options.seed` isn't
/// looked at. Each unit passes the gate before each of its draws.
pub fn run_threaded<R: Threads + Sync, H: Host, G: Gate + Sync>(
    rt: &R,
    alloc: Global,
    image: &Loaded,
    memory: Memory,
    options: &SimOptions,
    host: &mut H,
    gate: &G,
) -> SimEnd
    requires some_units { 1 ≤ options.now.units }
    requires units { options.now.units ≤ 64 }
    requires memory { length memory.words ≡ length image.now.words }
    ensures end { EndsSome image.now options.now.budget (opening image.now memory.words options.now.units) (H.told host.old).out (H.told host.new).out result }
    ensures fault { result ≡ SimEnd.WriteFault → Rose (H.told host.old).faults (H.told host.new).faults }
    ensures only { OnlyPrints (H.told host.old) (H.told host.new) }
{
    let budget = options.budget;
    let mut machine = match begin(alloc, image, &memory, budget, options.units) {
        Ok(machine) => machine,
        Err(_) => return SimEnd::NoMemory,
    };
    match run_to_end(rt, alloc, image, budget, &mut machine, host, gate) {
        Ok(Choice::Done) => match data_words(alloc, image.image(), &machine.words) {
            Ok(words) => SimEnd::Done(Memory { words }),
            Err(_) => SimEnd::NoMemory,
        },
        Ok(Choice::Trap(trap)) => SimEnd::Trap(trap),
        Ok(Choice::Spent { unit, steps }) => SimEnd::Spent { unit, steps },
        Ok(Choice::Step(_)) => unreachable!(),
        Err(HostFault::Failed) => SimEnd::WriteFault,
        Err(HostFault::NoMemory) => SimEnd::NoMemory,
    }
}
