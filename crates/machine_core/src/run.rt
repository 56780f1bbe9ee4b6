//! Whole picked runs.
ghost use Rattle.std.specs.Prelude.{◌≡◌, ◌≢◌, ◌≤◌, ◌<◌, ◌^◌, ℕ, List, [], length, vec_len, IfOk, OnErr};
ghost use Rattle.xmt_host.specs.Told.{OnlyPrints};
ghost use Rattle.xmt_host.specs.Host.{HasCause, Rose};
ghost use Rattle.xmt_isa.specs.Opening.{begins};
ghost use Rattle.xmt_isa.specs.Legal.{HasHalted};
ghost use Rattle.machine_turns.specs.Kept.{Kept};
ghost use Rattle.machine_turns.specs.View.{machine_of, run_of};
ghost use Rattle.machine_turns.specs.Runs.{RunsOn, data_words};
ghost use Rattle.machine_core.specs.Runs.{HasEnded, PrintsPicked, Ends};

use crate::choose::choose;
use image_loader::Loaded;
use machine_turns::{Machine, data_words, opening, run_on, take_turn};
use run_options::{SimEnd, SimOptions};
use std::alloc::Global;
use xmt_base::{Memory, Picker};
use xmt_host::{Host, HostFault};
use xmt_isa::Choice;

/// Runs the machine until an end is chosen.
fn run_to_end<H: Host>(
    alloc: Global,
    image: &Loaded,
    budget: u64,
    machine: &mut Machine,
    picker: &mut Picker,
    host: &mut H,
) -> Result<Choice, HostFault>
    requires kept { Kept image.now budget machine.old }
    requires few { vec_len machine.old.seats < 2 ^ 32 }
    ensures ends { IfOk result (λ end. (k : ℕ) → end ≢ Choice.Step k) }
    ensures ended { IfOk result (λ end. HasEnded image.now budget (run_of machine.old [] picker.old.state) end machine.new (H.told host.old).out (H.told host.new).out) }
    ensures halted { IfOk result (λ end. end ≡ Choice.Done → (out : List ℕ) → HasHalted (machine_of machine.new out)) }
    ensures cut { OnErr result (PrintsPicked image.now budget (run_of machine.old [] picker.old.state) (H.told host.old).out (H.told host.new).out) }
    ensures cause { HasCause (H.told host.old) (H.told host.new) result }
    ensures only { OnlyPrints (H.told host.old) (H.told host.new) }
{
    'turns: loop {
        run_on(image, budget, machine);
        match choose(machine, picker) {
            Choice::Step(k) => match take_turn(alloc, image, budget, machine, k, host) {
                Ok(()) => {}
                Err(fault) => return Err(fault),
            },
            Choice::Done => return Ok(Choice::Done),
            Choice::Trap(trap) => return Ok(Choice::Trap(trap)),
            Choice::Spent { unit, steps } => return Ok(Choice::Spent { unit, steps }),
        }
    }
}

/// The machine under the schedule of a generator that begins with `seed`.
pub fn run_picked<H: Host>(
    alloc: Global,
    image: &Loaded,
    memory: Memory,
    options: &SimOptions,
    seed: u64,
    host: &mut H,
) -> SimEnd
    requires some_units { 1 ≤ options.now.units }
    requires units { options.now.units ≤ 64 }
    requires memory { length memory.words ≡ length image.now.words }
    ensures end { Ends image.now options.now.budget (begins image.now memory.words options.now.units seed) (H.told host.old).out (H.told host.new).out result }
    ensures fault { result ≡ SimEnd.WriteFault → Rose (H.told host.old).faults (H.told host.new).faults }
    ensures only { OnlyPrints (H.told host.old) (H.told host.new) }
{
    let budget = options.budget;
    let mut machine = match opening(alloc, image, &memory, budget, options.units) {
        Ok(machine) => machine,
        Err(_) => return SimEnd::NoMemory,
    };
    let mut picker = Picker::new(seed);
    match run_to_end(alloc, image, budget, &mut machine, &mut picker, host) {
        Ok(Choice::Done) => match data_words(alloc, image.image(), &machine.words) {
            Ok(words) => SimEnd::Done(Memory { words }),
            Err(_) => SimEnd::NoMemory,
        },
        Ok(Choice::Trap(trap)) => SimEnd::Trap(trap),
        Ok(Choice::Spent { unit, steps }) => SimEnd::Spent { unit, steps },
        Ok(Choice::Step(_)) => unreachable!(),
        Err(HostFault::Failed) => SimEnd::WriteFault,
        Err(HostFault::NoMemory) => SimEnd::NoMemory,
    }
}
