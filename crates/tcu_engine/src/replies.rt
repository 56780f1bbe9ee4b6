//! What a unit makes of a reply.
ghost use Rattle.std.specs.Prelude.{◌≡◌, ◌↔◌, ◌+◌, ◌%◌, ◌^◌, ◌<◌, ◌≤◌, length, drop, position, true, false, IfSome};
ghost use Rattle.xmt_isa.specs.declared.unit.Request.TheVariants as request;
ghost use Rattle.xmt_isa.specs.declared.unit.Next.TheVariants as next;
ghost use Rattle.xmt_isa.specs.declared.unit.UnitState.TheVariants as state;
ghost use Rattle.xmt_isa.specs.Image.{operation_at};
ghost use Rattle.xmt_isa.specs.Step.{next_of, draws, answer_at, answer_of, is_due};
ghost use Rattle.xmt_isa.specs.Machine.{is_join, behind_join};
ghost use Rattle.xmt_isa.specs.Fits.{UnitFits};
ghost use Rattle.unit_steps.specs.Steps.{answered, replied};
ghost use Rattle.unit_steps.specs.Keeps.{HasStart};
ghost use Rattle.tcu_engine.specs.Sizes.{IsSmall};
ghost use Rattle.tcu_engine.specs.Replies.{TakesWord, TakesWordHere};

use crate::units::{goes, goes_on, next, operation_at, sets};
use image_loader::Loaded;
use xmt_isa::{Image, Instr, Next, Operation, Request, Start, Unit, UnitState};

// A draw's number begins its thread, or stops the unit.
fn draws(start: &Start, unit: &mut Unit, number: u64)
    ensures { unit.new ≡ draws start.now unit.old number }
{
    unit.counts.steps = unit.counts.steps.saturating_add(1);
    if number < start.count {
        let thread = start.low.wrapping_add((number % (1 << 32)) as u32);
        unit.state = UnitState::Runs;
        unit.at = start.at;
        unit.thread = Some(thread);
        unit.depth = 0;
        unit.regs = start.regs;
        unit.regs[1] = thread;
        unit.counts.threads = unit.counts.threads.saturating_add(1);
    } else {
        unit.state = UnitState::Stopped;
        unit.thread = None;
    }
}

// The reply to what an operation asked for, other than a draw and a spawn.
fn answer_at(unit: &mut Unit, operation: Operation, reply: u32)
    requires room { unit.old.at + 1 < 2 ^ 32 }
    requires takes { TakesWord operation }
    ensures { (start : Start) → unit.new ≡ answer_at start unit.old operation reply }
{
    match operation {
        Operation::Load(a, _) => {
            sets(unit, a, reply);
            unit.counts.loads = unit.counts.loads.saturating_add(1);
        }
        Operation::Store(_, _) => {
            goes_on(unit);
            unit.counts.stores = unit.counts.stores.saturating_add(1);
        }
        Operation::Add(a, _) => {
            sets(unit, a, reply);
            unit.counts.adds = unit.counts.adds.saturating_add(1);
        }
        Operation::Print(_) => goes_on(unit),
        Operation::Set(_, _)
        | Operation::Unary(_, _, _)
        | Operation::Binary(_, _, _, _)
        | Operation::Jump(_)
        | Operation::IfZero(_, _)
        | Operation::IfNot(_, _)
        | Operation::Call(_)
        | Operation::Return
        | Operation::ReadSlot(_, _)
        | Operation::WriteSlot(_, _)
        | Operation::WriteArgument(_, _)
        | Operation::ReadArgument(_, _)
        | Operation::ReadMaster(_, _)
        | Operation::Check(_, _)
        | Operation::Spawn(_, _, _)
        | Operation::Join => {}
    }
}

// The reply to a load, a store, an add or a print.
fn take_word(image: &Image, unit: &mut Unit, reply: u32)
    requires small { IsSmall image.now }
    requires runs { is_due unit.old.state ≡ false }
    requires takes { TakesWordHere (operation_at image.now unit.old.at) }
    ensures { (start : Start) → unit.new ≡ answer_of image.now start unit.old reply }
{
    if let Some(operation) = operation_at(image, unit.at) {
        answer_at(unit, operation, reply);
    }
}

// The instructions from a place on.
fn code_from(code: &[Instr], at: u32) -> &[Instr]
    ensures { result.now ≡ drop at code.now }
{
    let at = at as usize;
    if at < code.len() { &code[at..] } else { &[] }
}

// The place of the first join, counted from the first of these instructions.
fn first_join(code: &[Instr]) -> Option<usize>
    ensures place { result ≡ position is_join code.now }
    ensures inside { IfSome result (λ place. place < length code.now) }
{
    code.iter().position(|instr| instr.op == 45)
}

// The place behind the join of the block that begins here.
fn behind_join(image: &Image, block: u32) -> u32
    requires small { IsSmall image.now }
    requires inside { block ≤ length image.now.code }
    ensures { result ≡ behind_join image.now block }
{
    match first_join(code_from(image.code.as_slice(), block)) {
        None => block,
        Some(place) => block + place as u32 + 1,
    }
}

// The reply to this request, at which the unit stands.
fn take_reply(image: &Image, start: &Start, unit: &mut Unit, asked: Request, reply: u64)
    requires small { IsSmall image.now }
    requires asks { next_of image.now start.now unit.old ≡ next.Ask asked }
    ensures { unit.new ≡ replied image.now start.now unit.old reply asked }
{
    match asked {
        Request::Spawn(ask) => goes(unit, behind_join(image, ask.at)),
        Request::Draw => draws(start, unit, reply),
        Request::Load(_) | Request::Store(_, _) | Request::Add(_, _) | Request::Print(_) => {
            take_word(image, unit, (reply % (1 << 32)) as u32);
        }
    }
    unit.waits = false;
}

/// Ends the waiting of a unit, and counts the step of what it asked for. `reply` is that of a load,
/// an add or a draw: of the first two its low 32 bits are taken; for a store, a print and a spawn
/// it isn't looked at. Of the master `start` isn't looked at.
pub fn answer(image: &Loaded, start: &Start, unit: &mut Unit, reply: u64)
    requires fits { UnitFits image.now start.now unit.old }
    requires start { HasStart image.now start.now unit.old }
    requires waits { unit.old.waits ≡ true }
    ensures unit { unit.new ≡ answered image.now start.now unit.old reply }
    ensures fits { UnitFits image.now start.now unit.new }
    // A unit stops exactly where it has drawn a number that isn't below the count.
    ensures stops { (unit.new.state ≡ state.Stopped) ↔ ((next_of image.now start.now unit.old ≡ next.Ask request.Draw) × (start.now.count ≤ reply)) }
{
    let image = image.image();
    if let Next::Ask(asked) = next(image, start, unit) {
        take_reply(image, start, unit, asked, reply);
    }
}
