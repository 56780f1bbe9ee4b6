//! Running a unit until it asks for something.
ghost use Rattle.std.specs.Prelude.{◌≡◌, ◌≢◌, ◌↔◌, ◌≤◌, if◌then◌else◌, true, false};
ghost use Rattle.xmt_base.specs.declared.values.Trap.{Trap};
ghost use Rattle.xmt_isa.specs.declared.unit.Request.{Request};
ghost use Rattle.xmt_isa.specs.declared.unit.Next.TheVariants as next;
ghost use Rattle.xmt_isa.specs.declared.unit.UnitState.TheVariants as state;
ghost use Rattle.xmt_isa.specs.Picked.{is_live};
ghost use Rattle.xmt_isa.specs.Step.{next_of, local_of, is_due, more};
ghost use Rattle.xmt_isa.specs.Valid.{IsValid};
ghost use Rattle.xmt_isa.specs.Fits.{UnitFits, StartFits};
ghost use Rattle.unit_steps.specs.Steps.{is_new_master, DoesNext, HasSpent, StandsAtTrap};
ghost use Rattle.unit_steps.specs.Keeps.{HasStart, IsThere};
ghost use Rattle.tcu_engine.specs.Asks.{ask_of, is_request, HasAdvanced};
ghost use Rattle.tcu_engine.specs.Looks.{is_at, at_next, HasPlace, HasRun};
ghost use Rattle.tcu_engine.specs.Sizes.{IsSmall};

use crate::ask::Ask;
use crate::trap::trap_of;
use crate::units::{begin, next, run_local};
use image_loader::Loaded;
use xmt_isa::{Image, Next, Request, Start, Unit, UnitState};

// The answer by which a unit asks for something.
fn ask_of(asked: Request) -> Ask
    requires { HasPlace asked }
    ensures { result ≡ ask_of asked }
{
    match asked {
        Request::Load(word) => Ask::Load(word as u32),
        Request::Store(word, value) => Ask::Store(word as u32, value),
        Request::Add(word, value) => Ask::Add(word as u32, value),
        Request::Draw => Ask::Draw,
        Request::Print(text) => Ask::Print(text),
        Request::Spawn(ask) => Ask::Spawn(ask),
    }
}

// A unit that has asked for something waits for the reply.
fn is_request(ask: Ask) -> bool
    ensures { result ≡ is_request ask }
{
    match ask {
        Ask::Load(_)
        | Ask::Store(_, _)
        | Ask::Add(_, _)
        | Ask::Draw
        | Ask::Print(_)
        | Ask::Spawn(_) => true,
        Ask::Pause | Ask::Stopped | Ask::Halt | Ask::Trap(_) | Ask::Spent => false,
    }
}

// What a unit with steps left is at, by what it does next.
fn at_next(image: &Image, unit: &Unit, coming: Next) -> Ask
    requires { (asked : Request) → coming ≡ next.Ask asked → HasPlace asked }
    ensures { result ≡ at_next image.now unit.now coming }
{
    match coming {
        Next::Local => Ask::Pause,
        Next::Trap(kind) => Ask::Trap(trap_of(image, unit, kind)),
        Next::Ask(asked) => ask_of(asked),
    }
}

// What a unit is at; a pause is an instruction of its own that it can run.
fn look_at(image: &Image, start: &Start, unit: &Unit, budget: u64) -> Ask
    requires small { IsSmall image.now }
    requires places { (asked : Request) → is_live unit.now.state ≡ true → next_of image.now start.now unit.now ≡ next.Ask asked → HasPlace asked }
    ensures { result ≡ is_at image.now start.now budget unit.now }
{
    match unit.state {
        UnitState::Halted => Ask::Halt,
        UnitState::Stopped => Ask::Stopped,
        UnitState::Draws | UnitState::Runs => {
            if unit.counts.steps == budget {
                Ask::Spent
            } else {
                at_next(image, unit, next(image, start, unit))
            }
        }
    }
}

// The unit runs, and isn't due to draw.
fn is_running(state: UnitState) -> bool
    ensures live { result ≡ true → is_live state ≡ true }
    ensures due { result ≡ true → is_due state ≡ false }
    ensures runs { is_live state ≡ true → is_due state ≡ false → result ≡ true }
{
    match state {
        UnitState::Runs => true,
        UnitState::Draws | UnitState::Stopped | UnitState::Halted => false,
    }
}

// Runs the unit's next instruction if it touches the unit alone, and says whether it does.
fn step(image: &Image, start: &Start, unit: &mut Unit, budget: u64) -> bool
    requires small { IsSmall image.now }
    requires within { unit.old.counts.steps ≤ budget }
    ensures local { (result ≡ true) ↔ DoesNext image.now start.now budget unit.old next.Local }
    ensures unit { unit.new ≡ (if result then local_of image.now start.now unit.old else unit.old) }
    ensures steps { result ≡ true → unit.new.counts.steps ≡ more unit.old.counts.steps }
{
    is_running(unit.state) && unit.counts.steps < budget && run_local(image, start, unit)
}

// Runs at most so many instructions of the unit's own, and says what it is at then.
fn run(image: &Image, start: &Start, unit: &mut Unit, budget: u64, most: u32) -> Ask
    requires valid { IsValid image.now }
    requires fits { UnitFits image.now start.now unit.old }
    requires start { HasStart image.now start.now unit.old }
    requires free { unit.old.waits ≡ false }
    requires begun { is_new_master unit.old ≡ false }
    requires within { unit.old.counts.steps ≤ budget }
    ensures ask { result ≡ is_at image.now start.now budget unit.new }
    ensures run { HasRun image.now start.now budget most unit.old unit.new result }
    ensures fits { UnitFits image.now start.now unit.new }
    ensures start { HasStart image.now start.now unit.new }
    ensures free { unit.new.waits ≡ false }
    ensures begun { is_new_master unit.new ≡ false }
    ensures within { unit.new.counts.steps ≤ budget }
{
    let mut done = 0;
    while done < most {
        if !step(image, start, unit, budget) {
            return look_at(image, start, unit, budget);
        }
        done += 1;
    }
    look_at(image, start, unit, budget)
}

/// Runs at most `most` instructions that touch the unit alone, and answers what comes then. The
/// unit is looked at in this order: it has halted, it has stopped, it has done `budget` steps, its
/// next instruction traps, it asks for something that is shared, `most` instructions were run. A
/// unit that asks waits for its reply, and its step is counted when that is answered. A master that
/// is due to begin begins. Of the master `start` isn't looked at.
pub fn advance(image: &Loaded, start: &Start, unit: &mut Unit, budget: u64, most: u32) -> Ask
    requires fits { UnitFits image.now start.now unit.old }
    requires start { HasStart image.now start.now unit.old }
    requires free { unit.old.waits ≡ false }
    requires within { unit.old.counts.steps ≤ budget }
    ensures advanced { HasAdvanced image.now start.now budget most unit.old unit.new result }
    // When each answer comes.
    ensures halt { (result ≡ Ask.Halt) ↔ (unit.new.state ≡ state.Halted) }
    ensures stopped { (result ≡ Ask.Stopped) ↔ (unit.new.state ≡ state.Stopped) }
    ensures spent { (result ≡ Ask.Spent) ↔ HasSpent budget unit.new }
    ensures trap { (trap : Trap) → (result ≡ Ask.Trap trap) ↔ (DoesNext image.now start.now budget unit.new (next.Trap trap.kind) × StandsAtTrap image.now start.now unit.new trap) }
    ensures asks { (request : Request) → (result ≡ ask_of request) ↔ DoesNext image.now start.now budget unit.new (next.Ask request) }
    ensures pause { (result ≡ Ask.Pause) ↔ DoesNext image.now start.now budget unit.new next.Local }
    // What it asks for is there.
    ensures there { (request : Request) → result ≡ ask_of request → IsThere image.now request }
    // What holds of the unit then.
    ensures waits { unit.new.waits ≡ is_request result }
    ensures fits { UnitFits image.now start.now unit.new }
    ensures within { unit.new.counts.steps ≤ budget }
{
    let image = image.image();
    begin(image, unit);
    let ask = run(image, start, unit, budget, most);
    unit.waits = is_request(ask);
    ask
}
