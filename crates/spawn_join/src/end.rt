//! How a section ended.
ghost use Rattle.std.specs.Prelude.{◌≡◌, ◌≢◌, ℕ, ◌<◌, All, MatchOption, Some, None};
ghost use Rattle.xmt_base.specs.declared.values.Trap as values;
ghost use Rattle.xmt_isa.specs.Fits.{UnitFits, StartFits};
ghost use Rattle.unit_steps.specs.Steps.{HasSpent};
ghost use Rattle.spawn_join.specs.Ends.{FindsTrapped, IsFirstSpent, NoneSpent, EndsAs};

use crate::worker::Worker;
use image_loader::Loaded;
use tcu_engine::trap_at;
use xmt_base::Trap;
use xmt_isa::{Start, UnitState};

/// How a section ended. A unit that is named is the first of the list of which that holds.
#[derive(Clone, Copy, Debug, PartialEq, Eq)]
pub enum SectionEnd {
    /// Each unit has stopped.
    All,
    /// The number of the first unit that stands at a trap with steps below the budget, and its trap.
    Trap(u32, Trap),
    /// No unit stands at a trap; the number of the first that goes on and has done as many steps as the budget.
    Spent(u32),
    /// Nothing has run.
    NoMemory,
}

// The first unit that stands at a trap with steps below the budget.
fn first_trapped(
    image: &Loaded,
    start: &Start,
    budget: u64,
    workers: &[Worker],
) -> Option<(u32, Trap)>
    requires start { StartFits image.now start.now }
    requires fits { All (λ w. UnitFits image.now start.now w.unit) workers.now }
    ensures { FindsTrapped image.now start.now budget workers.now result }
{
    for worker in workers {
        if worker.unit.steps() < budget {
            if let Some(trap) = trap_at(image, start, &worker.unit) {
                return Some((worker.unit.number(), trap));
            }
        }
    }
    None
}

// The first unit that goes on and has done as many steps as the budget.
fn first_spent(budget: u64, workers: &[Worker]) -> Option<u32>
    ensures { MatchOption result (NoneSpent budget workers.now) (λ n. IsFirstSpent budget workers.now n) }
{
    for worker in workers {
        let ended = matches!(worker.unit.state, UnitState::Stopped | UnitState::Halted);
        if !ended && worker.unit.steps() == budget {
            return Some(worker.unit.number());
        }
    }
    None
}

// How the units ended.
pub(crate) fn end_of(image: &Loaded, start: &Start, budget: u64, workers: &[Worker]) -> SectionEnd
    requires start { StartFits image.now start.now }
    requires fits { All (λ w. UnitFits image.now start.now w.unit) workers.now }
    ensures { EndsAs image.now start.now budget workers.now result }
{
    if let Some((number, trap)) = first_trapped(image, start, budget, workers) {
        return SectionEnd::Trap(number, trap);
    }
    match first_spent(budget, workers) {
        Some(number) => SectionEnd::Spent(number),
        None => SectionEnd::All,
    }
}
