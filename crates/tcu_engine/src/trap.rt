//! The traps of units.
ghost use Rattle.std.specs.Prelude.{◌≡◌, ◌↔◌, Some, None, slice_index};
ghost use Rattle.xmt_base.specs.declared.values.Trap as spec;
ghost use Rattle.xmt_isa.specs.Fits.{UnitFits};
ghost use Rattle.xmt_isa.specs.Picked.{is_live};
ghost use Rattle.unit_steps.specs.Steps.{StandsAtTrap};
ghost use Rattle.unit_steps.specs.Keeps.{HasStart};
ghost use Rattle.tcu_engine.specs.Looks.{trap_of};

use crate::cells::look;
use crate::units::next;
use image_loader::Loaded;
use xmt_base::{Trap, TrapKind};
use xmt_isa::{Image, Next, Start, Unit, UnitState};

// Neither stopped nor halted.
fn is_live(state: UnitState) -> bool
    ensures { result ≡ is_live state }
{
    match state {
        UnitState::Draws | UnitState::Runs => true,
        UnitState::Stopped | UnitState::Halted => false,
    }
}

/// A trap of this kind where the unit stands.
pub(crate) fn trap_of(image: &Image, unit: &Unit, kind: TrapKind) -> Trap
    ensures { result ≡ trap_of image.now unit.now kind }
{
    Trap {
        kind,
        line: look(image.lines.as_slice(), unit.at as usize),
        thread: unit.thread,
    }
}

/// The trap at which the unit stands: its kind, the line of the instruction, and the number of the
/// virtual thread. Of the master `start` isn't looked at.
pub fn trap_at(image: &Loaded, start: &Start, unit: &Unit) -> Option<Trap>
    requires fits { UnitFits image.now start.now unit.now }
    requires start { HasStart image.now start.now unit.now }
    ensures trap { (trap : spec.Trap) → (result ≡ Some trap) ↔ StandsAtTrap image.now start.now unit.now trap }
    ensures none { (result ≡ None) ↔ ((trap : spec.Trap) → ¬ StandsAtTrap image.now start.now unit.now trap) }
{
    if !is_live(unit.state) {
        return None;
    }
    let image = image.image();
    match next(image, start, unit) {
        Next::Trap(kind) => Some(trap_of(image, unit, kind)),
        Next::Local | Next::Ask(_) => None,
    }
}
