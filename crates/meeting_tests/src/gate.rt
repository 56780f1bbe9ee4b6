//! A gate at which two units wait for each other.
use spawn_join::Gate;
use std::hint;
use std::sync::atomic::{AtomicU64, Ordering};

/// How many calls of each unit wait for the other's.
pub(crate) const MEETINGS: u64 = 3;

// How many times a call looks for the other unit.
const LOOKS: u64 = 100_000_000;

/// What one unit has done at the gate.
#[derive(Drop)]
pub(crate) struct Side {
    calls: AtomicU64,
    met: AtomicU64,
}

impl Side {
    fn new() -> Self {
        Side {
            calls: AtomicU64::new(0),
            met: AtomicU64::new(0),
        }
    }

    /// How many calls the unit has made.
    pub(crate) fn calls(&self) -> u64 {
        self.calls.load(Ordering::SeqCst)
    }

    /// In how many calls it has seen the other unit in as many calls.
    pub(crate) fn met(&self) -> u64 {
        self.met.load(Ordering::SeqCst)
    }

    // Looks until the unit has made so many calls, and answers whether it has.
    fn comes_to(&self, calls: u64) -> bool {
        for _ in 0..LOOKS {
            if self.calls() >= calls {
                return true;
            }
            hint::spin_loop();
        }
        false
    }
}

/// A gate for two units. In each of its first calls a unit waits until the other has made as many. Once one has waited
/// in vain, nobody waits any more.
#[derive(Drop)]
pub(crate) struct MeetingGate {
    pub(crate) first: Side,
    pub(crate) second: Side,
    misses: AtomicU64,
}

impl MeetingGate {
    pub(crate) fn new() -> Self {
        MeetingGate {
            first: Side::new(),
            second: Side::new(),
            misses: AtomicU64::new(0),
        }
    }

    // A call of the unit with this side.
    fn meet(&self, own: &Side, other: &Side) {
        let call = own.calls.fetch_add(1, Ordering::SeqCst).saturating_add(1);
        if call > MEETINGS || self.misses.load(Ordering::SeqCst) > 0 {
            return;
        }
        let seen = match other.comes_to(call) {
            true => &own.met,
            false => &self.misses,
        };
        seen.fetch_add(1, Ordering::SeqCst);
    }
}

impl Gate for MeetingGate {
    fn pass(&self, unit: u32) {
        match unit {
            1 => self.meet(&self.first, &self.second),
            2 => self.meet(&self.second, &self.first),
            _ => {}
        }
    }
}
