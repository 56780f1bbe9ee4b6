//! A gate that lets units go on two by two, so that threads of few steps run at the same time.
use spawn_join::Gate;
use std::hint;
use std::sync::atomic::{AtomicU64, Ordering};

// How many times a call looks for the next one.
const LOOKS: u64 = 20_000;

// After so many calls that have waited in vain nobody waits any more.
const MOST_MISSES: u64 = 3;

/// Each call with an odd number waits for the next one.
#[derive(Drop)]
pub(crate) struct PairGate {
    calls: AtomicU64,
    misses: AtomicU64,
}

impl PairGate {
    pub(crate) fn new() -> Self {
        PairGate {
            calls: AtomicU64::new(0),
            misses: AtomicU64::new(0),
        }
    }

    // Looks until there have been so many calls, and answers whether there have.
    fn comes_to(&self, calls: u64) -> bool {
        for _ in 0..LOOKS {
            if self.calls.load(Ordering::SeqCst) >= calls {
                return true;
            }
            hint::spin_loop();
        }
        false
    }

    fn is_open(&self) -> bool {
        self.misses.load(Ordering::SeqCst) >= MOST_MISSES
    }
}

impl Gate for PairGate {
    fn pass(&self, _unit: u32) {
        let call = self.calls.fetch_add(1, Ordering::SeqCst).saturating_add(1);
        if call % 2 == 1 && !self.is_open() && !self.comes_to(call.saturating_add(1)) {
            self.misses.fetch_add(1, Ordering::SeqCst);
        }
    }
}
