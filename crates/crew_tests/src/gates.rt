//! Gates that hold workers until others have come.

use qm_crew::Gate;
use std::hint::spin_loop;
use std::sync::atomic::{AtomicU64, Ordering};

/// How often a gate looks, at most, before it says that a worker is alone.
const LOOKS: u64 = 10_000_000;

/// Waits until a count is as great as a number; false where it was not at any of so many looks.
fn has_come(count: &AtomicU64, number: u64) -> bool {
    for _ in 0..LOOKS {
        if count.load(Ordering::SeqCst) >= number {
            return true;
        }
        spin_loop();
    }
    false
}

/// A gate that holds the worker of the first portal drawn until so many portals were drawn.
#[derive(Drop)]
pub(crate) struct FirstHeld {
    until: u64,
    drawn: AtomicU64,
    alone: AtomicU64,
}

impl FirstHeld {
    pub(crate) fn until(drawn: u64) -> FirstHeld {
        FirstHeld {
            until: drawn,
            drawn: AtomicU64::new(0),
            alone: AtomicU64::new(0),
        }
    }

    /// How many portals were drawn.
    pub(crate) fn drawn(&self) -> u64 {
        self.drawn.load(Ordering::SeqCst)
    }

    /// Whether a worker was held to the end.
    pub(crate) fn is_alone(&self) -> bool {
        self.alone.load(Ordering::SeqCst) != 0
    }
}

impl Gate for FirstHeld {
    fn at(&self, _portal: u64) {
        let before = self.drawn.fetch_add(1, Ordering::SeqCst);
        if before == 0 && !has_come(&self.drawn, self.until) {
            self.alone.store(1, Ordering::SeqCst);
        }
    }

    fn given(&self, _portal: u64, _source: u64, _k: u64, _word: u64) {}
}

/// A gate that holds the worker of one portal until that of another has come, and the other one until both have come and then a
/// further portal was drawn: so the first portal is published before the other one is flowed.
#[derive(Drop)]
pub(crate) struct OneBeforeOther {
    first: u64,
    other: u64,
    /// A leaf that the first portal's row loses.
    leaf: u64,
    first_came: AtomicU64,
    other_came: AtomicU64,
    further_came: AtomicU64,
    alone: AtomicU64,
    given_narrower: AtomicU64,
}

impl OneBeforeOther {
    pub(crate) fn new(first: u64, other: u64, leaf: u64) -> OneBeforeOther {
        OneBeforeOther {
            first,
            other,
            leaf,
            first_came: AtomicU64::new(0),
            other_came: AtomicU64::new(0),
            further_came: AtomicU64::new(0),
            alone: AtomicU64::new(0),
            given_narrower: AtomicU64::new(0),
        }
    }

    /// Whether a worker was held to the end.
    pub(crate) fn is_alone(&self) -> bool {
        self.alone.load(Ordering::SeqCst) != 0
    }

    /// Whether the flow of the other portal was given a word of the first one's row without the leaf.
    pub(crate) fn has_given_narrower(&self) -> bool {
        self.given_narrower.load(Ordering::SeqCst) != 0
    }

    fn hold_until(&self, came: &AtomicU64) {
        if !has_come(came, 1) {
            self.alone.store(1, Ordering::SeqCst);
        }
    }

    fn have_both_come(&self) -> bool {
        self.first_came.load(Ordering::SeqCst) != 0 && self.other_came.load(Ordering::SeqCst) != 0
    }
}

impl Gate for OneBeforeOther {
    fn at(&self, portal: u64) {
        if portal == self.first {
            self.first_came.store(1, Ordering::SeqCst);
            self.hold_until(&self.other_came);
        } else if portal == self.other {
            self.other_came.store(1, Ordering::SeqCst);
            self.hold_until(&self.further_came);
        } else if self.have_both_come() {
            self.further_came.store(1, Ordering::SeqCst);
        }
    }

    fn given(&self, portal: u64, source: u64, k: u64, word: u64) {
        let is_place = portal == self.other && source == self.first && k == self.leaf / 64;
        if is_place && (word >> (self.leaf % 64)) & 1 == 0 {
            self.given_narrower.store(1, Ordering::SeqCst);
        }
    }
}
