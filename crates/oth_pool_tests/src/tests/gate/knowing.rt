//! What a gate is told of the items that are searched.

use oth_search::{Interval, Solved};
use std::sync::atomic::{AtomicU64, Ordering};

// Counts the items whose first search began, those of which something was known by then, and those of which the search
// found something or nothing.
#[derive(Drop)]
pub(super) struct Knowing {
    begun: AtomicU64,
    early: AtomicU64,
    found: AtomicU64,
    left: AtomicU64,
}

impl Knowing {
    pub(super) fn new() -> Knowing {
        Knowing {
            begun: AtomicU64::new(0),
            early: AtomicU64::new(0),
            found: AtomicU64::new(0),
            left: AtomicU64::new(0),
        }
    }

    // The search of an item begins, of whose board this is known.
    pub(super) fn begin(&self, known: &Solved) {
        self.begun.fetch_add(1, Ordering::SeqCst);
        if known.interval != Interval::all() {
            self.early.fetch_add(1, Ordering::SeqCst);
        }
    }

    // That search has ended, and found these bounds.
    pub(super) fn end(&self, found: &Solved) {
        let count = if found.interval == Interval::all() {
            &self.left
        } else {
            &self.found
        };
        count.fetch_add(1, Ordering::SeqCst);
    }

    // Whether some items were searched, of at most `doubles` of these something was known before, and each search
    // ended; by one worker each found something.
    pub(super) fn is_fresh(&self, workers: u8, doubles: u64) -> bool {
        let found = self.found.load(Ordering::SeqCst);
        let left = self.left.load(Ordering::SeqCst);
        self.begun.load(Ordering::SeqCst) == found.saturating_add(left)
            && self.early.load(Ordering::SeqCst) <= doubles
            && found > 0
            && (workers > 1 || left == 0)
    }
}
