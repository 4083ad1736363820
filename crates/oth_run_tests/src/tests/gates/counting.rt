//! A gate that counts what it hears of a run, and what it is to hear of searches of boards.

use oth_pool::{Frontier, Gate};
use oth_rules::{Board, Square};
use oth_search::{Interval, MOST_EMPTIES, Solved};
use std::sync::atomic::{AtomicU64, Ordering};

// How many searches of boards there are, of how many items, and the sum of the items' weights.
#[derive(Clone, Copy, Debug, Default, PartialEq, Eq)]
pub(super) struct Heard {
    boards: u64,
    items: u64,
    weights: u64,
}

impl Heard {
    // With a search of this board too.
    pub(super) fn and(self, board: &Board) -> Heard {
        if board.empties() > MOST_EMPTIES {
            return self;
        }
        let mut all = self;
        all.boards = all.boards.wrapping_add(1);
        for task in 0..Frontier::of(board, 2).len() {
            all.items = all.items.wrapping_add(1);
            all.weights = all.weights.wrapping_add(weight(task));
        }
        all
    }

    // With a search of the board after each move of this one; where its mover must pass, with one of the board itself.
    pub(super) fn and_below(self, root: &Board) -> Heard {
        if !root.can_move() {
            return self.and(root);
        }
        let mut all = self;
        for number in 0..64 {
            if let Some(child) = root.play(Square::numbered(number)) {
                if !child.is_over() {
                    all = all.and(&child);
                }
            }
        }
        all
    }
}

// A number of the item's own, so that sums tell which items there were, though boards that are searched side by side
// have items of the same numbers.
fn weight(task: u32) -> u64 {
    let mixed = u64::from(task)
        .wrapping_add(1)
        .wrapping_mul(0x9e37_79b9_7f4a_7c15);
    mixed ^ (mixed >> 29)
}

// Counts the searches of boards, the items that are announced and whose search has ended, and the items that are
// searched: all, those of which something was known before, and those of which nothing was found.
#[derive(Drop)]
pub(super) struct Counting {
    searched: AtomicU64,
    early: AtomicU64,
    left: AtomicU64,
    boards: AtomicU64,
    begun: AtomicU64,
    ended: AtomicU64,
    weights_begun: AtomicU64,
    weights_ended: AtomicU64,
}

impl Counting {
    pub(super) fn new() -> Counting {
        Counting {
            searched: AtomicU64::new(0),
            early: AtomicU64::new(0),
            left: AtomicU64::new(0),
            boards: AtomicU64::new(0),
            begun: AtomicU64::new(0),
            ended: AtomicU64::new(0),
            weights_begun: AtomicU64::new(0),
            weights_ended: AtomicU64::new(0),
        }
    }

    // Whether some of the items were searched, nothing was known of any of these before, and something was found of
    // each.
    pub(super) fn is_fresh(&self) -> bool {
        self.searched.load(Ordering::SeqCst) > 0
            && self.early.load(Ordering::SeqCst) == 0
            && self.left.load(Ordering::SeqCst) == 0
    }

    // Whether this number of searches of boards was begun.
    pub(super) fn has_begun(&self, boards: u64) -> bool {
        self.boards.load(Ordering::SeqCst) == boards
    }

    // Whether each of these items was announced once, and its search ended once, and no others.
    pub(super) fn has_heard(&self, all: Heard) -> bool {
        self.boards.load(Ordering::SeqCst) == all.boards
            && self.begun.load(Ordering::SeqCst) == all.items
            && self.ended.load(Ordering::SeqCst) == all.items
            && self.weights_begun.load(Ordering::SeqCst) == all.weights
            && self.weights_ended.load(Ordering::SeqCst) == all.weights
    }
}

impl Gate for Counting {
    fn begins(&self, _board: &Board) {
        let _ = self.boards.fetch_add(1, Ordering::SeqCst);
    }

    fn before(&self, task: u32) {
        let _ = self.begun.fetch_add(1, Ordering::SeqCst);
        let _ = self.weights_begun.fetch_add(weight(task), Ordering::SeqCst);
    }

    fn after(&self, task: u32) {
        let _ = self.ended.fetch_add(1, Ordering::SeqCst);
        let _ = self.weights_ended.fetch_add(weight(task), Ordering::SeqCst);
    }

    fn known_before(&self, _task: u32, known: &Solved) {
        let _ = self.searched.fetch_add(1, Ordering::SeqCst);
        if known.interval != Interval::all() {
            let _ = self.early.fetch_add(1, Ordering::SeqCst);
        }
    }

    fn known_after(&self, _task: u32, found: &Solved) {
        if found.interval == Interval::all() {
            let _ = self.left.fetch_add(1, Ordering::SeqCst);
        }
    }
}

// A search of each of these boards.
pub(super) fn searches_of(boards: &[Board]) -> Heard {
    let mut all = Heard::default();
    for board in boards {
        all = all.and(board);
    }
    all
}
