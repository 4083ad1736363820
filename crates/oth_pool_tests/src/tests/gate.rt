//! What a gate hears, and that two workers work at once.

mod announcing;
mod at_once;
mod following;
mod knowing;

use super::crews::BOARDS;
use super::fixtures::board_of;
use super::{A, B, C, CORNERS};
use knowing::Knowing;
use oth_pieces::Frontier;
use oth_pool::solve;
use oth_rules::{Board, Scoring};
use oth_search::Solved;
use oth_walk::Gate;
use std::alloc::Global;
use std::sync::atomic::{AtomicU64, Ordering};
use std::thread::Threads;

// Four bits for each of the first 16 items count how often it is heard of.
#[derive(Drop)]
pub(super) struct Hearing {
    before: AtomicU64,
    after: AtomicU64,
    others: AtomicU64,
}

impl Hearing {
    pub(super) fn new() -> Self {
        Hearing {
            before: AtomicU64::new(0),
            after: AtomicU64::new(0),
            others: AtomicU64::new(0),
        }
    }

    fn count(&self, calls: &AtomicU64, task: u32) {
        if task < 16 {
            calls.fetch_add(1 << (4 * task), Ordering::SeqCst);
        } else {
            self.others.fetch_add(1, Ordering::SeqCst);
        }
    }

    // Whether each of the first `items` items was heard of once before its search and once after, and no other item.
    pub(super) fn heard_once(&self, items: u32) -> bool {
        let mut once = 0;
        for item in 0..items.min(16) {
            once |= 1u64 << (4 * item);
        }
        self.before.load(Ordering::SeqCst) == once
            && self.after.load(Ordering::SeqCst) == once
            && self.others.load(Ordering::SeqCst) == 0
    }
}

impl Gate for Hearing {
    fn before(&self, task: u32) {
        self.count(&self.before, task);
    }

    fn after(&self, task: u32) {
        self.count(&self.after, task);
    }
}

fn by_two<R: Threads + Sync, G: Gate>(
    rt: &R,
    alloc: Global,
    words: [u64; 2],
    cells: u32,
    gate: &G,
) -> Option<(i8, u64)> {
    let board = Board::of(words[0], words[1]).ok()?;
    let answer = solve(rt, alloc, &board, 2, cells, gate, None, Scoring::Winner).ok()?;
    Some((answer.score, answer.best))
}

fn alone<R: Threads + Sync, G: Gate>(
    rt: &R,
    alloc: Global,
    words: [u64; 2],
    gate: &G,
) -> Option<(i8, u64)> {
    let board = Board::of(words[0], words[1]).ok()?;
    let answer = solve(rt, alloc, &board, 1, 64, gate, None, Scoring::Winner).ok()?;
    Some((answer.score, answer.best))
}

#[test]
fn the_gate_hears_each_item_once(rt: HostRuntime) {
    let gate = Hearing::new();
    let found = by_two(&rt, rt.alloc(), CORNERS, 0, &gate);
    assert!(rt; found == Some((64, 0x8100_0000_0000_0081)));
    assert!(rt; gate.heard_once(12));
}

#[test]
fn the_gate_hears_each_item_once_from_one_worker(rt: HostRuntime) {
    let gate = Hearing::new();
    let found = alone(&rt, rt.alloc(), CORNERS, &gate);
    assert!(rt; found == Some((64, 0x8100_0000_0000_0081)));
    assert!(rt; gate.heard_once(12));
}

// How many searches began and ended, the sums of the items' weights, and of how many boards there were how many items.
#[derive(Drop)]
pub(super) struct Counting {
    begun: AtomicU64,
    ended: AtomicU64,
    weights_begun: AtomicU64,
    weights_ended: AtomicU64,
    boards: AtomicU64,
    promised: AtomicU64,
    known: Knowing,
}

impl Counting {
    pub(super) fn new() -> Self {
        Counting {
            begun: AtomicU64::new(0),
            ended: AtomicU64::new(0),
            weights_begun: AtomicU64::new(0),
            weights_ended: AtomicU64::new(0),
            boards: AtomicU64::new(0),
            promised: AtomicU64::new(0),
            known: Knowing::new(),
        }
    }

    // Whether some items were searched, and something was known before of at most `doubles` of these.
    pub(super) fn is_fresh(&self, workers: u8, doubles: u64) -> bool {
        self.known.is_fresh(workers, doubles)
    }

    // Whether it heard of this number of boards, and of each of their items, by number and weights, once.
    pub(super) fn heard_all(&self, boards: u64, items: u64, weights: u64) -> bool {
        self.boards.load(Ordering::SeqCst) == boards
            && self.promised.load(Ordering::SeqCst) == items
            && self.begun.load(Ordering::SeqCst) == items
            && self.ended.load(Ordering::SeqCst) == items
            && self.weights_begun.load(Ordering::SeqCst) == weights
            && self.weights_ended.load(Ordering::SeqCst) == weights
    }
}

// A number of the item's own, so that sums tell which items there were, though boards that are searched side by side
// have items of the same numbers.
fn weight(task: u32) -> u64 {
    let mixed = u64::from(task)
        .wrapping_add(1)
        .wrapping_mul(0x9e37_79b9_7f4a_7c15);
    mixed ^ (mixed >> 29)
}

// The number of items of the board, and the sum of their weights.
pub(super) fn items_of(board: &Board) -> (u64, u64) {
    if board.empties() > 30 {
        return (0, 0);
    }
    let items = Frontier::of(board, 2).len();
    let mut weights = 0u64;
    for task in 0..items {
        weights = weights.wrapping_add(weight(task));
    }
    (u64::from(items), weights)
}

impl Gate for Counting {
    fn begins(&self, board: &Board) {
        self.boards.fetch_add(1, Ordering::SeqCst);
        self.promised.fetch_add(items_of(board).0, Ordering::SeqCst);
    }

    fn before(&self, task: u32) {
        self.begun.fetch_add(1, Ordering::SeqCst);
        self.weights_begun.fetch_add(weight(task), Ordering::SeqCst);
    }

    fn after(&self, task: u32) {
        self.ended.fetch_add(1, Ordering::SeqCst);
        self.weights_ended.fetch_add(weight(task), Ordering::SeqCst);
    }

    fn known_before(&self, _task: u32, known: &Solved) {
        self.known.begin(known);
    }

    fn known_after(&self, _task: u32, found: &Solved) {
        self.known.end(found);
    }
}

#[test]
fn one_worker_announces_as_many_items_as_the_frontier_has(rt: HostRuntime) {
    for words in [A, B, C, CORNERS, BOARDS[0]] {
        let gate = Counting::new();
        let (items, weights) = items_of(&board_of(&rt, words));
        assert!(rt; alone(&rt, rt.alloc(), words, &gate).is_some());
        assert!(rt; gate.heard_all(1, items, weights));
    }
}

#[test]
fn a_finished_board_is_not_announced(rt: HostRuntime) {
    let gate = Hearing::new();
    let found = by_two(&rt, rt.alloc(), [0, u64::MAX], 64, &gate);
    assert!(rt; found == Some((-64, 0)));
    assert!(rt; gate.heard_once(0));
}
