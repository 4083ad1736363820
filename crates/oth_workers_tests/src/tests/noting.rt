//! Gates that count what they hear of each item, and cells that note of which items something is found.

use super::announcing::image;
use oth_pieces::{Frontier, awake};
use oth_rules::{Board, Scoring};
use oth_search::{Cells, Entry, Interval, Solved};
use oth_walk::{Gate, ItemSet};
use std::process::Abort;
use std::sync::atomic::{AtomicU64, Ordering};
use std::thread::join;

// Of how many items something was found between the two calls, and of how many nothing: of those that were announced
// before one of the former, and of those that came last.
#[derive(Clone, Copy, Debug)]
pub(super) struct Counts {
    pub searched: u64,
    pub left: u64,
    pub last: u64,
}

impl Counts {
    pub(super) fn items(self) -> u64 {
        self.searched
            .saturating_add(self.left)
            .saturating_add(self.last)
    }

    // Whether something was found of at least a tenth of the items between the two calls.
    pub(super) fn are_of_searches(self) -> bool {
        self.searched.saturating_mul(10) >= self.items()
    }

    // Whether something was found so of between a tenth and a half of the items: of the others none was needed, since
    // their move was settled by bounds.
    pub(super) fn are_few_searched(self) -> bool {
        self.are_of_searches() && self.searched.saturating_mul(2) <= self.items()
    }
}

// What a gate has heard of each item, and what was known of it then.
#[derive(Drop)]
pub(super) struct Tally {
    begun: ItemSet,
    ended: ItemSet,
    // How many calls came a second time or without the one before, and how many items were known when announced.
    wrong: AtomicU64,
    early: AtomicU64,
    // As `Counts` has them.
    searched: AtomicU64,
    left: AtomicU64,
    last: AtomicU64,
}

impl Tally {
    pub(super) fn new() -> Tally {
        Tally {
            begun: ItemSet::new(),
            ended: ItemSet::new(),
            wrong: AtomicU64::new(0),
            early: AtomicU64::new(0),
            searched: AtomicU64::new(0),
            left: AtomicU64::new(0),
            last: AtomicU64::new(0),
        }
    }

    // The item is announced, of which something is known by then or not.
    pub(super) fn begin(&self, task: u32, is_known: bool) {
        if !self.begun.add(task) {
            self.wrong.fetch_add(1, Ordering::SeqCst);
        }
        if is_known {
            self.early.fetch_add(1, Ordering::SeqCst);
        }
    }

    // The search of the item has ended, of which something is known by then or not.
    pub(super) fn end(&self, task: u32, is_known: bool) {
        if !self.begun.has(task) || !self.ended.add(task) {
            self.wrong.fetch_add(1, Ordering::SeqCst);
        }
        if is_known {
            self.searched.fetch_add(1, Ordering::SeqCst);
            let idle = self.last.swap(0, Ordering::SeqCst);
            self.left.fetch_add(idle, Ordering::SeqCst);
        } else {
            self.last.fetch_add(1, Ordering::SeqCst);
        }
    }

    // How many items there were. Fails unless it has heard once of each of `items`, before anything was known of it.
    pub(super) fn counts(&self, rt: &impl Abort, items: u32) -> Counts {
        let counts = Counts {
            searched: self.searched.load(Ordering::SeqCst),
            left: self.left.load(Ordering::SeqCst),
            last: self.last.load(Ordering::SeqCst),
        };
        assert!(rt; self.wrong.load(Ordering::SeqCst) == 0);
        assert!(rt; self.early.load(Ordering::SeqCst) == 0);
        assert!(rt; counts.items() == u64::from(items));
        counts
    }
}

// Looks at each call whether something was found of the item, and counts the items whose search is told to have found
// nothing.
#[derive(Drop)]
pub(super) struct Noticing<'n> {
    found: &'n ItemSet,
    tally: Tally,
    given_up: AtomicU64,
}

impl<'n> Noticing<'n> {
    pub(super) fn of(found: &'n ItemSet) -> Noticing<'n> {
        Noticing {
            found,
            tally: Tally::new(),
            given_up: AtomicU64::new(0),
        }
    }

    // How many items there were. Fails unless it has heard once of each of `items`, before anything was found of it,
    // and something was found of a tenth of them between the two calls.
    pub(super) fn check(&self, rt: &impl Abort, items: u32) -> Counts {
        let counts = self.tally.counts(rt, items);
        assert!(rt; counts.are_of_searches(), "{counts:?}");
        counts
    }

    // As `check`, where nobody else ends the search of an item: those of which nothing was found came last, since no
    // search needed them, and of each other one the gate was told what its search found.
    pub(super) fn check_alone(&self, rt: &impl Abort, items: u32) -> Counts {
        let counts = self.check(rt, items);
        assert!(rt; counts.left == 0, "{counts:?}");
        assert!(rt; self.given_up.load(Ordering::SeqCst) == 0);
        counts
    }
}

impl<'n> Gate for Noticing<'n> {
    fn before(&self, task: u32) {
        self.tally.begin(task, self.found.has(task));
    }

    fn after(&self, task: u32) {
        self.tally.end(task, self.found.has(task));
    }

    fn known_after(&self, _task: u32, found: &Solved) {
        if found.interval == Interval::all() {
            self.given_up.fetch_add(1, Ordering::SeqCst);
        }
    }
}

// Cells that keep nothing, and note of which items something is found.
#[derive(Drop)]
pub(super) struct Noting<'n> {
    frontier: &'n Frontier,
    found: &'n ItemSet,
    empties: u8,
}

impl<'n> Noting<'n> {
    // Cells of the search of a board of `empties` empty squares.
    pub(super) fn of(frontier: &'n Frontier, found: &'n ItemSet, empties: u8) -> Noting<'n> {
        Noting {
            frontier,
            found,
            empties,
        }
    }

    fn note(&self, board: &Board) {
        if board.empties() + 2 != self.empties {
            return;
        }
        let least = awake(*board).0.canonical().0;
        for number in 0..self.frontier.len() {
            if image(self.frontier, number) == Some(least) {
                self.found.add(number);
            }
        }
    }
}

impl<'n> Cells for Noting<'n> {
    ghost Fixed = { Unit {0} };

    ghost fixed = { λ c. tt };

    fn look(&mut self, _board: &Board, _scoring: Scoring) -> Option<Entry> {
        None
    }

    fn put(&mut self, entry: &Entry) {
        self.note(&entry.solved().board);
    }

    fn store_local(&mut self, solved: &Solved) {
        self.note(&solved.board);
    }
}

// How many of 870 items this thread adds to the set. It begins as soon as both threads are there, so that they race for
// each item.
fn added(items: &ItemSet, there: &AtomicU64) -> u64 {
    there.fetch_add(1, Ordering::SeqCst);
    for _ in 0..1_000_000 {
        if there.load(Ordering::SeqCst) > 1 {
            break;
        }
    }
    let mut added = 0u64;
    for number in 0..870 {
        if items.add(number) {
            added = added.saturating_add(1);
        }
    }
    added
}

#[test]
fn each_item_is_taken_by_one_of_two_threads(rt: HostRuntime) {
    for _ in 0..200 {
        let items = ItemSet::new();
        let there = AtomicU64::new(0);
        let (one, other) = join(
            &rt,
            || { added(&items, &there) },
            || { added(&items, &there) },
        );
        assert!(rt; one.saturating_add(other) == 870);
        assert!(rt; items.has(869) && !items.has(870) && !items.add(900));
    }
}
