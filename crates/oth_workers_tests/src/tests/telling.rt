//! That a gate is told what the table knew of an item before its first search.

ghost use Rattle.std.specs.Prelude.{◌≡◌, ◌≤◌, true};
ghost use Rattle.oth_rules.specs.Position.{empty_count};
ghost use Rattle.oth_rules.specs.Move.{can_move};

use super::BOARDS;
use super::announcing::line_to;
use super::ways::{by_one_of_several, by_only_worker};
use oth_pieces::Frontier;
use oth_rules::{Board, Scoring};
use oth_search::{Cells, Entry, NoCells, Solved};
use oth_walk::{Gate, Sharing};
use std::process::Abort;
use std::sync::atomic::{AtomicU64, Ordering};

// An upper bound of the value of each item.
const MOST: i8 = 62;

// Cells that know this bound of each board two plies below a root of `empties` empty squares, and keep nothing.
#[derive(Drop)]
struct Knowing {
    empties: u8,
}

impl Cells for Knowing {
    ghost Fixed = { Unit {0} };

    ghost fixed = { λ c. tt };

    fn look(&mut self, board: &Board, scoring: Scoring) -> Option<Entry> {
        if board.empties() + 2 != self.empties {
            return None;
        }
        let value = Solved::by_null_window(board, MOST - 1, &mut NoCells, scoring);
        let known = value.widen(-64, MOST)?;
        Some(Entry::canonical(&known))
    }

    fn put(&mut self, _entry: &Entry) {}
}

// Whether the cells know the bound of the board.
fn knows(cells: &mut Knowing, board: &Board) -> bool {
    let (least, _) = board.canonical();
    cells.look(&least, Scoring::Winner).is_some()
}

// Whether the cells know the bound of each item.
fn is_known(frontier: &Frontier, cells: &mut Knowing) -> bool {
    for number in 0..frontier.len() {
        let Some(board) = frontier.item(number) else {
            return false;
        };
        if !knows(cells, &board) {
            return false;
        }
    }
    true
}

// Counts the items that are searched, and those of which it is told before what the cells know.
#[derive(Drop)]
struct Told {
    searched: AtomicU64,
    known: AtomicU64,
}

impl Told {
    fn new() -> Told {
        Told {
            searched: AtomicU64::new(0),
            known: AtomicU64::new(0),
        }
    }

    // Fails unless some items were searched, and it was told what was known of each of these.
    fn check(&self, rt: &impl Abort) {
        let searched = self.searched.load(Ordering::SeqCst);
        assert!(rt; searched > 0);
        assert!(rt; self.known.load(Ordering::SeqCst) == searched);
    }
}

impl Gate for Told {
    fn before(&self, _task: u32) {}

    fn after(&self, _task: u32) {}

    fn known_before(&self, _task: u32, known: &Solved) {
        self.searched.fetch_add(1, Ordering::SeqCst);
        if known.interval.upper == MOST {
            self.known.fetch_add(1, Ordering::SeqCst);
        }
    }
}

// The gate is told so by the only worker, and by one of several.
fn check_told<R: AllocGlobal + Abort>(rt: &R, root: &Board)
    requires few { empty_count root.now ≤ 30 }
    requires some { can_move root.now ≡ true }
{
    let frontier = Frontier::of(root, 2);
    let empties = root.empties();
    assert!(rt; is_known(&frontier, &mut Knowing { empties }));
    let gate = Told::new();
    by_only_worker(rt, root, Knowing { empties }, &gate);
    gate.check(rt);
    for sharing in [Sharing::Apart, Sharing::OverTable] {
        let gate = Told::new();
        by_one_of_several(rt, root, sharing, Knowing { empties }, &gate);
        gate.check(rt);
    }
}

#[test]
fn a_gate_is_told_what_the_table_knew_of_an_item_before_its_search(rt: HostRuntime) {
    check_told(&rt, &line_to(&rt, BOARDS[1], 12));
    check_told(&rt, &line_to(&rt, BOARDS[2], 11));
}
