//! Each crew announces each item once, before anything is known of it, also where a side must pass.

use super::super::crews::{BOARDS, TABLES, WITH_PASSES};
use super::super::fixtures::{answer_of, board_of};
use super::items_of;
use super::knowing::Knowing;
use oth_pieces::Frontier;
use oth_pool::solve;
use oth_rules::samples::least_moves_from;
use oth_rules::{Board, Scoring, Square};
use oth_search::{Answer, Interval, Solved};
use oth_walk::{Gate, ItemSet};
use std::process::Abort;
use std::sync::atomic::{AtomicU64, Ordering};
use std::thread::Threads;

// A board of 9 empty squares, where c3 ends the game and three other moves don't.
const ENDING: [u64; 2] = [0xfffd_6ff5_fbdb_d9ff, 0x0400_0400];

// Hears of each item, and counts the calls that came a second time or without the one before. Of an item that is
// searched it hears what is known, right before each call: it counts too what is of another board, and a finished board
// of which nothing was found.
#[derive(Drop)]
struct Once {
    root: Board,
    begun: ItemSet,
    ended: ItemSet,
    items: AtomicU64,
    wrong: AtomicU64,
    known: Knowing,
}

impl Once {
    fn of(root: &Board) -> Once {
        Once {
            root: *root,
            begun: ItemSet::new(),
            ended: ItemSet::new(),
            items: AtomicU64::new(0),
            wrong: AtomicU64::new(0),
            known: Knowing::new(),
        }
    }

    // Whether it has heard once of each of `items`.
    fn heard(&self, items: u64) -> bool {
        self.wrong.load(Ordering::SeqCst) == 0 && self.items.load(Ordering::SeqCst) == items
    }

    // Whether this is the board of the item of this number.
    fn is_item(&self, task: u32, board: &Board) -> bool {
        self.root.empties() <= 30 && Frontier::of(&self.root, 2).item(task) == Some(*board)
    }

    // Counts this call, if it is one too many.
    fn count_wrong(&self, is_wrong: bool) {
        if is_wrong {
            self.wrong.fetch_add(1, Ordering::SeqCst);
        }
    }
}

impl Gate for Once {
    fn before(&self, task: u32) {
        self.count_wrong(!self.begun.add(task));
    }

    fn after(&self, task: u32) {
        self.count_wrong(!self.begun.has(task) || !self.ended.add(task));
        self.items.fetch_add(1, Ordering::SeqCst);
    }

    fn known_before(&self, task: u32, known: &Solved) {
        self.count_wrong(self.begun.has(task) || !self.is_item(task, &known.board));
        self.known.begin(known);
    }

    fn known_after(&self, task: u32, found: &Solved) {
        self.count_wrong(!self.begun.has(task) || self.ended.has(task));
        self.count_wrong(!self.is_item(task, &found.board));
        self.count_wrong(found.board.is_over() && found.interval == Interval::all());
        self.known.end(found);
    }
}

// The gate of `solve` by this number of workers and of cells hears once of each of the items of the answer's board, and
// of those that are searched before anything is known of them.
fn check_heard_by<R: Threads + Sync + AllocGlobal + Abort>(
    rt: &R,
    alone: &Answer,
    workers: u8,
    cells: u32,
) {
    let gate = Once::of(&alone.board);
    let alloc = rt.alloc();
    let found = solve(
        rt,
        alloc,
        &alone.board,
        workers,
        cells,
        &gate,
        None,
        Scoring::Winner,
    );
    assert!(rt; found == Ok(*alone), "{workers} workers, {cells} cells");
    assert!(rt;
        gate.heard(items_of(&alone.board).0) && gate.known.is_fresh(workers, 0),
        "{workers} workers, {cells} cells"
    );
}

// Whether a side must pass in the first two plies, so that the root's mover isn't to move two plies below.
fn passes_below(root: &Board) -> bool {
    if root.empties() > 30 {
        return false;
    }
    let frontier = Frontier::of(root, 2);
    for number in 0..frontier.len() {
        if frontier.entry(number).is_some_and(|item| !item.same_mover) {
            return true;
        }
    }
    false
}

// Whether a move ends the game, so that the board after it is an item itself.
fn ends_by_a_move(root: &Board) -> bool {
    for number in 0..64 {
        if root
            .play(Square::numbered(number))
            .is_some_and(|child| child.is_over())
        {
            return true;
        }
    }
    false
}

// It does so by each number of workers and over each table.
fn check_heard_once<R: Threads + Sync + AllocGlobal + Abort>(rt: &R, root: &Board) {
    let alone = answer_of(rt, root, Scoring::Winner);
    for workers in [1, 2, 4, 16] {
        for cells in TABLES {
            check_heard_by(rt, &alone, workers, cells);
        }
    }
}

#[test]
fn each_crew_announces_each_item_once(rt: HostRuntime) {
    for (words, empties) in [(BOARDS[0], 13), (BOARDS[1], 11), (BOARDS[2], 9)] {
        let Some(root) = least_moves_from(board_of(&rt, words), empties) else {
            panic!(rt; "no line")
        };
        assert!(rt; root.empties() == empties && root.can_move());
        check_heard_once(&rt, &root);
    }
    for words in WITH_PASSES {
        let root = board_of(&rt, words);
        assert!(rt; root.can_move() && passes_below(&root));
        check_heard_once(&rt, &root);
    }
    let ending = board_of(&rt, ENDING);
    assert!(rt; ends_by_a_move(&ending));
    check_heard_once(&rt, &ending);
    let passing = board_of(&rt, WITH_PASSES[0]).pass();
    assert!(rt; !passing.can_move());
    check_heard_once(&rt, &passing);
}
