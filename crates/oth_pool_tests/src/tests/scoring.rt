//! The scores of all moves by every crew and table.

use super::crews::{BOARDS, TABLES, WITH_PASSES};
use super::fixtures::board_of;
use super::gate::{Counting, items_of};
use super::{A, B, C, CORNERS, answered};
use oth_book::Book;
use oth_pieces::Frontier;
use oth_pool::{Gate, Open, SolveError, scores};
use oth_rules::samples::{after_least_moves, board, least_moves_from};
use oth_rules::{Board, Scoring, Square};
use oth_search::{Solved, solve_alone};
use std::alloc::Global;
use std::process::Abort;
use std::sync::atomic::{AtomicU64, Ordering};
use std::thread;
use std::thread::Threads;

// A board whose mover must pass, and one that is over.
const PASSES: [u64; 2] = [0xffff_ffff_ffff_ff74, 8];

const FULL: [u64; 2] = [u64::MAX, 0];

// Each move is there once with the score that one thread alone gives the board after it; the answer is that of `solve`.
// All is the same where a gate hears of the items, so that boards of few empty squares are searched as others are.
pub(super) fn check_scores<R: Threads + Sync + AllocGlobal + Abort>(
    rt: &R,
    root: &Board,
    workers: u8,
    cells: u32,
    scoring: Scoring,
) {
    let Ok(found) = scores(rt, rt.alloc(), root, workers, cells, &Open, None, scoring) else {
        panic!(rt; "no scores")
    };
    let gate = Counting::new();
    let Ok(heard) = scores(rt, rt.alloc(), root, workers, cells, &gate, None, scoring) else {
        panic!(rt; "no scores")
    };
    assert!(rt; heard.answer() == found.answer() && heard.moves() == found.moves());
    let answer = answered(rt, rt.alloc(), root, workers, cells, scoring);
    assert!(rt; answer == Ok(found.answer()));
    assert!(rt; found.moves().len() == root.moves().count_ones() as usize);
    for scored in found.moves() {
        let Some(child) = root.play(scored.square) else {
            panic!(rt; "no move")
        };
        match solve_alone(&child, scoring) {
            Ok(after) => assert!(rt; after.score == scored.score.wrapping_neg()),
            Err(_) => panic!(rt; "not solved"),
        }
    }
}

#[test]
fn all_crews_score_each_move_of_the_rows(rt: HostRuntime) {
    for words in [A, B, C, CORNERS, PASSES, FULL] {
        let root = board_of(&rt, words);
        for workers in [1, 2, 16] {
            for cells in [0, 1, 1024] {
                check_scores(&rt, &root, workers, cells, Scoring::Winner);
                check_scores(&rt, &root, workers, cells, Scoring::Discs);
            }
        }
    }
}

#[test]
fn crews_score_a_board_of_eleven_empty_squares(rt: HostRuntime) {
    let Some(root) = after_least_moves(11) else {
        panic!(rt; "no line")
    };
    for workers in [1, 2, 7] {
        check_scores(&rt, &root, workers, 4_096, Scoring::Winner);
    }
}

#[test]
fn scores_are_refused_as_answers_are(rt: HostRuntime) {
    let (Some(root), Ok(open)) = (board(A), Board::of(0x1_ffff_ffff, 0)) else {
        panic!(rt; "no boards")
    };
    for (root, workers, cells, refusal) in [
        (root, 0, 0, SolveError::Workers),
        (root, 1, 3, SolveError::Cells),
        (open, 17, 3, SolveError::TooManyEmpties(31)),
    ] {
        let found = scores(
            &rt,
            rt.alloc(),
            &root,
            workers,
            cells,
            &Open,
            None,
            Scoring::Winner,
        );
        match found {
            Ok(_) => panic!(rt; "scored"),
            Err(error) => assert!(rt; error == refusal),
        }
    }
}

// Whoever hears first of a board waits a while until somebody hears of another one.
#[derive(Drop)]
struct Meeting {
    // The discs of the first board, and whether there was another one meanwhile.
    first: AtomicU64,
    others: AtomicU64,
    given_up: AtomicU64,
}

impl Meeting {
    // Whether no other board was heard of before.
    fn is_first(&self, board: &Board) -> bool {
        let discs = board.own();
        match self
            .first
            .compare_exchange(0, discs, Ordering::SeqCst, Ordering::SeqCst)
        {
            Ok(_) => true,
            Err(first) => first == discs,
        }
    }
}

impl Gate for Meeting {
    fn before(&self, _task: u32) {}

    fn after(&self, _task: u32) {}

    fn follows(&self) -> bool {
        true
    }

    fn goes_on(&self, root: &Solved, _settled: u64) {
        if !self.is_first(&root.board) {
            self.others.store(1, Ordering::SeqCst);
            return;
        }
        if self.given_up.load(Ordering::SeqCst) != 0 {
            return;
        }
        for _ in 0..10_000_000 {
            if self.others.load(Ordering::SeqCst) != 0 {
                return;
            }
            thread::yield_now();
        }
        self.given_up.store(1, Ordering::SeqCst);
    }
}

#[test]
fn two_workers_value_boards_at_once(rt: HostRuntime) {
    let root = board_of(&rt, BOARDS[0]);
    for cells in [0, 4_096] {
        let gate = Meeting {
            first: AtomicU64::new(0),
            others: AtomicU64::new(0),
            given_up: AtomicU64::new(0),
        };
        let alloc = rt.alloc();
        let found = scores(&rt, alloc, &root, 2, cells, &gate, None, Scoring::Winner);
        assert!(rt; found.is_ok());
        assert!(rt; gate.others.load(Ordering::SeqCst) == 1, "{cells} cells");
        assert!(rt; gate.given_up.load(Ordering::SeqCst) == 0, "{cells} cells");
    }
}

// A board of six moves: two workers value the boards after them each by itself, and sixteen together.
#[test]
fn crews_score_a_board_apart_and_together(rt: HostRuntime) {
    let root = board_of(&rt, BOARDS[0]);
    assert!(rt; root.moves().count_ones() == 6);
    check_scores(&rt, &root, 2, 4_096, Scoring::Discs);
    check_scores(&rt, &root, 16, 4_096, Scoring::Winner);
}

// The numbers of boards that are searched for the scores of the root's moves and of their items, and the sum of the
// items' weights: of the boards after its moves, or where its mover must pass of the board itself.
fn searched_below(root: &Board) -> (u64, u64, u64) {
    if !root.can_move() {
        let (items, weights) = items_of(root);
        return (1, items, weights);
    }
    let (mut boards, mut all, mut sum) = (0u64, 0u64, 0u64);
    for number in 0..64 {
        let Some(child) = root.play(Square::numbered(number)) else {
            continue;
        };
        if child.is_over() {
            continue;
        }
        let (items, weights) = items_of(&child);
        boards = boards.wrapping_add(1);
        all = all.wrapping_add(items);
        sum = sum.wrapping_add(weights);
    }
    (boards, all, sum)
}

// How many items below the root's moves are images of others, so that a table may know them from the search of those.
fn doubles_below(alloc: Global, root: &Board) -> u64 {
    if !root.can_move() {
        return 0;
    }
    let mut seen = Vec::new(alloc);
    let mut doubles = 0u64;
    for number in 0..64 {
        let Some(child) = root.play(Square::numbered(number)) else {
            continue;
        };
        if child.empties() > 30 {
            continue;
        }
        let frontier = Frontier::of(&child, 2);
        for task in 0..frontier.len() {
            let Some(item) = frontier.item(task) else {
                continue;
            };
            let image = item.canonical().0;
            if seen.as_slice().contains(&image) || seen.push(image).is_err() {
                doubles = doubles.saturating_add(1);
            }
        }
    }
    doubles
}

// Fails unless the gate of `scores` hears of each board after a move that has items, and of each of its items once, of
// those that are searched before anything is known of them. Without a table that is so of all of them, and over one of
// those that are no image of another item.
pub(super) fn check_heard<R: Threads + Sync + AllocGlobal + Abort>(
    rt: &R,
    root: &Board,
    workers: u8,
    cells: u32,
    book: Option<&Book>,
) {
    let gate = Counting::new();
    let alloc = rt.alloc();
    let found = scores(
        rt,
        alloc,
        root,
        workers,
        cells,
        &gate,
        book,
        Scoring::Winner,
    );
    assert!(rt; found.is_ok());
    let doubles = if cells == 0 {
        0
    } else {
        doubles_below(alloc, root)
    };
    let (boards, items, weights) = searched_below(root);
    assert!(rt;
        gate.heard_all(boards, items, weights) && gate.is_fresh(workers, doubles),
        "{workers} workers, {cells} cells"
    );
}

// It does so by each crew and over each table.
fn check_heard_by_crews<R: Threads + Sync + AllocGlobal + Abort>(rt: &R, root: &Board) {
    for workers in [1, 2, 4, 16] {
        for cells in TABLES {
            check_heard(rt, root, workers, cells, None);
        }
    }
}

#[test]
fn the_gate_hears_each_item_below_each_move_once(rt: HostRuntime) {
    for empties in 9..=11 {
        let Some(root) = least_moves_from(board_of(&rt, BOARDS[0]), empties) else {
            panic!(rt; "no line")
        };
        check_heard_by_crews(&rt, &root);
    }
    for words in WITH_PASSES {
        check_heard_by_crews(&rt, &board_of(&rt, words));
    }
    check_heard_by_crews(&rt, &board_of(&rt, WITH_PASSES[0]).pass());
}

// Two threads take the boards after the moves from one queue, a thousand times.
#[test]
fn each_board_is_taken_by_one_of_two_workers(rt: HostRuntime) {
    let root = board_of(&rt, CORNERS);
    for _ in 0..1_000 {
        check_heard(&rt, &root, 2, 0, None);
    }
}
