//! Moves of which a book has the board after them: that board is not searched, and the answer is the same.

use super::book::{PASSING, exact_book};
use super::crews::{BOARDS, WITH_PASSES};
use super::fixtures::{answer_of, board_of};
use super::gate::Hearing;
use super::{A, B};
use oth_book::Book;
use oth_pool::{Frontier, Gate, Open, solve};
use oth_rules::samples::least_moves_from;
use oth_rules::{Board, Scoring, Square};
use oth_search::{Answer, Solved, solve_alone};
use std::alloc::Global;
use std::process::Abort;
use std::sync::atomic::{AtomicU64, Ordering};
use std::thread::Threads;

// The book of the answers of the boards after the root's moves, but of the first `left_out` ones.
fn book_of_replies<R: AllocGlobal + Abort>(
    rt: &R,
    root: &Board,
    left_out: u8,
    scoring: Scoring,
) -> Book {
    let Some(book) = book_below(rt.alloc(), root, left_out, scoring) else {
        panic!(rt; "no book")
    };
    book
}

// As `book_of_replies`; none where there is no memory.
fn book_below(alloc: Global, root: &Board, left_out: u8, scoring: Scoring) -> Option<Book> {
    let mut book = Book::new(alloc, scoring);
    let mut left = left_out;
    for number in 0..64 {
        let Some(child) = root.play(Square::numbered(number)) else {
            continue;
        };
        if left > 0 {
            left = left.saturating_sub(1);
            continue;
        }
        let answer = solve_alone(&child, scoring).ok()?;
        book.add(&answer).ok()?;
    }
    Some(book)
}

// The board is answered alike by these workers and cells with this book, whether a gate hears of its items or not.
fn check_with<R: Threads + Sync + AllocGlobal + Abort>(
    rt: &R,
    alone: &Answer,
    book: &Book,
    workers: u8,
    cells: u32,
) {
    let (alloc, board, scoring) = (rt.alloc(), &alone.board, alone.scoring);
    let book = Some(book);
    let found = solve(rt, alloc, board, workers, cells, &Open, book, scoring);
    assert!(rt; found == Ok(*alone), "{workers} workers, {cells} cells");
    let gate = Hearing::new();
    let heard = solve(rt, alloc, board, workers, cells, &gate, book, scoring);
    assert!(rt; heard == found, "heard, {workers} workers, {cells} cells");
}

// The root is answered alike with books of all boards after its moves, and of all but some.
fn check_root<R: Threads + Sync + AllocGlobal + Abort>(rt: &R, root: &Board, scoring: Scoring) {
    let alone = answer_of(rt, root, scoring);
    for left_out in [0, 1, 3] {
        let book = book_of_replies(rt, root, left_out, scoring);
        for (workers, cells) in [(1, 64), (2, 0), (4, 4_096), (16, 1)] {
            check_with(rt, &alone, &book, workers, cells);
        }
    }
}

#[test]
fn moves_whose_boards_the_book_has_change_no_answer(rt: HostRuntime) {
    for words in [BOARDS[0], WITH_PASSES[0], WITH_PASSES[1], WITH_PASSES[2], B] {
        let Some(root) = least_moves_from(board_of(&rt, words), 11) else {
            panic!(rt; "no board")
        };
        check_root(&rt, &root, Scoring::Winner);
        check_root(&rt, &root, Scoring::Discs);
    }
}

// Counts how often it is told how far a search is: one worker tells it after each search of a board after a move.
#[derive(Drop)]
struct Told {
    count: AtomicU64,
}

impl Gate for Told {
    fn before(&self, _task: u32) {}

    fn after(&self, _task: u32) {}

    fn follows(&self) -> bool {
        true
    }

    fn goes_on(&self, _root: &Solved, _settled: u64) {
        self.count.fetch_add(1, Ordering::SeqCst);
    }
}

// How often one worker tells how far it is, as it comes to this answer with the book.
fn searches<R: Threads + Sync + AllocGlobal + Abort>(rt: &R, answer: &Answer, book: &Book) -> u64 {
    let gate = Told {
        count: AtomicU64::new(0),
    };
    let board = &answer.board;
    let found = solve(
        rt,
        rt.alloc(),
        board,
        1,
        64,
        &gate,
        Some(book),
        answer.scoring,
    );
    assert!(rt; found == Ok(*answer));
    gate.count.load(Ordering::SeqCst)
}

#[test]
fn boards_after_moves_that_the_book_has_are_not_searched(rt: HostRuntime) {
    for words in BOARDS {
        let Some(root) = least_moves_from(board_of(&rt, words), 11) else {
            panic!(rt; "no board")
        };
        let alone = answer_of(&rt, &root, Scoring::Winner);
        let all = book_of_replies(&rt, &root, 0, Scoring::Winner);
        assert!(rt; searches(&rt, &alone, &all) == 0);
        let others = book_of_replies(&rt, &root, 1, Scoring::Winner);
        assert!(rt; searches(&rt, &alone, &others) == 1);
        let by_discs = book_of_replies(&rt, &root, 0, Scoring::Discs);
        assert!(rt; searches(&rt, &alone, &by_discs) > 1);
    }
}

#[test]
fn the_gate_hears_each_item_once_where_the_book_has_the_boards_after_moves(rt: HostRuntime) {
    let root = board_of(&rt, A);
    let items = Frontier::of(&root, 2).len();
    let book = book_of_replies(&rt, &root, 0, Scoring::Winner);
    for workers in [1, 2, 16] {
        let gate = Hearing::new();
        let found = solve(
            &rt,
            rt.alloc(),
            &root,
            workers,
            64,
            &gate,
            Some(&book),
            Scoring::Winner,
        );
        assert!(rt; found == Ok(answer_of(&rt, &root, Scoring::Winner)));
        assert!(rt; gate.heard_once(items), "{workers} workers");
    }
}

// The mover of this board must pass, and the book has the board after that.
#[test]
fn a_pass_to_a_board_of_the_book_is_not_searched(rt: HostRuntime) {
    for scoring in [Scoring::Winner, Scoring::Discs] {
        let passing = answer_of(&rt, &board_of(&rt, PASSING), scoring);
        let Some(book) = exact_book(rt.alloc(), A, scoring) else {
            panic!(rt; "no book")
        };
        for workers in [1, 2] {
            let gate = Hearing::new();
            let board = &passing.board;
            let found = solve(
                &rt,
                rt.alloc(),
                board,
                workers,
                64,
                &gate,
                Some(&book),
                scoring,
            );
            assert!(rt; found == Ok(passing));
            assert!(rt; gate.heard_once(0), "{workers} workers");
        }
    }
}
