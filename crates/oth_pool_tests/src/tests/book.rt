//! Boards of a book: an exact one is not searched, and the bounds of another one change no answer.

use super::crews::BOARDS;
use super::fixtures::{answer_of, board_of};
use super::gate::Hearing;
use super::scoring::check_heard;
use super::{A, B, C};
use oth_book::{Added, Book};
use oth_pool::{Gate, Open, scores, solve};
use oth_rules::samples::{board, least_moves_from};
use oth_rules::{Board, Scoring, Square};
use oth_search::{Answer, Kind, NoCells, Solved, solve_alone};
use std::alloc::Global;
use std::process::Abort;
use std::sync::atomic::{AtomicU64, Ordering};
use std::thread::Threads;

// The mirror image of A, whose canonical board is A.
const IMAGE: [u64; 2] = [0x10, 0xffff_ffff_ffff_ff2e];

// A with the other side to move, which must pass.
pub(super) const PASSING: [u64; 2] = [0xffff_ffff_ffff_ff74, 8];

// The book of the board's answer.
pub(super) fn exact_book(alloc: Global, words: [u64; 2], scoring: Scoring) -> Option<Book> {
    let answer = solve_alone(&board(words)?, scoring).ok()?;
    let mut book = Book::new(alloc, scoring);
    if book.add(&answer) == Ok(Added::New) {
        Some(book)
    } else {
        None
    }
}

// The book of bounds of the board, which enclose its value.
fn bounded_book(
    alloc: Global,
    words: [u64; 2],
    bounds: (i8, i8),
    scoring: Scoring,
) -> Option<Book> {
    let value = Solved::by_search(&board(words)?, -65, 65, &mut NoCells, scoring);
    let mut book = Book::new(alloc, scoring);
    if book.add_bounds(&value.widen(bounds.0, bounds.1)?) == Ok(Added::New) {
        Some(book)
    } else {
        None
    }
}

// The book of the answers of the boards after the root's moves.
fn book_of_replies(alloc: Global, root: &Board, scoring: Scoring) -> Option<Book> {
    let mut book = Book::new(alloc, scoring);
    for number in 0..64 {
        if let Some(child) = root.play(Square::numbered(number)) {
            let answer = solve_alone(&child, scoring).ok()?;
            book.add(&answer).ok()?;
        }
    }
    Some(book)
}

// What two workers answer with the book, if the gate hears just once of each of `items` items.
fn solved_by<R: Threads + Sync>(
    rt: &R,
    alloc: Global,
    book: &Book,
    words: [u64; 2],
    scoring: Scoring,
    items: u32,
) -> Option<(i8, u64, Kind)> {
    let board = Board::of(words[0], words[1]).ok()?;
    let gate = Hearing::new();
    let answer = solve(rt, alloc, &board, 2, 64, &gate, Some(book), scoring).ok()?;
    if gate.heard_once(items) {
        Some((answer.score, answer.best, answer.kind))
    } else {
        None
    }
}

#[test]
fn the_gate_hears_nothing_of_a_board_that_the_book_has(rt: HostRuntime) {
    let Some(book) = exact_book(rt.alloc(), A, Scoring::Winner) else {
        panic!(rt; "no book")
    };
    let image = solved_by(&rt, rt.alloc(), &book, IMAGE, Scoring::Winner, 0);
    assert!(rt; image == Some((-50, 0x1, Kind::Move)));
    let absent = solved_by(&rt, rt.alloc(), &book, C, Scoring::Winner, 2);
    assert!(rt; absent == Some((64, 0x81, Kind::Move)));
    let discs = solved_by(&rt, rt.alloc(), &book, A, Scoring::Discs, 2);
    assert!(rt; discs == Some((-49, 0x80, Kind::Move)));
}

#[test]
fn the_gate_hears_nothing_of_scores_that_the_book_has(rt: HostRuntime) {
    let root = board_of(&rt, BOARDS[0]);
    let alloc = rt.alloc();
    let Some(book) = book_of_replies(alloc, &root, Scoring::Winner) else {
        panic!(rt; "no book")
    };
    for workers in [1, 2, 16] {
        let gate = Hearing::new();
        let told = scores(
            &rt,
            alloc,
            &root,
            workers,
            64,
            &gate,
            Some(&book),
            Scoring::Winner,
        );
        let searched = scores(&rt, alloc, &root, workers, 64, &Open, None, Scoring::Winner);
        let (Ok(told), Ok(searched)) = (told, searched) else {
            panic!(rt; "no scores")
        };
        assert!(rt; gate.heard_once(0), "{workers} workers");
        assert!(rt; told.answer() == searched.answer());
        assert!(rt; told.moves() == searched.moves());
    }
}

// In most of these a bound is the value, so that the floor is as high before the workers start as it ever gets.
#[test]
fn bounds_of_the_book_change_no_answer(rt: HostRuntime) {
    let a = (-50, 0x80, Kind::Move);
    let passing = (50, 0, Kind::Pass);
    for (words, bounds, scoring, expected) in [
        (A, (-64, -40), Scoring::Winner, a),
        (A, (-50, 64), Scoring::Winner, a),
        (A, (-50, -48), Scoring::Winner, a),
        (A, (-64, -50), Scoring::Winner, a),
        (A, (-49, 64), Scoring::Discs, (-49, 0x80, Kind::Move)),
        (PASSING, (-64, 50), Scoring::Winner, passing),
        (PASSING, (48, 50), Scoring::Winner, passing),
        (PASSING, (50, 64), Scoring::Winner, passing),
        (B, (62, 64), Scoring::Winner, (64, 0x0101, Kind::Move)),
        (B, (63, 64), Scoring::Discs, (64, 0x0100, Kind::Move)),
        (C, (62, 64), Scoring::Winner, (64, 0x81, Kind::Move)),
    ] {
        let Some(book) = bounded_book(rt.alloc(), words, bounds, scoring) else {
            panic!(rt; "no book")
        };
        let found = solved_by(&rt, rt.alloc(), &book, words, scoring, 2);
        assert!(rt;
            found == Some(expected),
            "bounds {} to {}",
            bounds.0,
            bounds.1
        );
    }
    let Some(book) = bounded_book(rt.alloc(), A, (-50, 64), Scoring::Winner) else {
        panic!(rt; "no book")
    };
    let image = solved_by(&rt, rt.alloc(), &book, IMAGE, Scoring::Winner, 2);
    assert!(rt; image == Some((-50, 0x1, Kind::Move)));
}

// Counts how often it is told of a lower bound of the root that is below the score, and that is some score.
#[derive(Drop)]
struct Climbing {
    score: i8,
    below: AtomicU64,
}

impl Gate for Climbing {
    fn before(&self, _task: u32) {}

    fn after(&self, _task: u32) {}

    fn follows(&self) -> bool {
        true
    }

    fn goes_on(&self, root: &Solved, _settled: u64) {
        let lower = root.interval.lower;
        if lower > -64 && lower < self.score {
            self.below.fetch_add(1, Ordering::SeqCst);
        }
    }
}

// How often one worker tells of a lower bound below the score, as it comes to this answer with the book.
fn told_below<R: Threads + Sync + AllocGlobal + Abort>(
    rt: &R,
    answer: &Answer,
    book: Option<&Book>,
) -> u64 {
    let gate = Climbing {
        score: answer.score,
        below: AtomicU64::new(0),
    };
    let alloc = rt.alloc();
    let board = &answer.board;
    let found = solve(rt, alloc, board, 1, 4_096, &gate, book, answer.scoring);
    assert!(rt; found == Ok(*answer));
    gate.below.load(Ordering::SeqCst)
}

// Where the book knows that the score is reached, nothing less is asked for. Without it, it is of some board.
#[test]
fn one_worker_begins_with_the_bounds_of_the_book(rt: HostRuntime) {
    let mut without = 0u64;
    for words in BOARDS {
        let alone = answer_of(&rt, &board_of(&rt, words), Scoring::Winner);
        let bounds = (alone.score, 64);
        let Some(book) = bounded_book(rt.alloc(), words, bounds, Scoring::Winner) else {
            panic!(rt; "no book")
        };
        without = without.saturating_add(told_below(&rt, &alone, None));
        assert!(rt; told_below(&rt, &alone, Some(&book)) == 0);
    }
    assert!(rt; without > 0);
}

// The book of bounds of the boards after the first two moves of the root, which leave their values open.
fn book_of_two_bounds(alloc: Global, root: &Board) -> Option<Book> {
    let mut book = Book::new(alloc, Scoring::Winner);
    let mut left = 2u8;
    for number in 0..64 {
        let Some(child) = root.play(Square::numbered(number)) else {
            continue;
        };
        if left == 0 {
            break;
        }
        left = left.saturating_sub(1);
        let value = Solved::of_answer(&solve_alone(&child, Scoring::Winner).ok()?);
        book.add_bounds(&value.widen(-64, value.interval.upper)?)
            .ok()?;
    }
    Some(book)
}

#[test]
fn the_gate_hears_the_items_of_boards_of_which_the_book_has_bounds(rt: HostRuntime) {
    let Some(root) = least_moves_from(board_of(&rt, BOARDS[0]), 10) else {
        panic!(rt; "no line")
    };
    let Some(book) = book_of_two_bounds(rt.alloc(), &root) else {
        panic!(rt; "no book")
    };
    for workers in [1, 2, 16] {
        check_heard(&rt, &root, workers, 64, Some(&book));
    }
}
