//! What a gate hears of a run whose lines wait together, so that their boards are solved side by side.

mod at_once;
mod counting;
mod crews;
mod games;

use super::{NO_FAILURE, settings};
use counting::{Counting, Heard, searches_of};
use oth_book::{Added, Book};
use oth_pool::Gate;
use oth_rules::samples::{after_least_moves, least_moves_from};
use oth_rules::{Board, Scoring, Square, Sym};
use oth_run::run;
use oth_search::solve_alone;
use oth_text::fakes::{BrokenSource, ByteSink};
use oth_text::{Position, Side, write_board};
use oth_words::{Command, Settings};
use std::alloc::Global;
use std::process::Abort;
use std::sync::Wait;
use std::test::Fail;
use std::thread::Threads;

// The number of boards that have a line.
const BOARDS: usize = 8;

// Boards of ten empty squares, one below each move of a board of 14.
fn boards(alloc: Global) -> Result<Vec<Board>, Fail> {
    let mut boards = Vec::new(alloc);
    let root = after_least_moves(14).unwrap_or(Position::start().board);
    for number in 0..64 {
        if let Some(child) = root.play(Square::numbered(number)) {
            if let Some(board) = least_moves_from(child, 10) {
                boards.push(board)?;
            }
        }
    }
    Ok(boards)
}

// A line for each board.
fn lines(alloc: Global, boards: &[Board]) -> Result<Vec<u8>, Fail> {
    let mut input = Vec::new(alloc);
    for board in boards {
        let position = Position {
            board: *board,
            mover: Side::Black,
        };
        input.extend_from_slice(write_board(&position).as_slice())?;
        input.push(b'\n')?;
    }
    Ok(input)
}

// The settings of two workers that solve.
fn by_two() -> Settings {
    Settings {
        workers: 2,
        cells: 64,
        ..settings(Command::Solve, Scoring::Winner)
    }
}

// Runs over the lines. Whether a report was written.
fn run_with<R: Wait + Threads + Sync + AllocGlobal, G: Gate>(
    rt: &R,
    input: &[u8],
    asked: &Settings,
    gate: &G,
    book: Option<&Book>,
) -> bool {
    let alloc = rt.alloc();
    let mut reader = BrokenSource::new(input, NO_FAILURE);
    let mut writer = ByteSink::<2048>::new(NO_FAILURE);
    let result = run(rt, alloc, &mut reader, &mut writer, asked, gate, book);
    result.is_ok() && !writer.taken().is_empty()
}

// The gate of a run with this book hears just once of each item of these searches.
fn check_heard<R: Wait + Threads + Sync + AllocGlobal + Abort>(
    rt: &R,
    input: &[u8],
    book: Option<&Book>,
    all: Heard,
) {
    let gate = Counting::new();
    assert!(rt; run_with(rt, input, &by_two(), &gate, book));
    assert!(rt; gate.has_heard(all));
}

#[test]
fn a_gate_hears_each_item_of_a_batch_once(rt: HostRuntime) -> Result<(), Fail> {
    let boards = boards(rt.alloc())?;
    assert!(rt; boards.len() == BOARDS);
    assert!(rt;
        boards
            .iter()
            .all(|board| board.empties() == 10 && board.can_move())
    );
    let input = lines(rt.alloc(), boards.as_slice())?;
    check_heard(&rt, input.as_slice(), None, searches_of(boards.as_slice()));
    Ok(())
}

#[test]
fn a_board_and_its_image_are_searched_once(rt: HostRuntime) -> Result<(), Fail> {
    let boards = boards(rt.alloc())?;
    let mut images = Vec::new(rt.alloc());
    for board in boards.as_slice() {
        images.push(board.image(Sym::numbered(5)))?;
    }
    let mut input = lines(rt.alloc(), boards.as_slice())?;
    input.extend_from_slice(lines(rt.alloc(), images.as_slice())?.as_slice())?;
    check_heard(&rt, input.as_slice(), None, searches_of(boards.as_slice()));
    Ok(())
}

#[test]
fn a_board_whose_line_stands_twice_is_searched_once(rt: HostRuntime) -> Result<(), Fail> {
    let boards = boards(rt.alloc())?;
    let mut input = lines(rt.alloc(), boards.as_slice())?;
    let again = lines(rt.alloc(), boards.as_slice())?;
    input.extend_from_slice(again.as_slice())?;
    check_heard(&rt, input.as_slice(), None, searches_of(boards.as_slice()));
    Ok(())
}

#[test]
fn a_gate_hears_nothing_of_the_board_of_a_batch_that_the_book_has(
    rt: HostRuntime,
) -> Result<(), Fail> {
    let boards = boards(rt.alloc())?;
    let Some((first, others)) = boards.as_slice().split_first() else {
        panic!(rt; "no boards")
    };
    let Ok(answer) = solve_alone(first, Scoring::Winner) else {
        panic!(rt; "no answer")
    };
    let mut book = Book::new(rt.alloc(), Scoring::Winner);
    assert!(rt; book.add(&answer) == Ok(Added::New));
    let input = lines(rt.alloc(), boards.as_slice())?;
    check_heard(&rt, input.as_slice(), Some(&book), searches_of(others));
    Ok(())
}
