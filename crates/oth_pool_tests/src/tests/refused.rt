//! Out of memory. Each of these tests holds whichever one of its requests for memory is refused; `hostile/refusals.py`
//! runs each of them once for each request, thread starts among them.

use super::crews::BOARDS;
use super::fixtures::{answer_of, board_of};
use super::gate::Hearing;
use super::rows::ROWS;
use super::scoring::check_scores;
use super::{A, CORNERS, solved, solved_heard};
use oth_pool::{Open, solve};
use oth_rules::{Board, Scoring, Square};
use oth_search::Kind;
use oth_table::{SharedTable, TableError};
use std::process::Abort;
use std::thread::Threads;

// The rows with an empty square or two, by two workers, whose items a gate hears or not. Where it doesn't, no memory is
// asked for.
fn check_rows<R: Threads + Sync + AllocGlobal + Abort>(rt: &R, cells: u32) {
    for (words, score, best, kind) in &ROWS[..9] {
        let found = solved(rt, rt.alloc(), *words, 2, cells, Scoring::Winner);
        assert!(rt;
            found == Some((*score, *best, *kind)),
            "the board of {}",
            words[0]
        );
        let heard = solved_heard(rt, rt.alloc(), *words, 2, cells, Scoring::Winner);
        assert!(rt; heard == found, "the board of {}, heard", words[0]);
    }
}

#[test]
fn rows_without_cells(rt: HostRuntime) {
    check_rows(&rt, 0);
}

#[test]
fn rows_over_one_cell(rt: HostRuntime) {
    check_rows(&rt, 1);
}

#[test]
fn rows_over_64_cells(rt: HostRuntime) {
    check_rows(&rt, 64);
}

fn check_a<R: Threads + Sync + AllocGlobal + Abort>(rt: &R, cells: u32) {
    let found = solved_heard(rt, rt.alloc(), A, 2, cells, Scoring::Winner);
    assert!(rt; found == Some((-50, 0x80, Kind::Move)));
}

// `hostile/refusals.py` compares how many requests this test, the next one and `a_table_of_64_cells` make, as it does
// with the two tests of workers together.
#[test]
fn a_without_cells(rt: HostRuntime) {
    check_a(&rt, 0);
}

#[test]
fn a_over_64_cells(rt: HostRuntime) {
    check_a(&rt, 64);
}

#[test]
fn a_table_of_64_cells(rt: HostRuntime) {
    match SharedTable::new(rt.alloc(), 64, Scoring::Winner) {
        Ok((table, _)) => assert!(rt; table.cells() == 64),
        Err(error) => assert!(rt; error == TableError::Memory),
    }
}

// The board after the first move from one of 14 empty squares.
fn of_13_empties() -> Option<Board> {
    let [own, opposing] = BOARDS[1];
    let board = Board::of(own, opposing).ok()?;
    let moves = board.moves();
    if moves == 0 {
        return None;
    }
    board.play(Square::first_of(moves))
}

// Two workers answer a board of 13 empty squares, which they search together, as one thread alone does.
fn check_together<R: Threads + Sync + AllocGlobal + Abort>(rt: &R, cells: u32) {
    let Some(board) = of_13_empties() else {
        panic!(rt; "no board")
    };
    assert!(rt; board.empties() == 13);
    let alone = answer_of(rt, &board, Scoring::Winner);
    let alloc = rt.alloc();
    let found = solve(rt, alloc, &board, 2, cells, &Open, None, Scoring::Winner);
    assert!(rt; found == Ok(alone));
}

#[test]
fn workers_together_without_cells(rt: HostRuntime) {
    check_together(&rt, 0);
}

#[test]
fn workers_together_over_64_cells(rt: HostRuntime) {
    check_together(&rt, 64);
}

// The gate hears each of the twelve items once.
#[test]
fn each_item_is_heard(rt: HostRuntime) {
    let gate = Hearing::new();
    let board = board_of(&rt, CORNERS);
    let found = solve(&rt, rt.alloc(), &board, 2, 64, &gate, None, Scoring::Winner);
    assert!(rt; found.is_ok_and(|answer| answer.best == 0x8100_0000_0000_0081));
    assert!(rt; gate.heard_once(12));
}

// Each of the four moves has its score, whoever values the boards after them.
#[test]
fn scores_by_two_over_64_cells(rt: HostRuntime) {
    let root = board_of(&rt, CORNERS);
    check_scores(&rt, &root, 2, 64, Scoring::Winner);
}
