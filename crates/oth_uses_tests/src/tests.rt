//! Each caller once, on boards whose answers are known.

ghost use Rattle.oth_table.specs.SharedTable.{IsSeatOf};

use oth_rules::{Board, Scoring, Square};
use oth_search::{Scores, StopFlag};
use oth_table::{SharedTable, TableCells, TableSeat};
use oth_uses::{
    Unscored, Unsolved, best_moves, board_after, bounds_about, bounds_in_time, kept_report,
    loss_of, scores_after, solve_both, solve_by_book,
};
use std::process::Abort;

// Row 1 `--OXOOO-`, all other cells O: the mover X has d1.
const A: [u64; 2] = [0x8, 0xffff_ffff_ffff_ff74];

const BOOK: &[u8] =
    b"OBOOK2 W\n--OXOOO-OOOOOOOOOOOOOOOOOOOOOOOOOOOOOOOOOOOOOOOOOOOOOOOOOOOOOOOO -50 -50 0000000000000080\n\
      END 000001\n";

fn board_a(rt: &impl Abort) -> Board {
    Board::of(A[0], A[1]).expect(rt, "no disc is of both sides")
}

#[test]
fn a_board_is_solved(rt: HostRuntime) {
    let found = best_moves(A[0], A[1]).map(|answer| (answer.score, answer.best));
    assert!(rt; found == Ok((-50, 0x80)));
    assert!(rt; best_moves(1, 1).err() == Some(Unsolved::Overlap));
    assert!(rt; best_moves(1, 2).err() == Some(Unsolved::Empties));
}

#[test]
fn a_board_is_solved_by_a_book(rt: HostRuntime) {
    let found = solve_by_book(&rt, rt.alloc(), BOOK, &board_a(&rt)).map(|answer| (
        answer.score,
        answer.best,
    ));
    assert!(rt; found == Ok((-50, 0x80)));
}

#[test]
fn two_threads_solve_over_one_table(rt: HostRuntime) {
    let board = board_a(&rt);
    let both = solve_both(&rt, rt.alloc(), board, board.pass(), 64);
    let (first, second) = both.expect(&rt, "a table");
    assert!(rt; first.score == -50 && second.score == 50);
}

// A table of 64 cells, and its first seat.
fn table_of(rt: &(impl AllocGlobal + Abort)) -> (SharedTable, TableSeat)
    ensures { IsSeatOf result.0 result.1 }
{
    SharedTable::new(rt.alloc(), 64, Scoring::Winner).expect(rt, "a table")
}

#[test]
fn an_engine_asks_a_table(rt: HostRuntime) {
    let board = board_a(&rt);
    let (table, seat) = table_of(&rt);
    let mut cells = TableCells::of(&table, seat);
    for alpha in [-52, -50, -52] {
        let found = bounds_about(&mut cells, &board, alpha, Scoring::Winner);
        assert!(rt; (found.interval.lower > alpha) == (alpha < -50));
    }
}

#[test]
fn an_engine_has_to_move(rt: HostRuntime) {
    let board = board_a(&rt);
    let (table, seat) = table_of(&rt);
    let cells = TableCells::of(&table, seat);
    let stop = StopFlag::new();
    let (cells, early) = bounds_in_time(cells, &board, 0, Scoring::Winner, &stop);
    assert!(rt; early.interval.lower <= -50 && -50 <= early.interval.upper);
    let (cells, whole) = bounds_in_time(cells, &board, u64::MAX, Scoring::Winner, &stop);
    assert!(rt; whole.interval.lower == -50 && whole.interval.upper == -50);
    stop.set();
    let (_, ended) = bounds_in_time(cells, &board, u64::MAX, Scoring::Winner, &stop);
    assert!(rt; ended.interval.lower <= -50 && -50 <= ended.interval.upper);
}

#[test]
fn a_report_is_kept(rt: HostRuntime) {
    let answer = best_moves(A[0], A[1]).expect(&rt, "an answer");
    let text = kept_report(rt.alloc(), &answer).expect(&rt, "memory");
    assert!(rt; text.as_slice() == b"-50 h1".as_slice());
}

#[test]
fn a_game_leads_to_its_board(rt: HostRuntime) {
    let line = board_after(b"f5d6").expect(&rt, "a board");
    assert!(rt;
        line.as_slice()
            == b"---------------------------OX------OXX-----O-------------------- X".as_slice()
    );
}

// The first 53 moves of a game. An independent solver says of the board there, with 7 empty squares and X to move:
// a6 -6, b6 +4, c7 +4, a8 +12, g8 +2.
const GAME: &[u8] =
    b"f5f6c4f4g7b4f3h8e6f7e7d6c5f2c3d2b2a1g4e8g6b5e2g5a4d7e1b3a3e3g2c2h6f1b1h1f8h3h5g3h2d8g1a2d1c1c6b7c8h7h4a5d3";

// Squares, and what a move to each loses.
const LOSSES: [(u8, Option<i16>); 6] = [
    (40, Some(18)),
    (41, Some(8)),
    (50, Some(8)),
    (56, Some(0)),
    (62, Some(10)),
    (0, None),
];

// Whether a move to the square of this number loses so much.
fn loses(found: &Scores, number: u8, loss: Option<i16>) -> bool {
    match Square::of(number) {
        Some(square) => loss_of(found, square) == loss,
        None => false,
    }
}

#[test]
fn an_analysis_tells_what_a_move_lost(rt: HostRuntime) {
    let found = scores_after(rt.alloc(), GAME, Scoring::Winner).expect(&rt, "scores");
    assert!(rt; found.score() == 12 && found.moves().len() == 5);
    for (number, loss) in LOSSES {
        assert!(rt; loses(&found, number, loss));
    }
    let early = scores_after(rt.alloc(), b"f5d6", Scoring::Winner).map(|found| found.score());
    assert!(rt; early == Err(Unscored::Empties));
}
