//! The worked boards by every crew and table, and the refusals of `solve`.

use super::{A, B, C, CORNERS, answered, solved, solved_heard};
use oth_pool::SolveError;
use oth_rules::{Board, Scoring};
use oth_search::Kind;
use std::process::Abort;
use std::test::Fail;
use std::thread::Threads;

// A board by its own and opposing discs, with its score, best moves and kind.
type Row = ([u64; 2], i8, u64, Kind);

// Under the scoring that gives the empty squares to the winner.
pub(super) const ROWS: [Row; 10] = [
    ([0xffff_ffff_ffff_fffc, 0x2], 64, 0x1, Kind::Move),
    ([0x2, 0xffff_ffff_ffff_fffc], -64, 0, Kind::Pass),
    (C, 64, 0x81, Kind::Move),
    ([0x80, 0xffff_ffff_ffff_7f7e], -48, 0x1, Kind::Move),
    (A, -50, 0x80, Kind::Move),
    ([0xffff_ffff_ffff_ff74, 8], 50, 0, Kind::Pass),
    ([0x10, 0xffff_ffff_ffff_ff2e], -50, 0x1, Kind::Move),
    (
        [0x1000_0000_0000_0000, 0x2eff_ffff_ffff_ffff],
        -50,
        0x0100_0000_0000_0000,
        Kind::Move,
    ),
    (B, 64, 0x0101, Kind::Move),
    (CORNERS, 64, 0x8100_0000_0000_0081, Kind::Move),
];

// By the difference of the discs.
const ROWS_BY_DISCS: [Row; 7] = [
    (C, 64, 0x81, Kind::Move),
    ([0x80, 0xffff_ffff_ffff_7f7e], -47, 0x1, Kind::Move),
    (A, -49, 0x80, Kind::Move),
    ([0xffff_ffff_ffff_ff74, 8], 49, 0, Kind::Pass),
    ([0x10, 0xffff_ffff_ffff_ff2e], -49, 0x1, Kind::Move),
    (
        [0x1000_0000_0000_0000, 0x2eff_ffff_ffff_ffff],
        -49,
        0x0100_0000_0000_0000,
        Kind::Move,
    ),
    (B, 64, 0x0100, Kind::Move),
];

// Each row by each number of workers, over a table of `cells` cells where a gate hears of its items, and without one
// where none does.
fn check_rows<R: Threads + Sync + AllocGlobal + Abort>(
    rt: &R,
    rows: &[Row],
    cells: u32,
    scoring: Scoring,
) {
    for (words, score, best, kind) in rows {
        for workers in [1, 2, 7, 16] {
            let found = solved(rt, rt.alloc(), *words, workers, cells, scoring);
            assert!(rt;
                found == Some((*score, *best, *kind)),
                "the board of {}, {workers} workers",
                words[0]
            );
            let heard = solved_heard(rt, rt.alloc(), *words, workers, cells, scoring);
            assert!(rt;
                heard == found,
                "the board of {}, heard, {workers} workers",
                words[0]
            );
        }
    }
}

#[test]
fn all_crews_give_the_rows_without_a_table(rt: HostRuntime) {
    check_rows(&rt, ROWS.as_slice(), 0, Scoring::Winner);
    check_rows(&rt, ROWS_BY_DISCS.as_slice(), 0, Scoring::Discs);
}

#[test]
fn all_crews_give_the_rows_over_one_cell(rt: HostRuntime) {
    check_rows(&rt, ROWS.as_slice(), 1, Scoring::Winner);
    check_rows(&rt, ROWS_BY_DISCS.as_slice(), 1, Scoring::Discs);
}

#[test]
fn all_crews_give_the_rows_over_the_largest_table(rt: HostRuntime) {
    check_rows(&rt, ROWS.as_slice(), 262_144, Scoring::Winner);
    check_rows(&rt, ROWS_BY_DISCS.as_slice(), 262_144, Scoring::Discs);
}

// Nothing is searched, so no table is made, and no gate hears of anything.
#[test]
fn finished_boards_are_answered_by_all_tables(rt: HostRuntime) {
    for cells in [0, 1, 262_144] {
        let full = solved(&rt, rt.alloc(), [u64::MAX, 0], 2, cells, Scoring::Winner);
        assert!(rt; full == Some((64, 0, Kind::End)));
        let heard = solved_heard(&rt, rt.alloc(), [u64::MAX, 0], 2, cells, Scoring::Winner);
        assert!(rt; heard == full);
        let limit = [0xffff_ffff_c000_0000, 0];
        let winner = solved(&rt, rt.alloc(), limit, 16, cells, Scoring::Winner);
        assert!(rt; winner == Some((64, 0, Kind::End)));
        let discs = solved(&rt, rt.alloc(), limit, 16, cells, Scoring::Discs);
        assert!(rt; discs == Some((34, 0, Kind::End)));
    }
}

// The empty squares are tested before the workers, and those before the cells.
#[test]
fn refusals_come_in_order(rt: HostRuntime) -> Result<(), Fail> {
    let (Ok(a), Ok(limit)) = (Board::of(A[0], A[1]), Board::of(0x1_ffff_ffff, 0)) else {
        panic!(rt; "no boards")
    };
    for (board, workers, cells, refusal) in [
        (a, 0, 0, SolveError::Workers),
        (a, 17, 0, SolveError::Workers),
        (a, 0, 3, SolveError::Workers),
        (a, 17, 524_288, SolveError::Workers),
        (a, 1, 3, SolveError::Cells),
        (a, 1, 524_288, SolveError::Cells),
        (limit, 1, 0, SolveError::TooManyEmpties(31)),
        (limit, 0, 0, SolveError::TooManyEmpties(31)),
        (limit, 0, 3, SolveError::TooManyEmpties(31)),
    ] {
        let found = answered(&rt, rt.alloc(), &board, workers, cells, Scoring::Winner);
        assert!(rt;
            found.err() == Some(refusal),
            "{workers} workers, {cells} cells"
        );
    }
    Ok(())
}
