//! One thread answers the worked boards as the rules do and another board by its whole tree, ends at 16 empty squares,
//! and refuses 31.

use super::{A, board_of, line_of};
use oth_rules::{Board, Scoring};
use oth_search::{Kind, NoCells, TooManyEmpties, seeming_value, solve_alone};
use std::process::Abort;

/// A board by own and opposing discs, with its score and all best moves.
type Row = (u64, u64, i8, u64, Kind);

fn answers(row: Row, scoring: Scoring) -> bool {
    let (own, opp, score, best, kind) = row;
    let Ok(board) = Board::of(own, opp) else {
        return false;
    };
    match solve_alone(&board, scoring) {
        Ok(answer) => {
            answer.board == board
                && answer.score == score
                && answer.best == best
                && answer.kind == kind
        }
        Err(_) => false,
    }
}

/// Boards of which one is `A` and one `A` after a pass, by `Winner`.
const BY_WINNER: [Row; 14] = [
    (u64::MAX, 0, 64, 0, Kind::End),
    (0, u64::MAX, -64, 0, Kind::End),
    (!(1 << 63), 0, 64, 0, Kind::End),
    (
        0x7fbf_8181_8181_81fe,
        0x0040_7e7e_7e7e_7e00,
        0,
        0,
        Kind::End,
    ),
    (!3, 2, 64, 1, Kind::Move),
    (2, !3, -64, 0, Kind::Pass),
    (!0xc3, 0x42, 64, 0x81, Kind::Move),
    (1 << 7, !0x8081, -48, 1, Kind::Move),
    (0x8, 0xffff_ffff_ffff_ff74, -50, 0x80, Kind::Move),
    (0xffff_ffff_ffff_ff74, 0x8, 50, 0, Kind::Pass),
    (0x10, 0xffff_ffff_ffff_ff2e, -50, 1, Kind::Move),
    (0x10 << 56, 0x2eff_ffff_ffff_ffff, -50, 1 << 56, Kind::Move),
    (!0x0303, 0x0202, 64, 0x0101, Kind::Move),
    (!0x3fff_ffff, 0, 64, 0, Kind::End),
];

/// Some of them by `Discs`.
const BY_DISCS: [Row; 10] = [
    (!(1 << 63), 0, 63, 0, Kind::End),
    (
        0x7fbf_8181_8181_81fe,
        0x0040_7e7e_7e7e_7e00,
        0,
        0,
        Kind::End,
    ),
    (!0xc3, 0x42, 64, 0x81, Kind::Move),
    (1 << 7, !0x8081, -47, 1, Kind::Move),
    (0x8, 0xffff_ffff_ffff_ff74, -49, 0x80, Kind::Move),
    (0xffff_ffff_ffff_ff74, 0x8, 49, 0, Kind::Pass),
    (0x10, 0xffff_ffff_ffff_ff2e, -49, 1, Kind::Move),
    (0x10 << 56, 0x2eff_ffff_ffff_ffff, -49, 1 << 56, Kind::Move),
    (!0x0303, 0x0202, 64, 0x0100, Kind::Move),
    (!0x3fff_ffff, 0, 34, 0, Kind::End),
];

fn check_answers(rt: &impl Abort, rows: &[Row], scoring: Scoring) {
    for row in rows {
        assert!(rt; answers(*row, scoring), "own {:x}", row.0);
    }
}

#[test]
fn solves_the_worked_boards(rt: HostRuntime) {
    check_answers(&rt, BY_WINNER.as_slice(), Scoring::Winner);
    check_answers(&rt, BY_DISCS.as_slice(), Scoring::Discs);
}

#[test]
fn seems_to_have_its_value_where_few_squares_are_empty(rt: HostRuntime) {
    let board = board_of(&rt, A);
    assert!(rt; seeming_value(board, -51, &mut NoCells, Scoring::Winner) == -50);
    assert!(rt; seeming_value(board, -50, &mut NoCells, Scoring::Winner) == -50);
    assert!(rt; seeming_value(board, -50, &mut NoCells, Scoring::Discs) == -49);
}

#[test]
fn refuses_31_empties(rt: HostRuntime) {
    let board = board_of(&rt, [!0x7fff_ffff, 0]);
    for scoring in [Scoring::Winner, Scoring::Discs] {
        let refusal = solve_alone(&board, scoring).err();
        assert!(rt; refusal == Some(TooManyEmpties { empties: 31 }));
    }
}

/// Whether the board is solved with the value of its whole tree.
fn is_whole(board: &Board, scoring: Scoring) -> bool {
    match solve_alone(board, scoring) {
        Ok(answer) => answer.score == board.plain_score(scoring),
        Err(_) => false,
    }
}

#[test]
fn agrees_with_the_whole_tree(rt: HostRuntime) {
    let board = line_of(&rt, 10);
    for scoring in [Scoring::Winner, Scoring::Discs] {
        assert!(rt; is_whole(&board, scoring));
    }
}

#[test]
fn ends_at_16_empties(rt: HostRuntime) {
    let board = line_of(&rt, 16);
    assert!(rt; board.empties() == 16);
    for scoring in [Scoring::Winner, Scoring::Discs] {
        assert!(rt; matches!(solve_alone(&board, scoring), Ok(_)));
    }
}
