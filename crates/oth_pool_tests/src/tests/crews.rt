//! Boards whose moves several workers search together: what they answer.

use super::fixtures::{answer_of, board_of};
use super::rows::ROWS;
use super::{A, B, CORNERS, solved_heard};
use oth_pool::{Gate, Open, solve};
use oth_rules::samples::least_moves_from;
use oth_rules::{Board, Scoring};
use std::process::Abort;
use std::sync::atomic::{AtomicU64, Ordering};
use std::thread::Threads;

// Boards of games, of 14 empty squares.
pub(super) const BOARDS: [[u64; 2]; 3] = [
    [0x00fc_98c0_a010_0804, 0x0402_673b_5fef_75b8],
    [0x8080_b1df_a743_2740, 0x4f67_4620_18bc_4082],
    [0x450b_3b61_676b_5000, 0x18a4_c49c_9884_a2f0],
];

// Boards of games, of 13, 12 and 10 empty squares: the opponent must pass after a move of the first two, and the other
// side of the first one at once; the mover must pass after a reply on the third.
pub(super) const WITH_PASSES: [[u64; 2]; 3] = [
    [0x0080_00b0_b0f0_f080, 0x407e_784b_4f0f_0f7f],
    [0x8080_8101_213d_073f, 0x4262_7afe_dec2_f800],
    [0x8276_2a0f_2f51_3f00, 0x1c09_5070_10ae_c0ff],
];

// Cells of tables, of which the first is none.
pub(super) const TABLES: [u32; 3] = [0, 1, 4_096];

// Crews of 2, 4 and 16 workers over `cells` cells answer the board as one thread alone does.
pub(super) fn check_board<R: Threads + Sync + AllocGlobal + Abort>(
    rt: &R,
    words: [u64; 2],
    cells: u32,
    scoring: Scoring,
) {
    let alone = answer_of(rt, &board_of(rt, words), scoring);
    for workers in [2, 4, 16] {
        let found = solve(
            rt,
            rt.alloc(),
            &alone.board,
            workers,
            cells,
            &Open,
            None,
            scoring,
        );
        assert!(rt; found == Ok(alone), "{workers} workers");
    }
}

fn check_boards<R: Threads + Sync + AllocGlobal + Abort>(rt: &R, cells: u32, scoring: Scoring) {
    for words in &BOARDS {
        check_board(rt, *words, cells, scoring);
    }
}

#[test]
fn crews_agree_with_one_without_a_table(rt: HostRuntime) {
    check_boards(&rt, 0, Scoring::Winner);
}

#[test]
fn crews_agree_with_one_over_one_cell(rt: HostRuntime) {
    check_boards(&rt, 1, Scoring::Winner);
}

#[test]
fn crews_agree_with_one_over_a_table(rt: HostRuntime) {
    check_boards(&rt, 65_536, Scoring::Winner);
    check_boards(&rt, 65_536, Scoring::Discs);
}

// `solve` starts two of the sixteen for boards of so few empty squares, since a gate hears of their items; sixteen that
// start share a cell in `oth_workers_tests`.
#[test]
fn sixteen_workers_share_one_cell(rt: HostRuntime) {
    for _ in 0..100 {
        for (words, score, best, kind) in &ROWS[4..] {
            let found = solved_heard(&rt, rt.alloc(), *words, 16, 1, Scoring::Winner);
            assert!(rt;
                found == Some((*score, *best, *kind)),
                "the board of {}",
                words[0]
            );
        }
    }
}

#[test]
fn crews_share_one_cell_where_they_search_together(rt: HostRuntime) {
    for _ in 0..20 {
        check_board(&rt, BOARDS[0], 1, Scoring::Winner);
    }
}

// Says that it hears nothing, so that one worker tells it of no item. Several workers do: it counts those.
#[derive(Drop)]
struct Deaf {
    told: AtomicU64,
}

impl Gate for Deaf {
    fn before(&self, _task: u32) {
        self.told.fetch_add(1, Ordering::SeqCst);
    }

    fn after(&self, _task: u32) {}

    fn hears(&self) -> bool {
        false
    }
}

// Of how many items two workers tell such a gate, as they come to the answer of one.
fn told_by_two<R: Threads + Sync + AllocGlobal + Abort>(rt: &R, root: &Board) -> u64 {
    let alone = answer_of(rt, root, Scoring::Winner);
    let gate = Deaf {
        told: AtomicU64::new(0),
    };
    let found = solve(rt, rt.alloc(), root, 2, 64, &gate, None, Scoring::Winner);
    assert!(rt; found == Ok(alone));
    gate.told.load(Ordering::SeqCst)
}

// Boards of few empty squares of which nobody hears have one worker, all others two.
#[test]
fn boards_of_seven_and_more_empty_squares_have_two_workers(rt: HostRuntime) {
    for empties in 7..=13 {
        let Some(root) = least_moves_from(board_of(&rt, BOARDS[0]), empties) else {
            panic!(rt; "no line")
        };
        assert!(rt; root.empties() == empties && root.can_move());
        assert!(rt; told_by_two(&rt, &root) > 0, "{empties} empty squares");
    }
    for words in [A, B, CORNERS] {
        assert!(rt; told_by_two(&rt, &board_of(&rt, words)) == 0);
    }
}
