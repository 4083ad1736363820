//! Each crew searches lines that stand twice once, and hears each item before anything is known of it.

use super::super::settings;
use super::counting::{Counting, Heard, searches_of};
use super::{BOARDS, lines, run_with};
use oth_pool::Frontier;
use oth_rules::samples::board;
use oth_rules::{Board, Scoring};
use oth_search::MOST_EMPTIES;
use oth_words::{Command, Settings};
use std::alloc::Global;
use std::process::Abort;
use std::sync::Wait;
use std::test::Fail;
use std::thread::Threads;

// Boards of games, of ten empty squares: after a move or a reply on the first six a side must pass, and the mover on
// the last two.
const WITH_PASSES: [[u64; 2]; BOARDS] = [
    [0x0912_0400_3c38_44c0, 0x542d_71ff_c3c7_bb1e],
    [0x0000_074b_3f40_003c, 0xd67f_f894_c0bf_fc80],
    [0x02f1_e898_882d_0101, 0x7c0c_1667_7752_7e4c],
    [0x0080_9000_9c2c_30fb, 0x607f_6e7f_6353_4f04],
    [0xff46_2a01_0004_0017, 0x00b9_d4fe_befb_1f00],
    [0x8276_2a0f_2f51_3f00, 0x1c09_5070_10ae_c0ff],
    [0x008c_7af0_c0ac_d040, 0x0703_050f_3f53_2f3f],
    [0x7f25_2977_6d5f_ff3e, 0x001a_1608_1220_0001],
];

// The boards of `WITH_PASSES`.
fn boards_with_passes(alloc: Global) -> Result<Vec<Board>, Fail> {
    let mut boards = Vec::new(alloc);
    for words in WITH_PASSES {
        if let Some(board) = board(words) {
            boards.push(board)?;
        }
    }
    Ok(boards)
}

// Whether a side must pass in the first two plies: the mover, or so that two plies below it isn't the mover's turn.
fn passes_below(root: &Board) -> bool {
    if !root.can_move() {
        return true;
    }
    if root.empties() > MOST_EMPTIES {
        return false;
    }
    let frontier = Frontier::of(root, 2);
    for number in 0..frontier.len() {
        if frontier.entry(number).is_some_and(|item| !item.same_mover) {
            return true;
        }
    }
    false
}

// Runs by each crew and over each table over these lines, each of which stands twice: each board is searched once.
fn check_crews<R: Wait + Threads + Sync + AllocGlobal + Abort>(
    rt: &R,
    input: &[u8],
    command: Command,
    once: Heard,
) {
    for workers in [1, 2, 4, 16] {
        for cells in [0, 1, 4_096] {
            let asked = Settings {
                workers,
                cells,
                ..settings(command, Scoring::Winner)
            };
            let gate = Counting::new();
            assert!(rt; run_with(rt, input, &asked, &gate, None));
            assert!(rt;
                gate.has_heard(once) && gate.is_fresh(),
                "{workers} workers, {cells} cells"
            );
        }
    }
}

#[test]
fn each_crew_hears_each_item_of_lines_that_stand_twice(rt: HostRuntime) -> Result<(), Fail> {
    let boards = boards_with_passes(rt.alloc())?;
    assert!(rt; boards.len() == BOARDS);
    let mut input = lines(rt.alloc(), boards.as_slice())?;
    let again = lines(rt.alloc(), boards.as_slice())?;
    input.extend_from_slice(again.as_slice())?;
    let mut below = Heard::default();
    for root in boards.as_slice() {
        assert!(rt; root.empties() == 10 && passes_below(root));
        below = below.and_below(root);
    }
    let once = searches_of(boards.as_slice());
    check_crews(&rt, input.as_slice(), Command::Solve, once);
    check_crews(&rt, input.as_slice(), Command::Scores, below);
    Ok(())
}
