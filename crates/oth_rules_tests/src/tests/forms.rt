//! Each form of moves and flips gives the same on every board of the worked rows, on the boards that are played from
//! them, and on the images of both.

use super::{START, board, check_forms};
use oth_rules::samples::{self, after_least_moves};
use oth_rules::{Board, Square, Sym};
use std::process::Abort;

// The first cells of each row's board, and what all other cells are.
const ROWS: [(&[u8], u8); 13] = [
    (START, b'-'),
    (b"", b'X'),
    (
        b"XXXXXXXXXXXXXXXXXXXXXXXXXXXXXXXXXXXXXXXXXXXXXXXXXXXXXXXXXXXXXXX-",
        b'-',
    ),
    (
        b"-XXXXXXXXOOOOOOXXOOOOOOXXOOOOOOXXOOOOOOXXOOOOOOXXXXXXXOXXXXXXXX-",
        b'-',
    ),
    (b"-OXXXXXX", b'X'),
    (b"-OXXXXO-", b'X'),
    (b"-OOOOOOXOOOOOOO-", b'O'),
    (b"--OXOOO-", b'O'),
    (b"-OOOXO--", b'O'),
    (b"-OXXXXXX-OXXXXXX", b'X'),
    (
        b"-OXXXXO-XXXXXXXXXXXXXXXXXXXXXXXXXXXXXXXXXXXXXXXXXXXXXXXX-OXXXXO-",
        b'-',
    ),
    (b"------------------------------", b'X'),
    (b"-------------------------------", b'X'),
];

// On the board, on each of its images, and on these after a pass.
fn check_images(rt: &impl Abort, board: &Board) {
    for number in 0..8 {
        let image = board.image(Sym::numbered(number));
        check_forms(rt, &image);
        check_forms(rt, &image.pass());
    }
}

// The board after the move, with a pass put in where the other side can't move; none where the move is illegal.
fn item(board: &Board, square: Square) -> Option<Board> {
    let child = board.play(square)?;
    Some(if child.moves() == 0 {
        child.pass()
    } else {
        child
    })
}

// On each board that a move leads to, and on each that a second one leads to; how many they are.
fn check_two_plies(rt: &impl Abort, board: &Board) -> u32 {
    let mut count = 0;
    for first in 0..64 {
        let Some(child) = item(board, Square::numbered(first)) else {
            continue
        };
        check_images(rt, &child);
        count = u32::saturating_add(count, 1);
        for second in 0..64 {
            if let Some(grandchild) = item(&child, Square::numbered(second)) {
                check_images(rt, &grandchild);
                count = u32::saturating_add(count, 1);
            }
        }
    }
    count
}

fn check_rows(rt: &impl Abort, rows: &[(&[u8], u8)]) {
    for (top, rest) in rows {
        let row = board(rt, top, *rest);
        check_images(rt, &row);
        check_two_plies(rt, &row);
        check_two_plies(rt, &row.pass());
    }
}

// Below the start are 4 boards and 12 of these; below A are 2, and one below each of these.
#[test]
fn forms_on_the_boards_of_the_rows(rt: HostRuntime) {
    check_rows(&rt, ROWS.as_slice());
    assert!(rt; check_two_plies(&rt, &board(&rt, START, b'-')) == 4 + 12);
    assert!(rt; check_two_plies(&rt, &board(&rt, b"--OXOOO-", b'O')) == 2 + 2);
}

// From the start the least-numbered move, until the game is over: also the boards of at most 16 and 10 empty squares.
#[test]
fn forms_on_the_boards_of_the_least_moves(rt: HostRuntime) {
    let mut fewest = 64;
    for empties in 0..61 {
        let board = after_least_moves(60 - empties).expect(&rt, "a sample");
        check_images(&rt, &board);
        fewest = board.empties();
    }
    assert!(rt; fewest < 10);
}

// Numbers of empty squares, and the boards that the least-numbered moves lead to from the start, as another program
// plays them.
const LEAST_MOVES: [(u8, u64, u64); 5] = [
    (60, 0x0000_0008_1000_0000, 0x0000_0010_0800_0000),
    (59, 0x0000_0010_0000_0000, 0x0000_0008_1808_0000),
    (30, 0x0000_0006_0e5f_3f7f, 0x0000_0139_3120_4000),
    (10, 0x0180_e080_90a0_c080, 0x000f_1f7f_6f5f_3f7f),
    (0, 0x3fb0_8880_90a0_c080, 0xc04f_777f_6f5f_3f7f),
];

// Whether the least-numbered moves lead to the board of these words, which is a sample where it may be solved.
fn is_reached(empties: u8, own: u64, opp: u64) -> bool {
    let Some(board) = after_least_moves(empties) else {
        return false;
    };
    let sample = if empties > 30 { None } else { Some(board) };
    board.own() == own && board.opp() == opp && samples::board([own, opp]) == sample
}

#[test]
fn the_least_moves_lead_to_these_boards(rt: HostRuntime) {
    for (empties, own, opp) in LEAST_MOVES {
        assert!(rt; is_reached(empties, own, opp));
    }
}
