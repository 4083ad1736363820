//! Discs that can no longer be flipped, and what they leave the mover.

use super::{START, board, scrambled};
use oth_rules::{Board, Sym};
use std::process::Abort;

// Boards by their first cells and what all other cells are, and what the opponent's stable discs leave there. They can
// be named by eye: corners, what stands in a row with one along an edge, and what such discs keep on all four lines.
const STABLE_DISCS: [(&[u8], u8, i8); 9] = [
    (START, b'-', 64),
    (b"O", b'-', 62),
    (b"-O", b'-', 64),
    (b"O-O----O", b'-', 60),
    (b"OOOX----", b'-', 58),
    (b"OOOOOOOO", b'-', 48),
    (b"OOOOOOOOOOOOOOO", b'-', 34),
    (b"", b'O', -64),
    (b"", b'X', 64),
];

fn check_stable_discs(rt: &impl Abort, rows: &[(&[u8], u8, i8)]) {
    for (top, rest, most) in rows {
        assert!(rt; board(rt, top, *rest).most_by_stable_discs() == *most);
    }
}

#[test]
fn stable_discs_that_are_seen(rt: HostRuntime) {
    check_stable_discs(&rt, STABLE_DISCS.as_slice());
    // No empty square is in line with the others.
    let corners = 0x8100_0000_0000_0081;
    let last = Board::of(corners & !(1 << 63), !corners).expect(&rt, "apart");
    assert!(rt; last.most_by_stable_discs() == 64 - 2 * 42);
}

// What these stable discs leave, the same whichever way the board is turned.
fn most_of_all_images(rt: &impl Abort, board: &Board) -> i8 {
    let most = board.most_by_stable_discs();
    for number in 1..8 {
        assert!(rt; board.image(Sym::numbered(number)).most_by_stable_discs() == most);
    }
    most
}

#[test]
fn stable_discs_of_all_images(rt: HostRuntime) {
    let mut word = 0x9e37_79b9_7f4a_7c15;
    let mut least = 64;
    for _ in 0..200 {
        let side = scrambled(word);
        let first = scrambled(side);
        word = scrambled(first);
        let board = Board::of((first | word) & side, (first | word) & !side).expect(&rt, "apart");
        least = least.min(most_of_all_images(&rt, &board));
    }
    assert!(rt; least < 64);
}
