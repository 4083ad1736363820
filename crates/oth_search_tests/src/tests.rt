//! What no clause says of the search, a file for each subject; boards and bounds that several of these tests take.

mod bounds;
mod combining;
mod hearing;
mod keeping;
mod limited;
mod local_tables;
mod root;
mod scores;
mod solving;
mod speed;

use oth_rules::Board;
use oth_rules::samples::after_least_moves;
use oth_search::Interval;
use std::process::Abort;

/// The board with row 1 `--OXOOO-` and all else `O`, seen by `X`.
const A: [u64; 2] = [0x8, 0xffff_ffff_ffff_ff74];

/// The board of these words.
pub(crate) fn board_of(rt: &impl Abort, words: [u64; 2]) -> Board {
    Board::of(words[0], words[1]).expect(rt, "no disc is of both sides")
}

/// The bounds that were found are these.
pub(crate) fn check_bounds(rt: &impl Abort, found: Interval, lower: i8, upper: i8) {
    assert!(rt; found.lower == lower && found.upper == upper);
}

/// The board that the least-numbered moves lead to from the start, of this many empty squares.
pub(crate) fn line_of(rt: &impl Abort, empties: u8) -> Board {
    after_least_moves(empties).expect(rt, "a line")
}
