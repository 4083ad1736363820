//! The rank of a move, by squares and by the replies to it: the lower, the earlier it is searched.
ghost use Rattle.std.specs.Prelude.{◌≡◌, ◌≤◌, ◌+◌, if◌then◌else◌};
ghost use Rattle.oth_rules.specs.Square.{has};
ghost use Rattle.oth_search.specs.declared.ordering.rank.TheConstants.{CORNERS, X_SQUARES};
ghost use Rattle.oth_search.specs.declared.tuning.TheConstants.{OFF_CORNER, ON_X_SQUARE};

use crate::tuning::{CORNER_REPLY, IN_EVEN_QUADRANT, OFF_CORNER, ON_X_SQUARE, OPEN_SQUARE, REPLY};
use oth_rules::{Board, INNER, Square};

/// The four corners.
pub const CORNERS: u64 = 0x8100_0000_0000_0081;

/// The squares that touch a corner by a diagonal.
pub const X_SQUARES: u64 = 0x0042_0000_0000_4200;

// The rank points of a corner, of a square off the corners, and of an X square.
const C: u16 = 0;

const O: u16 = OFF_CORNER;

const X: u16 = OFF_CORNER + ON_X_SQUARE;

// The points of each square, four rows of the board in a line.
static SQUARE_POINTS: [u16; 64] = [
    C, O, O, O, O, O, O, C, O, X, O, O, O, O, X, O, O, O, O, O, O, O, O, O, O, O, O, O, O, O, O, O,
    O, O, O, O, O, O, O, O, O, O, O, O, O, O, O, O, O, X, O, O, O, O, X, O, C, O, O, O, O, O, O, C,
];

/// The rank of a move by the board after it and the `replies` there: the short rank, and the opponent's potential
/// mobility, which is the number of empty squares beside the mover's discs.
pub fn rank(child: &Board, replies: u64, square: Square, odd: u64) -> u16
    ensures { result ≤ 2400 }
{
    short_rank(replies, square, odd)
        + OPEN_SQUARE * count(around(child.opp()) & child.empty_squares())
}

/// The rank of a move by the replies alone: few moves of the opponent (mobility), few corners among them. A corner
/// itself and a square of an odd quadrant come early, a square diagonal to a corner late.
pub fn short_rank(replies: u64, square: Square, odd: u64) -> u16
    ensures { result ≤ 2100 }
{
    REPLY * count(replies)
        + CORNER_REPLY * count(replies & CORNERS)
        + square_points(square)
        + points_in(!odd, square, IN_EVEN_QUADRANT)
}

// The points of the square by itself: off a corner, and besides on an X square.
fn square_points(square: Square) -> u16
    ensures value { result ≡ (if has CORNERS square then 0 else OFF_CORNER)
        + (if has X_SQUARES square then ON_X_SQUARE else 0) }
    ensures most { result ≤ OFF_CORNER + ON_X_SQUARE }
{
    SQUARE_POINTS[square.number() as usize]
}

/// How many squares the set has.
pub fn count(set: u64) -> u16
    ensures { result ≤ 64 }
{
    set.count_ones() as u16
}

// `points` if the square is in the set, else 0.
fn points_in(set: u64, square: Square, points: u16) -> u16
    ensures { result ≤ points }
{
    if set & square.word() != 0 { points } else { 0 }
}

/// The squares of the set and those beside them, in all eight directions.
pub fn around(set: u64) -> u64 {
    let inner = set & INNER;
    let rows = set | (inner << 1) | (inner >> 1);
    rows | (rows << 8) | (rows >> 8)
}
