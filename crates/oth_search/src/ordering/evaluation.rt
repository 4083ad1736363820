//! The static evaluation of a board, as it stands or after some plies, for move ordering.
ghost use Rattle.std.specs.Prelude.{◌<◌, ◌≤◌, pos, neg_ℤ, ◌≤ℤ◌};

use super::lookahead::{EvalWindow, lookahead};
use super::rank::{CORNERS, X_SQUARES, around, count};
use crate::bounds::{first, without};
use crate::nws::Node;
use crate::tuning::{
    CORNER_MOVE, CORNER_TAKEN, DISC, LOOKAHEAD_FIVE_MIN_EMPTIES, LOOKAHEAD_FOUR_MIN_EMPTIES,
    LOOKAHEAD_MIN_EMPTIES, LOOKAHEAD_THREE_MIN_EMPTIES, MARGIN, MOVE, OPEN_TO_MOVER,
    OPPOSING_X_SQUARE, STABLE_EDGE_DISC,
};
use oth_rules::{Board, Twin};

/// How well a board seems to stand for its mover, -6,400 to 6,400 points.
#[derive(Clone, Copy)]
pub struct Evaluation {
    points: i16,
    ghost low: { neg_ℤ (pos 6400) ≤ℤ points },
    ghost high: { points ≤ℤ pos 6400 },
}

impl Evaluation {
    /// The worst one.
    pub const WORST: Evaluation = Evaluation { points: -6400 };

    /// The best one.
    pub const BEST: Evaluation = Evaluation { points: 6400 };

    /// The evaluation as the opponent sees it.
    pub fn turned(self) -> Evaluation {
        Evaluation {
            points: -self.points,
        }
    }

    /// The one with more points.
    pub fn better(self, other: Evaluation) -> Evaluation {
        if other.points > self.points {
            other
        } else {
            self
        }
    }

    /// The one with fewer points.
    pub fn lesser(self, other: Evaluation) -> Evaluation {
        if other.points < self.points {
            other
        } else {
            self
        }
    }

    /// The evaluation from which a child is looked at no further, if this one is the least so far: `MARGIN` points
    /// above it.
    pub fn enough(self) -> Evaluation {
        Evaluation {
            points: (self.points + MARGIN).min(6400),
        }
    }

    /// Whether it has at least as many points as `enough`.
    pub fn reaches(self, enough: Evaluation) -> bool {
        self.points >= enough.points
    }

    /// How many points it is above the worst one, 0 to 12,800.
    pub fn above_worst(self) -> u16
        ensures { result ≤ 12800 }
    {
        (self.points + 6400) as u16
    }
}

/// Evaluates a child for its mover, who has `moves`, to order the children of a board of `empties` empty squares: after
/// some plies, or below `LOOKAHEAD_MIN_EMPTIES` as it stands. Less exact from `enough` on.
pub fn evaluation_of(child: &Board, moves: u64, empties: u8, enough: Evaluation) -> Evaluation {
    match plies_ahead(empties) {
        0 => standing(Twin::of(child), moves),
        1 => a_ply_ahead(child, moves, enough),
        plies => lookahead(Node::of(*child), plies, EvalWindow::up_to(enough)),
    }
}

// How many plies the children of a board of `empties` empty squares are looked ahead.
fn plies_ahead(empties: u8) -> u8 {
    if empties < LOOKAHEAD_MIN_EMPTIES {
        0
    } else if empties < LOOKAHEAD_THREE_MIN_EMPTIES {
        1
    } else if empties < LOOKAHEAD_FOUR_MIN_EMPTIES {
        3
    } else if empties < LOOKAHEAD_FIVE_MIN_EMPTIES {
        4
    } else {
        5
    }
}

// Evaluates a child a ply ahead: after a forced pass the board as it stands, and a finished game by its discs.
fn a_ply_ahead(child: &Board, moves: u64, enough: Evaluation) -> Evaluation {
    if moves != 0 {
        return look_past_moves(child, moves, enough);
    }
    let passed = Twin::of(child).pass();
    let replies = passed.moves();
    if replies != 0 {
        return standing(passed, replies).turned();
    }
    by_discs(child)
}

/// The best evaluation as it stands after one of these moves, or the first that reaches `enough`.
pub fn look_past_moves(board: &Board, moves: u64, enough: Evaluation) -> Evaluation {
    let twin = Twin::of(board);
    let mut best = Evaluation::WORST;
    let mut rest = moves;
    while rest != 0 {
        let square = first(rest);
        rest = without(rest, square);
        if let Some(child) = twin.play(square) {
            best = best.better(standing(child, child.moves()).turned());
        }
        if best.reaches(enough) {
            return best;
        }
    }
    best
}

/// Evaluates a finished game by its discs.
pub fn by_discs(board: &Board) -> Evaluation {
    Evaluation {
        points: DISC * (count(board.own()) as i16 - count(board.opp()) as i16),
    }
}

// Evaluates a board as it stands: the strength of the mover, who has `moves`, less that of the opponent.
fn standing(twin: Twin, moves: u64) -> Evaluation {
    let passed = twin.pass();
    Evaluation {
        points: strength(&twin.board(), moves) as i16
            - strength(&passed.board(), passed.moves()) as i16,
    }
}

// How strong the mover is, in points: moves, corners among them, empty squares beside opposing discs, corners taken,
// discs that are held along an edge, and opposing discs that give a corner away.
#[inline(always)]
fn strength(board: &Board, moves: u64) -> u16
    ensures { result ≤ 4800 }
{
    MOVE * count(moves)
        + CORNER_MOVE * count(moves & CORNERS)
        + OPEN_TO_MOVER * count(around(board.opp()) & board.empty_squares())
        + CORNER_TAKEN * count(board.own() & CORNERS)
        + STABLE_EDGE_DISC * stable_edge_discs(board.own())
        + OPPOSING_X_SQUARE * count(board.opp() & diagonal_to(board.empty_squares() & CORNERS))
}

// The squares of the column a.
const COLUMN_A: u64 = 0x0101_0101_0101_0101;

// Gathers the squares of the column a in the highest eight bits of a product.
const COLUMN_FACTOR: u64 = 0x0102_0408_1020_4080;

// By the squares of an edge, a bit each: how many of them stand in a row from one of its ends, without a gap.
static HELD_ALONG: [u8; 256] = [
    0, 1, 0, 2, 0, 1, 0, 3, 0, 1, 0, 2, 0, 1, 0, 4, 0, 1, 0, 2, 0, 1, 0, 3, 0, 1, 0, 2, 0, 1, 0, 5,
    0, 1, 0, 2, 0, 1, 0, 3, 0, 1, 0, 2, 0, 1, 0, 4, 0, 1, 0, 2, 0, 1, 0, 3, 0, 1, 0, 2, 0, 1, 0, 6,
    0, 1, 0, 2, 0, 1, 0, 3, 0, 1, 0, 2, 0, 1, 0, 4, 0, 1, 0, 2, 0, 1, 0, 3, 0, 1, 0, 2, 0, 1, 0, 5,
    0, 1, 0, 2, 0, 1, 0, 3, 0, 1, 0, 2, 0, 1, 0, 4, 0, 1, 0, 2, 0, 1, 0, 3, 0, 1, 0, 2, 0, 1, 0, 7,
    1, 2, 1, 3, 1, 2, 1, 4, 1, 2, 1, 3, 1, 2, 1, 5, 1, 2, 1, 3, 1, 2, 1, 4, 1, 2, 1, 3, 1, 2, 1, 6,
    1, 2, 1, 3, 1, 2, 1, 4, 1, 2, 1, 3, 1, 2, 1, 5, 1, 2, 1, 3, 1, 2, 1, 4, 1, 2, 1, 3, 1, 2, 1, 7,
    2, 3, 2, 4, 2, 3, 2, 5, 2, 3, 2, 4, 2, 3, 2, 6, 2, 3, 2, 4, 2, 3, 2, 5, 2, 3, 2, 4, 2, 3, 2, 7,
    3, 4, 3, 5, 3, 4, 3, 6, 3, 4, 3, 5, 3, 4, 3, 7, 4, 5, 4, 6, 4, 5, 4, 7, 5, 6, 5, 7, 6, 7, 7, 8,
];

// How many squares of the set stand without a gap in a row with a corner of the set, along an edge: discs there are
// never flipped. A corner stands on two edges.
fn stable_edge_discs(set: u64) -> u16
    ensures { result ≤ 32 }
{
    let columns = [set & COLUMN_A, (set >> 7) & COLUMN_A];
    let on_edges = held_along(set)
        + held_along(set >> 56)
        + held_along(columns[0].wrapping_mul(COLUMN_FACTOR) >> 56)
        + held_along(columns[1].wrapping_mul(COLUMN_FACTOR) >> 56);
    on_edges.saturating_sub(count(set & CORNERS))
}

// How many squares of the edge that the lowest eight bits tell stand without a gap in a row from one of its ends.
fn held_along(edge: u64) -> u16
    ensures { result ≤ 8 }
{
    u16::from(HELD_ALONG[(edge & 255) as usize])
}

// The squares diagonal to these corners.
fn diagonal_to(corners: u64) -> u64 {
    ((corners << 9) | (corners << 7) | (corners >> 7) | (corners >> 9)) & X_SQUARES
}
