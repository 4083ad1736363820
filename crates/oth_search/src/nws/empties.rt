//! The empty squares of a board, and the parity of each quadrant.
ghost use Rattle.std.specs.Prelude.{◌≡◌, ◌<◌};
ghost use Rattle.oth_rules.specs.Square.{word_of};
ghost use Rattle.oth_rules.specs.Position.{is_empty};
ghost use Rattle.oth_search.specs.Bounds.Squares.{In, Without};

use super::quadrant::quadrant_of;
use crate::bounds::{odd_quadrants, without};
use oth_rules::{Board, Square};

/// The empty squares of a board, and the quadrants with an odd number of them: moves to those are tried first.
#[derive(Clone, Copy)]
pub struct Empties {
    pub all: u64,
    pub odd: u64,
}

impl Empties {
    /// The empty squares of this board.
    #[inline(always)]
    pub fn of(board: &Board) -> Empties
        ensures { result.all ≡ word_of (is_empty board.now) }
    {
        let all = board.empty_squares();
        Empties {
            all,
            odd: odd_quadrants(all),
        }
    }

    /// The squares that a move to `square` leaves empty.
    #[inline(always)]
    pub fn without(self, square: Square) -> Empties
        requires { In self.all square }
        ensures fewer { result.all < self.all }
        ensures rest { Without self.all square result.all }
    {
        Empties {
            all: without(self.all, square),
            odd: self.odd ^ quadrant_of(square),
        }
    }
}
