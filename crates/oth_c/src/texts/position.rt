//! Positions as C has them.

ghost use Rattle.std.specs.Prelude.{◌≡◌, ◌<◌, ◌≤◌, IfOk, IfErr, true, false};
ghost use Rattle.oth_c.specs.Boards.{overlaps};
ghost use Rattle.oth_c.specs.Positions.{position_code, side_number, shown, words_of};
ghost use Rattle.oth_c.specs.Codes.{code_of};

use crate::board::OthBoard;
use crate::refusal::{DONE, Refusal};
use oth_text::{Position, Side};

/// A board as its mover sees it, and who that is: 0 Black, 1 White.
#[repr(C)]
#[derive(Clone, Copy, PartialEq, Eq, Debug)]
pub struct OthPosition {
    pub board: OthBoard,
    pub mover: u8,
}

impl OthPosition {
    /// The numbers of a position.
    pub fn of(position: &Position) -> OthPosition
        ensures { result ≡ words_of position.now }
    {
        OthPosition {
            board: OthBoard::of(&position.board),
            mover: side_number(position.mover),
        }
    }

    /// The position of these numbers: refused if a square is in both words, or else if the mover is neither 0 nor 1.
    pub fn position(self) -> Result<Position, Refusal>
        ensures ok { IfOk result (λ p. (position_code self ≡ DONE) × (p ≡ shown self)) }
        ensures err { IfErr result (λ r. position_code self ≡ code_of r) }
    {
        let board = self.board.board()?;
        let mover = match self.mover {
            0 => Side::Black,
            1 => Side::White,
            _ => return Err(Refusal::Mover),
        };
        Ok(Position { board, mover })
    }
}

// The number of the side in C: 0 black, 1 white.
fn side_number(side: Side) -> u8
    ensures { result ≡ side_number side }
{
    match side {
        Side::Black => 0,
        Side::White => 1,
    }
}
