//! Boards as C has them.

ghost use Rattle.std.specs.Prelude.{◌≡◌, ◌<◌, ◌≤◌, IfOk, IfErr, true, false};
ghost use Rattle.oth_rules.specs.Position.{IsBoard};
ghost use Rattle.oth_c.specs.Boards.{overlaps, position};
ghost use Rattle.oth_c.specs.declared.refusal.Refusal.TheVariants as refusal;

use crate::refusal::Refusal;
use oth_rules::{Board, Square};

/// The discs of the mover and of the opponent, bit `n` of each word for square `n`: a1 is bit 0, h1 bit 7, h8 bit 63.
#[repr(C)]
#[derive(Clone, Copy, PartialEq, Eq, Debug)]
pub struct OthBoard {
    pub own: u64,
    pub opp: u64,
}

impl OthBoard {
    /// The words of a board.
    pub fn of(board: &Board) -> OthBoard
        ensures { position result ≡ board.now }
    {
        OthBoard {
            own: board.own(),
            opp: board.opp(),
        }
    }

    /// The board of these words; refused if a square is in both.
    pub fn board(self) -> Result<Board, Refusal>
        ensures ok { IfOk result (λ b. (overlaps self ≡ false) × (b ≡ position self) × IsBoard b) }
        ensures err { IfErr result (λ r. (overlaps self ≡ true) × (r ≡ refusal.Overlap)) }
    {
        Board::of(self.own, self.opp).map_err(|_| Refusal::Overlap)
    }
}

/// The square of this number; refused from 64 on.
pub fn square_of(number: u8) -> Result<Square, Refusal>
    ensures ok { IfOk result (λ s. (s ≡ number) × (number < 64)) }
    ensures err { IfErr result (λ r. (64 ≤ number) × (r ≡ refusal.Square)) }
{
    Square::of(number).ok_or(Refusal::Square)
}
