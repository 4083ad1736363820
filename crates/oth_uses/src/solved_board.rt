//! A board is solved: its score and all its best moves.

ghost use Rattle.std.specs.Prelude.{◌≡◌, ◌<◌, ◌↔◌, Err, IfOk, bit_and};
ghost use Rattle.oth_rules.specs.Position.{empty_count};
ghost use Rattle.oth_search.specs.Bounds.Full.{IsFullMinimax};

use oth_rules::{Board, Scoring};
use oth_search::{Answer, solve_alone};
use thiserror::Error;

/// Why there is no answer.
#[derive(Clone, Copy, PartialEq, Eq, Debug, Error)]
pub enum Unsolved {
    #[error("a square has discs of both")]
    Overlap,
    #[error("more than 30 squares are empty")]
    Empties,
}

/// The score of these discs of the mover and of the opponent, bit `n` for square `n`, and all best moves, with the
/// empty squares given to the winner.
pub fn best_moves(own: u64, opp: u64) -> Result<Answer, Unsolved>
    ensures full { IfOk result (IsFullMinimax (record { own = own; opp = opp }) Scoring.Winner) }
    ensures overlap { (result ≡ Err Unsolved.Overlap) ↔ (0 < bit_and own opp) }
    ensures many { (result ≡ Err Unsolved.Empties) → 30 < empty_count (record { own = own; opp = opp }) }
{
    let board = Board::of(own, opp).map_err(|_| Unsolved::Overlap)?;
    solve_alone(&board, Scoring::Winner).map_err(|_| Unsolved::Empties)
}
