//! A guess of the root's score and best move, as workers tell it to each other.
ghost use Rattle.std.specs.Prelude.{pos, negsuc, ◌≤ℤ◌};

use oth_rules::Square;

/// A score that the root seems to reach, -63 to 64, and the move by which it seems to.
#[derive(Clone, Copy)]
pub(crate) struct Guess {
    pub score: i8,
    pub square: Square,
    ghost range: { (negsuc 62 ≤ℤ score) × (score ≤ℤ pos 64) },
}

impl Guess {
    /// The guess of this score, or of the nearest in the range, by this move.
    pub fn of(score: i8, square: Square) -> Guess {
        Guess {
            score: score.max(-63).min(64),
            square,
        }
    }
}
