//! The best score so far, while the boards after a root's moves are searched one after another.
ghost use Rattle.std.specs.Prelude.{◌≡◌, ◌<ℤ◌};
ghost use Rattle.oth_search.specs.Bounds.Squares.{With};

use crate::bounds::with;
use oth_rules::Square;

/// A score that a root is known to reach, and the moves that reach it, of those that were searched so far.
#[derive(Clone, Copy)]
pub(super) struct BestSoFar {
    pub score: i8,
    pub moves: u64,
}

impl BestSoFar {
    /// The best after a further move, which gives this score: the best so far, or more.
    #[inline(always)]
    pub fn with(self, square: Square, score: i8) -> BestSoFar
        ensures score { result.score ≡ score }
        ensures equal { score ≡ self.score → With self.moves square result.moves }
        ensures better { self.score <ℤ score → With 0 square result.moves }
    {
        let others = if score > self.score { 0 } else { self.moves };
        BestSoFar {
            score,
            moves: with(others, square),
        }
    }
}
