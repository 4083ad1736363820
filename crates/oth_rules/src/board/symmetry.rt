//! The images of a board, and the least of them, by which a board and its images are known as one.
ghost use Rattle.std.specs.Prelude.{◌≡◌, ◌<◌};
ghost use Rattle.oth_rules.specs.Square.{word_of};
ghost use Rattle.oth_rules.specs.Score.{score_of};
ghost use Rattle.oth_rules.specs.Value.{value, is_best};
ghost use Rattle.oth_rules.specs.Symmetry.{image, map_word, is_below, canonical, IsLeastImage};
ghost use Rattle.oth_rules.specs.declared.scoring.Scoring.{Scoring as ScoringBy};

use super::Board;
use crate::sym::{Sym, map};

impl Board {
    /// The board with each disc carried along the symmetry. Its value is the same, and its best moves are carried.
    pub fn image(&self, sym: Sym) -> Board
        ensures image { result ≡ image sym self.now }
        ensures same_value { (g : ScoringBy) → value (score_of g) result ≡ value (score_of g) self.now }
        ensures best_carried { (g : ScoringBy) → word_of (is_best (score_of g) result)
            ≡ map_word sym (word_of (is_best (score_of g) self.now)) }
        ensures valid { sym < 8 }
    {
        Board {
            own: map(self.own, sym),
            opp: map(self.opp, sym),
        }
    }

    // Whether the pair of words is less, the own word first.
    fn is_below(&self, other: &Board) -> bool
        ensures { result ≡ is_below self.now other.now }
    {
        self.own < other.own || self.own == other.own && self.opp < other.opp
    }

    /// The image with the least pair of words, the mover's word first, and the least-numbered symmetry that gives it.
    pub fn canonical(&self) -> (Board, Sym)
        ensures board { result.0 ≡ canonical self.now }
        ensures by { IsLeastImage self.now result.0 result.1 }
    {
        let mut by = Sym::numbered(0);
        let mut least = self.image(by);
        for number in 1..8 {
            let sym = Sym::numbered(number);
            let image = self.image(sym);
            if image.is_below(&least) {
                least = image;
                by = sym;
            }
        }
        (least, by)
    }
}
