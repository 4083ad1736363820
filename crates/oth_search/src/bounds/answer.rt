//! Answers: a board's value and all its best moves, true by the type.
ghost use Rattle.std.specs.Prelude.{◌≡◌};
ghost use Rattle.oth_rules.specs.Square.{word_of};
ghost use Rattle.oth_rules.specs.Symmetry.{image, map_word};
ghost use Rattle.oth_rules.specs.Score.{score_of};
ghost use Rattle.oth_rules.specs.Value.{value, is_best};
ghost use Rattle.oth_search.specs.Bounds.Answer.{kind_of};

use super::kind::Kind;
use oth_rules::{Board, Scoring, Sym, map};

/// A board with its value for the mover, -64 to 64, and all its best moves, as a set of squares. Where the mover passes
/// or the game is over the set is empty. No untrue value of this type can be made: whoever makes one proves its three
/// ghost fields.
#[derive(Clone, Copy, PartialEq, Eq, Debug)]
pub struct Answer {
    pub board: Board,
    pub scoring: Scoring,
    pub score: i8,
    pub best: u64,
    pub kind: Kind,
    pub ghost is_value: { score ≡ value (score_of scoring) board },
    pub ghost are_best: { best ≡ word_of (is_best (score_of scoring) board) },
    pub ghost fits: { kind ≡ kind_of board },
}

impl Answer {
    /// The answer of a board whose value, best moves and kind are known.
    pub fn of(board: &Board, score: i8, best: u64, kind: Kind, scoring: Scoring) -> Answer
        requires score { score ≡ value (score_of scoring) board.now }
        requires best { best ≡ word_of (is_best (score_of scoring) board.now) }
        requires kind { kind ≡ kind_of board.now }
        ensures board { result.board ≡ board.now }
        ensures scoring { result.scoring ≡ scoring }
        ensures score { result.score ≡ score }
        ensures best { result.best ≡ best }
        ensures kind { result.kind ≡ kind }
    {
        Answer {
            board: *board,
            scoring,
            score,
            best,
            kind,
        }
    }

    /// The scoring that the answer is under.
    pub fn scoring(&self) -> Scoring
        ensures { result ≡ self.now.scoring }
    {
        self.scoring
    }

    /// The answer of the board's image.
    pub fn carried(&self, sym: Sym) -> Answer
        ensures board { result.board ≡ image sym self.now.board }
        ensures scoring { result.scoring ≡ self.now.scoring }
        ensures score { result.score ≡ self.now.score }
        ensures best { result.best ≡ map_word sym self.now.best }
        ensures kind { result.kind ≡ self.now.kind }
    {
        Answer {
            board: self.board.image(sym),
            scoring: self.scoring,
            score: self.score,
            best: map(self.best, sym),
            kind: self.kind,
        }
    }
}
