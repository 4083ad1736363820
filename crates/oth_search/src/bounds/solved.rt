//! Boards with bounds that enclose their value, true by the type, and what they tell of other boards. What takes a
//! search stands in `pvs` and `exact`.
ghost use Rattle.std.specs.Prelude.{
  ◌≡◌,
  ◌<◌,
  ◌↔◌,
  ◌⊎◌,
  IsSome,
  IfSome,
  IfOk,
  IsOk,
  IsTrue,
  true,
  false,
  ◌≤ℤ◌,
  ◌<ℤ◌,
  neg_ℤ,
  pos,
};
ghost use Rattle.oth_rules.specs.Position.{pass};
ghost use Rattle.oth_rules.specs.Move.{can_move, after};
ghost use Rattle.oth_rules.specs.Laws.{IsLegal};
ghost use Rattle.oth_rules.specs.Score.{score_of};
ghost use Rattle.oth_rules.specs.Value.{value};
ghost use Rattle.oth_search.specs.Bounds.Interval.{IsWider, IsInterval, Encloses, BoundsAt};

use super::answer::Answer;
use super::interval::{Interval, greater, lesser};
use oth_rules::{Board, Scoring, Square};
use thiserror::Error;

/// A board with bounds that enclose its value for the mover, under its scoring. No untrue value of this type can be
/// made: whoever makes one proves its ghost field.
#[derive(Clone, Copy, PartialEq, Eq, Debug)]
pub struct Solved {
    pub board: Board,
    pub scoring: Scoring,
    pub interval: Interval,
    pub ghost encloses: { Encloses interval.lower interval.upper (value (score_of scoring) board) },
}

/// Refusal 1: the solved board does not come after that move of the root.
#[derive(Clone, Copy, PartialEq, Eq, Debug, Error)]
#[error("the solved board does not come after this move")]
pub struct NotChild;

impl Solved {
    /// The board with bounds that are known to enclose its value.
    pub fn of(board: &Board, interval: Interval, scoring: Scoring) -> Solved
        requires { Encloses interval.lower interval.upper (value (score_of scoring) board.now) }
        ensures board { result.board ≡ board.now }
        ensures scoring { result.scoring ≡ scoring }
        ensures interval { result.interval ≡ interval }
    {
        Solved {
            board: *board,
            scoring,
            interval,
        }
    }

    /// A board with these bounds of its value.
    pub(crate) fn between(board: Board, scoring: Scoring, lower: i8, upper: i8) -> Solved
        requires bounds { IsInterval lower upper }
        requires encloses { Encloses lower upper (value (score_of scoring) board) }
        ensures board { result.board ≡ board }
        ensures scoring { result.scoring ≡ scoring }
        ensures lower { result.interval.lower ≡ lower }
        ensures upper { result.interval.upper ≡ upper }
    {
        Solved {
            board,
            scoring,
            interval: Interval { lower, upper },
        }
    }

    /// A board of which nothing is known: its bounds are all scores.
    pub fn unknown(board: Board, scoring: Scoring) -> Solved
        ensures board { result.board ≡ board }
        ensures scoring { result.scoring ≡ scoring }
        ensures lower { result.interval.lower ≡ neg_ℤ (pos 64) }
        ensures upper { result.interval.upper ≡ pos 64 }
    {
        Solved {
            board,
            scoring,
            interval: Interval::all(),
        }
    }

    /// The board of an answer with its score as both bounds.
    pub fn of_answer(answer: &Answer) -> Solved
        ensures board { result.board ≡ answer.now.board }
        ensures scoring { result.scoring ≡ answer.now.scoring }
        ensures lower { result.interval.lower ≡ answer.now.score }
        ensures upper { result.interval.upper ≡ answer.now.score }
    {
        Solved {
            board: answer.board,
            scoring: answer.scoring,
            interval: Interval::exactly(answer.score),
        }
    }

    /// The scoring that these bounds are under.
    pub fn scoring(&self) -> Scoring
        ensures { result ≡ self.now.scoring }
    {
        self.scoring
    }

    /// Whether the board needs no more search, where values above `threshold` are all alike: its value is exact, or
    /// known to be above `threshold`.
    pub fn is_settled(&self, threshold: i8) -> bool
        ensures { IsTrue result ↔ ((self.now.interval.lower ≡ self.now.interval.upper)
            ⊎ (threshold <ℤ self.now.interval.lower)) }
    {
        self.interval.is_exact() || self.interval.lower > threshold
    }

    /// The board with wider bounds; `None` exactly if they leave -64..64 or do not contain the old ones.
    pub fn widen(&self, lower: i8, upper: i8) -> Option<Solved>
        ensures variant { IsSome result ↔ IsWider self.now.interval.lower self.now.interval.upper lower upper }
        ensures board { IfSome result (λ s. (s.board ≡ self.now.board) × (s.scoring ≡ self.now.scoring)) }
        ensures bounds { IfSome result (λ s. (s.interval.lower ≡ lower) × (s.interval.upper ≡ upper)) }
    {
        if -64 <= lower
            && lower <= self.interval.lower
            && self.interval.upper <= upper
            && upper <= 64
        {
            Some(Solved {
                board: self.board,
                scoring: self.scoring,
                interval: Interval { lower, upper },
            })
        } else {
            None
        }
    }

    /// The bounds after a null-window search at `alpha` that found `found`.
    pub fn narrowed(self, alpha: i8, found: i8) -> Solved
        requires { BoundsAt (value (score_of self.scoring) self.board) alpha found }
        ensures board { result.board ≡ self.board }
        ensures scoring { result.scoring ≡ self.scoring }
        ensures above { alpha <ℤ found → (result.interval.lower ≡ found)
            × (result.interval.upper ≡ self.interval.upper) }
        ensures below { found ≤ℤ alpha → (result.interval.lower ≡ self.interval.lower)
            × (result.interval.upper ≡ found) }
    {
        if found > alpha {
            Solved::between(self.board, self.scoring, found, self.interval.upper)
        } else {
            Solved::between(self.board, self.scoring, self.interval.lower, found)
        }
    }

    /// What both tell of the board: the greater lower bound and the lesser upper one. Of another board, or under the
    /// other scoring, the other tells nothing.
    pub fn joined(&self, other: &Solved) -> Solved
        ensures board { result.board ≡ self.now.board }
        ensures scoring { result.scoring ≡ self.now.scoring }
        ensures lower { self.now.interval.lower ≤ℤ result.interval.lower }
        ensures upper { result.interval.upper ≤ℤ self.now.interval.upper }
        ensures both { other.now.board ≡ self.now.board → other.now.scoring ≡ self.now.scoring
            → (other.now.interval.lower ≤ℤ result.interval.lower)
            × (result.interval.upper ≤ℤ other.now.interval.upper) }
    {
        if other.board != self.board || other.scoring != self.scoring {
            return *self;
        }
        let lower = greater(self.interval.lower, other.interval.lower);
        let upper = lesser(self.interval.upper, other.interval.upper);
        Solved::between(self.board, self.scoring, lower, upper)
    }

    /// What a solved child tells of the root: the mover can have at least the child's negated upper bound.
    pub fn lift(root: &Board, square: Square, solved: &Solved) -> Result<Solved, NotChild>
        ensures child { IsOk result ↔ (IsLegal root.now square × (solved.now.board ≡ after root.now square)) }
        ensures root { IfOk result (λ s. (s.board ≡ root.now) × (s.scoring ≡ solved.now.scoring)) }
        ensures lower { IfOk result (λ s. s.interval.lower ≡ neg_ℤ solved.now.interval.upper) }
        ensures upper { IfOk result (λ s. s.interval.upper ≡ pos 64) }
    {
        match root.play(square) {
            Some(child) if child == solved.board => Ok(Solved {
                board: *root,
                scoring: solved.scoring,
                interval: Interval {
                    lower: -solved.interval.upper,
                    upper: 64,
                },
            }),
            _ => Err(NotChild),
        }
    }

    /// The board after a forced pass, with the bounds that the ones before it give.
    pub fn passed(&self) -> Solved
        requires none { can_move self.now.board ≡ false }
        requires some { can_move (pass self.now.board) ≡ true }
        ensures board { result.board ≡ pass self.now.board }
        ensures scoring { result.scoring ≡ self.now.scoring }
        ensures lower { result.interval.lower ≡ neg_ℤ self.now.interval.upper }
        ensures upper { result.interval.upper ≡ neg_ℤ self.now.interval.lower }
    {
        Solved {
            board: self.board.pass(),
            scoring: self.scoring,
            interval: self.interval.turned(),
        }
    }

    /// As `passed` where the mover must pass, else this board and its bounds.
    pub fn awake(&self) -> Solved
        ensures scoring { result.scoring ≡ self.now.scoring }
    {
        if !self.board.can_move() && self.board.pass().can_move() {
            self.passed()
        } else {
            *self
        }
    }

    /// `board`, whose mover must pass, with the bounds that those of this board, the one after the pass, give.
    pub fn before_pass(&self, board: &Board) -> Solved
        requires passed { self.now.board ≡ pass board.now }
        requires none { can_move board.now ≡ false }
        requires some { can_move (pass board.now) ≡ true }
        ensures board { result.board ≡ board.now }
        ensures scoring { result.scoring ≡ self.now.scoring }
        ensures lower { result.interval.lower ≡ neg_ℤ self.now.interval.upper }
        ensures upper { result.interval.upper ≡ neg_ℤ self.now.interval.lower }
    {
        let interval = self.interval.turned();
        Solved {
            board: *board,
            scoring: self.scoring,
            interval,
        }
    }
}

impl Default for Solved {
    /// The empty board, of which nothing is known.
    fn default() -> Solved {
        Solved::unknown(Board::default(), Scoring::Winner)
    }
}
