//! How far the search of a root is.

ghost use Rattle.std.specs.Prelude.{◌≡◌, IfSome, IsTrue, neg_ℤ};
ghost use Rattle.oth_rules.specs.Move.{after, is_legal};
ghost use Rattle.oth_rules.specs.Score.{score_of};
ghost use Rattle.oth_rules.specs.Value.{value};
ghost use Rattle.oth_search.specs.Bounds.Interval.{Encloses};

use oth_rules::{Board, Square};
use oth_search::{Interval, Solved};

/// What is known of a root under search, and how many of its moves need no further search.
#[derive(Clone, Copy)]
pub(crate) struct UnderSearch {
    pub root: Solved,
    pub settled: u64,
}

impl UnderSearch {
    /// What is known of the board, where that is the root, or the root comes after its forced pass.
    pub fn known_of(&self, board: &Board) -> Option<Solved>
        ensures board { IfSome result (λ s. s.board ≡ board.now) }
        ensures scoring { IfSome result (λ s. s.scoring ≡ self.now.root.scoring) }
    {
        if self.root.board == *board {
            return Some(self.root);
        }
        if board.can_move() || self.root.board != board.pass() || !self.root.board.can_move() {
            return None;
        }
        Some(self.root.before_pass(board))
    }

    /// What the mover's score lies between, where the board is the root, or the root comes after its forced pass.
    pub fn bounds_of(&self, board: &Board) -> Option<Interval>
        ensures encloses { IfSome result (λ known. Encloses known.lower known.upper
            (value (score_of self.now.root.scoring) board.now)) }
    {
        Some(self.known_of(board)?.interval)
    }

    /// What is known of the board after a move, where the root is that one, or comes after a forced pass there.
    pub fn known_after(&self, board: &Board, square: Square) -> Option<Solved>
        ensures legal { IfSome result (λ s. IsTrue (is_legal board.now square)) }
        ensures board { IfSome result (λ s. s.board ≡ after board.now square) }
        ensures scoring { IfSome result (λ s. s.scoring ≡ self.now.root.scoring) }
    {
        let child = board.play(square)?;
        self.known_of(&child)
    }

    /// What the mover's score of a move lies between, where the root is the board after the move, or comes after a
    /// forced pass there.
    pub fn known_for_mover(&self, board: &Board, square: Square) -> Option<Interval>
        ensures encloses { IfSome result (λ known. Encloses known.lower known.upper
            (neg_ℤ (value (score_of self.now.root.scoring) (after board.now square)))) }
    {
        let known = self.known_after(board, square)?;
        Some(known.interval.turned())
    }

    /// The move of the board after which the root comes, or comes after a forced pass.
    pub fn move_of(&self, board: &Board) -> Option<Square>
        ensures legal { IfSome result (λ s. IsTrue (is_legal board.now s)) }
    {
        for number in 0..64u8 {
            let square = Square::of(number)?;
            if self.known_after(board, square).is_some() {
                return Some(square);
            }
        }
        None
    }
}
