//! The board after a move, with the sort key of the move.
ghost use Rattle.std.specs.Prelude.{◌≡◌};
ghost use Rattle.oth_rules.specs.Square.{word_of};
ghost use Rattle.oth_rules.specs.Move.{is_legal};
ghost use Rattle.oth_search.specs.Ordering.Keys.{key_square};

use super::key::Key;
use crate::nws::Node;
use oth_rules::{Board, Square};

/// A move by its key, with the board after it and the legal moves there: four words, with no padding between them.
#[derive(Clone, Copy, Default)]
pub struct Child {
    pub key: Key,
    pub board: Board,
    pub moves: u64,
}

impl Child {
    /// The square of the move.
    #[inline(always)]
    pub fn square(&self) -> Square
        ensures { result ≡ key_square self.now.key }
    {
        self.key.square()
    }

    /// The board after the move, with its moves.
    #[inline(always)]
    pub fn node(&self) -> Node
        requires { self.now.moves ≡ word_of (is_legal self.now.board) }
        ensures { result.board ≡ self.now.board }
    {
        Node {
            board: self.board,
            moves: self.moves,
        }
    }
}
