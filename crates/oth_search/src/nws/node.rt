//! A board with its moves, each worked out once.
ghost use Rattle.std.specs.Prelude.{◌≡◌};
ghost use Rattle.oth_rules.specs.Square.{word_of};
ghost use Rattle.oth_rules.specs.Move.{is_legal};

use oth_rules::Board;

/// A board with the squares where its mover has a legal move.
#[derive(Clone, Copy)]
pub struct Node {
    pub board: Board,
    pub moves: u64,
    pub ghost legal: { moves ≡ word_of (is_legal board) },
}

impl Node {
    /// The board with its moves.
    pub fn of(board: Board) -> Node
        ensures { result.board ≡ board }
    {
        Node {
            board,
            moves: board.moves_by_lines(),
        }
    }
}
