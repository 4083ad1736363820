//! Move, pass or end.
ghost use Rattle.std.specs.Prelude.{◌≡◌};
ghost use Rattle.oth_search.specs.Bounds.Answer.{kind_of};

use oth_rules::Board;

/// What the mover of a board does.
#[derive(Clone, Copy, PartialEq, Eq, Debug)]
pub enum Kind {
    /// Has a legal move.
    Move,
    /// Has none, and the other side has one.
    Pass,
    /// Neither side has one: the game is over.
    End,
}

impl Kind {
    /// What the mover of this board does.
    pub fn of(board: &Board) -> Kind
        ensures { result ≡ kind_of board.now }
    {
        if board.moves_by_lines() != 0 {
            Kind::Move
        } else if board.pass().moves_by_lines() != 0 {
            Kind::Pass
        } else {
            Kind::End
        }
    }
}
