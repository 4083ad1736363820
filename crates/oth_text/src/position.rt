//! A board and who moves.
//!
//! It keeps the board as its mover sees it. A line has colours: a cell is the mover's byte for the mover's disc and
//! the other side's for the opponent's.

ghost use Rattle.std.specs.Prelude.{◌≡◌, bit_and};
ghost use Rattle.oth_rules.specs.Position.{IsBoard};
ghost use Rattle.oth_text.specs.Sides.{by_mover, opponent, start};

use oth_rules::Board;

/// One of the two players.
#[derive(Clone, Copy, Debug, PartialEq, Eq)]
pub enum Side {
    Black,
    White,
}

impl Side {
    /// The other player.
    pub fn opponent(self) -> Side
        ensures { result ≡ opponent self }
    {
        match self {
            Side::Black => Side::White,
            Side::White => Side::Black,
        }
    }
}

/// A board as its mover sees it, and who that is.
#[derive(Clone, Copy, Debug, PartialEq, Eq)]
pub struct Position {
    pub board: Board,
    pub mover: Side,
}

impl Position {
    /// The position in which a game begins.
    pub fn start() -> Self
        ensures { result ≡ start }
    {
        Self::of_sides(0x0000_0008_1000_0000, 0x0000_0010_0800_0000, Side::Black)
    }

    /// The position with these discs of the two sides, bit `n` for square `n`.
    #[tactic(auto, using(std::proofs::lemmas::Nat::and_comm))]
    pub(crate) fn of_sides(black: u64, white: u64, mover: Side) -> Self
        requires { bit_and black white ≡ 0 }
        ensures own { result.board.own ≡ by_mover mover black white }
        ensures opp { result.board.opp ≡ by_mover mover white black }
        ensures mover { result.mover ≡ mover }
        ensures board { IsBoard result.board }
    {
        let (own, opp) = match mover {
            Side::Black => (black, white),
            Side::White => (white, black),
        };
        let Ok(board) = Board::of(own, opp) else {
            unreachable!()
        };
        Position { board, mover }
    }

    /// The squares with a black disc, bit `n` for square `n`.
    pub(crate) fn black(&self) -> u64
        ensures discs { result ≡ by_mover self.now.mover self.now.board.own self.now.board.opp }
        ensures board { IsBoard self.now.board }
    {
        match self.mover {
            Side::Black => self.board.own(),
            Side::White => self.board.opp(),
        }
    }

    /// The squares with a white disc, bit `n` for square `n`.
    pub(crate) fn white(&self) -> u64
        ensures { result ≡ by_mover self.now.mover self.now.board.opp self.now.board.own }
    {
        match self.mover {
            Side::Black => self.board.opp(),
            Side::White => self.board.own(),
        }
    }
}
