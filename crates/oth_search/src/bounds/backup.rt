//! Backed-up bounds: those of a board by those of boards below it.
ghost use Rattle.std.specs.Prelude.{◌≡◌, ◌<◌, ◌≤ℤ◌, ◌⊎◌, neg_ℤ, pos, true};
ghost use Rattle.oth_rules.specs.Square.{word_of};
ghost use Rattle.oth_rules.specs.Move.{is_legal, can_move, after};
ghost use Rattle.oth_search.specs.Bounds.Squares.{In, Without};
ghost use Rattle.oth_search.specs.Bounds.Replies.{IsBackedUp};

use super::interval::greater;
use super::kind::Kind;
use super::solved::Solved;
use super::square_set::{first, without};
use oth_rules::{Board, Scoring, Square};

/// A board with the bounds that its moves give it, taken in one by one. No untrue bounds can be made: whoever makes
/// them proves the ghost field.
#[derive(Clone, Copy)]
pub struct BackedUp {
    pub board: Board,
    pub scoring: Scoring,
    /// The moves that are not taken in yet.
    pub left: u64,
    /// The greatest lower bound and the greatest upper bound that the others give, -64 where there is none.
    pub lower: i8,
    pub upper: i8,
    pub ghost can_move: { can_move board ≡ true },
    pub ghost backed_up: { IsBackedUp scoring board left lower upper },
}

impl BackedUp {
    /// A board whose mover has a move, before any is taken in.
    pub fn of(board: Board, scoring: Scoring) -> BackedUp
        requires { can_move board ≡ true }
        ensures board { result.board ≡ board }
        ensures scoring { result.scoring ≡ scoring }
        ensures left { result.left ≡ word_of (is_legal board) }
        ensures bounds { (result.lower ≡ neg_ℤ (pos 64)) × (result.upper ≡ neg_ℤ (pos 64)) }
    {
        BackedUp {
            board,
            scoring,
            left: board.moves(),
            lower: -64,
            upper: -64,
        }
    }

    /// Takes in a move: `reply` has the bounds of the board after it.
    pub fn with(self, square: Square, reply: &Solved) -> BackedUp
        requires left { In self.left square }
        requires board { reply.now.board ≡ after self.board square }
        requires scoring { reply.now.scoring ≡ self.scoring }
        ensures board { result.board ≡ self.board }
        ensures scoring { result.scoring ≡ self.scoring }
        ensures left { Without self.left square result.left }
        ensures fewer { result.left < self.left }
        ensures lower { (self.lower ≤ℤ result.lower) × (neg_ℤ reply.now.interval.upper ≤ℤ result.lower) }
        ensures upper { (result.upper ≡ self.upper) ⊎ (result.upper ≡ neg_ℤ reply.now.interval.lower) }
    {
        BackedUp {
            board: self.board,
            scoring: self.scoring,
            left: without(self.left, square),
            lower: greater(self.lower, -reply.interval.upper),
            upper: greater(self.upper, -reply.interval.lower),
        }
    }

    /// The board with these bounds. While a move is left, any score may be the greatest.
    pub fn solved(self) -> Solved
        ensures board { result.board ≡ self.board }
        ensures scoring { result.scoring ≡ self.scoring }
        ensures lower { result.interval.lower ≡ self.lower }
        ensures upper { self.left ≡ 0 → result.interval.upper ≡ self.upper }
    {
        if self.left != 0 {
            return Solved::between(self.board, self.scoring, self.lower, 64);
        }
        Solved::between(self.board, self.scoring, self.lower, self.upper)
    }
}

/// The bounds of `board` that stand in `known`, under this scoring: the first ones, or all scores if there are none.
pub fn bounds_among(board: Board, known: &[Solved], scoring: Scoring) -> Solved
    ensures board { result.board ≡ board }
    ensures scoring { result.scoring ≡ scoring }
{
    for solved in known {
        if solved.board == board && solved.scoring == scoring {
            return *solved;
        }
    }
    Solved::unknown(board, scoring)
}

/// Backs up the bounds of the boards `plies` plies below that stand in `known`. A forced pass is no ply.
#[cycle(combining)]
pub fn backed_up_from(board: Board, plies: u8, known: &[Solved], scoring: Scoring) -> Solved
    ensures board { result.board ≡ board }
    ensures scoring { result.scoring ≡ scoring }
{
    match Kind::of(&board) {
        Kind::Move => known_by_moves(board, plies, known, scoring),
        Kind::Pass => known_by_moves(board.pass(), plies, known, scoring).before_pass(&board),
        Kind::End => bounds_among(board, known, scoring),
    }
}

// As `backed_up_from`, of a board whose mover has a move.
#[cycle(combining)]
fn known_by_moves(board: Board, plies: u8, known: &[Solved], scoring: Scoring) -> Solved
    requires { can_move board ≡ true }
    ensures board { result.board ≡ board }
    ensures scoring { result.scoring ≡ scoring }
{
    if plies == 0 {
        return bounds_among(board, known, scoring);
    }
    let mut backed_up = BackedUp::of(board, scoring);
    while backed_up.left != 0 {
        let square = first(backed_up.left);
        let child = backed_up.board.play_legal(square);
        let reply = backed_up_from(child, plies - 1, known, scoring);
        backed_up = backed_up.with(square, &reply);
    }
    backed_up.solved()
}
