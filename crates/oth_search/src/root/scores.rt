//! The score of every move of a board, true by the type.
ghost use Rattle.std.specs.Prelude.{◌≡◌, true};
ghost use Rattle.oth_rules.specs.Move.{can_move};
ghost use Rattle.oth_rules.specs.Score.{score_of};
ghost use Rattle.oth_rules.specs.Value.{value};
ghost use Rattle.oth_search.specs.Bounds.Full.{IsFullMinimax};
ghost use Rattle.oth_search.specs.Root.Scores.{AreScores};

use super::best_moves::{solve_moves, solve_with};
use super::moves::RootMoves;
use super::root_peers::NoPeers;
use super::value::value_of;
use crate::bounds::{Answer, Cells, Kind, Solved, bounds_among, first, without};
use arrayvec::ArrayVec;
use oth_rules::{Board, Scoring, Square};

/// A legal move with its score: the value of the board after it, seen from who moves, -64 to 64.
#[derive(Clone, Copy, PartialEq, Eq, Debug, Default)]
pub struct ScoredMove {
    pub square: Square,
    pub score: i8,
}

/// The answer of a board, and each of its legal moves once, by rising squares, with its score. Where the mover passes
/// or the game is over there is none. No untrue value of this type can be made: whoever makes one proves its ghost
/// field, and the answer is true by its own type.
#[derive(Drop)]
pub struct Scores {
    pub answer: Answer,
    pub moves: ArrayVec<ScoredMove, 64>,
    pub ghost are_scores: { AreScores answer.board answer.scoring moves.items },
}

impl Scores {
    /// Scores the moves of the answer's board. A board after a move is not searched if `known` has its exact value.
    pub fn of<C: Cells>(answer: Answer, known: &[Solved], cells: &mut C) -> Scores
        ensures answer { result.answer ≡ answer }
        ensures fixed { C.fixed cells.new ≡ C.fixed cells.old }
    {
        let moves = scored_moves(&answer.board, known, cells, answer.scoring);
        Scores { answer, moves }
    }

    /// The score and all best moves: those with the greatest score.
    pub fn answer(&self) -> Answer
        ensures same { result ≡ self.now.answer }
        ensures full { IsFullMinimax self.now.answer.board self.now.answer.scoring result }
    {
        self.answer
    }

    /// The value of the board for the mover, -64 to 64: the greatest score, where there is a move.
    pub fn score(&self) -> i8
        ensures { result ≡ value (score_of self.now.answer.scoring) self.now.answer.board }
    {
        self.answer.score
    }

    /// What the mover does.
    pub fn kind(&self) -> Kind
        ensures { result ≡ self.now.answer.kind }
    {
        self.answer.kind
    }

    /// Each legal move once, by rising squares, with its score.
    pub fn moves(&self) -> &[ScoredMove]
        ensures { AreScores self.now.answer.board self.now.answer.scoring result.now }
    {
        self.moves.as_slice()
    }
}

// The legal moves of a board, by rising squares, each with its score: by what is known of the board after it, or else
// by a search.
fn scored_moves<C: Cells>(
    board: &Board,
    known: &[Solved],
    cells: &mut C,
    scoring: Scoring,
) -> ArrayVec<ScoredMove, 64>
    ensures scores { AreScores board.now scoring result.items }
    ensures fixed { C.fixed cells.new ≡ C.fixed cells.old }
{
    let mut found = ArrayVec::new();
    let mut rest = board.moves();
    while rest != 0 {
        let square = first(rest);
        rest = without(rest, square);
        let child = board.play_legal(square);
        let told = bounds_among(child, known, scoring);
        let reply = told.exact(cells);
        found.push(ScoredMove {
            square,
            score: -reply.interval.upper,
        });
    }
    found
}

/// The scores of all moves of a board, by a search over the cells: what one move's search finds helps the next.
pub fn scores_with<C: Cells>(board: Board, cells: &mut C, scoring: Scoring) -> Scores
    ensures board { result.answer.board ≡ board }
    ensures scoring { result.answer.scoring ≡ scoring }
    ensures fixed { C.fixed cells.new ≡ C.fixed cells.old }
{
    let replies = exact_replies(&board, cells, scoring);
    let answer = if board.moves() == 0 {
        solve_with(board, cells, scoring)
    } else {
        answer_by(board, replies.as_slice(), cells, scoring)
    };
    Scores::of(answer, replies.as_slice(), cells)
}

/// The answer of a board whose mover has a move, by what is known of the boards after its moves.
pub fn answer_by<C: Cells>(
    board: Board,
    known: &[Solved],
    cells: &mut C,
    scoring: Scoring,
) -> Answer
    requires { can_move board ≡ true }
    ensures board { result.board ≡ board }
    ensures scoring { result.scoring ≡ scoring }
    ensures fixed { C.fixed cells.new ≡ C.fixed cells.old }
{
    let root = Solved::unknown(board, scoring);
    solve_moves(RootMoves::unranked(&root, known), cells, &mut NoPeers)
}

// The boards after the moves of a board, each with its exact value, in move order. The search of each starts from the
// score of the one before.
fn exact_replies<C: Cells>(board: &Board, cells: &mut C, scoring: Scoring) -> ArrayVec<Solved, 64>
    ensures fixed { C.fixed cells.new ≡ C.fixed cells.old }
{
    let mut replies = ArrayVec::new();
    let moves = RootMoves::of(&Solved::unknown(*board, scoring), &[]);
    for root_move in moves.as_slice() {
        let sibling = replies.as_slice().last();
        let valued = value_of(&root_move.child, sibling, cells, &mut NoPeers);
        replies.push(valued);
    }
    replies
}
