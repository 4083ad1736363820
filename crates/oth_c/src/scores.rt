//! The score of every move.

ghost use Rattle.std.specs.Prelude.{◌≡◌, ◌≢◌, ◌<◌, ◌≤◌, IfOk, IfErr};
ghost use Rattle.oth_rules.specs.declared.scoring.Scoring.{Scoring as ScoredBy};
ghost use Rattle.oth_rules.specs.Position.{Position};
ghost use Rattle.oth_search.specs.Root.Scores.{AreScores};
ghost use Rattle.oth_c.specs.Answers.{scoring_of};
ghost use Rattle.oth_c.specs.Boards.{position};
ghost use Rattle.oth_c.specs.Codes.{code_of};
ghost use Rattle.oth_c.specs.Scores.{AreMoveScores, StandAt, TellsScores, score_at};
ghost use Rattle.oth_c.specs.Seats.{IsKept, RefusesBoard};
ghost use Rattle.oth_c.specs.Solving.{Accepts, Refuses};
ghost use Rattle.oth_c.specs.declared.refusal.Refusal.{Refusal as RefusedBy};

use crate::answer::OthAnswer;
use crate::board::OthBoard;
use crate::refusal::{DONE, Refusal, deliver};
use crate::seat::OthSeat;
use crate::sharing::search_over;
use crate::solving::{accepted, cells_over, own_table};
use oth_search::{ScoredMove, Scores, WithLocal, scores_with};
use std::alloc::Global;

/// A board's answer, its legal squares, bit `n` for square `n`, and the score of each move at its square: the value of
/// the board after it, seen from who moves, -64 to 64. At a square that is no legal move stands -128.
#[repr(C)]
#[derive(Clone, Copy, PartialEq, Eq, Debug)]
pub struct OthScores {
    pub answer: OthAnswer,
    pub moves: u64,
    pub scores: [i8; 64],
}

impl OthScores {
    /// The numbers of a board's scores.
    pub fn of(scores: &Scores) -> OthScores
        ensures { AreMoveScores scores.now.answer.board scores.now.answer.scoring result }
    {
        let answer = scores.answer();
        OthScores {
            answer: OthAnswer::of(&answer),
            moves: answer.board.moves(),
            scores: by_square(scores.moves()),
        }
    }
}

/// What stands at a square that is no legal move: less than each score.
pub const NO_SCORE: i8 = -128;

// What stands at each square.
fn by_square(moves: &[ScoredMove]) -> [i8; 64]
    ensures { (p : Position) (g : ScoredBy) → AreScores p g moves.now → StandAt p g result }
{
    let mut scores = [NO_SCORE; 64];
    for number in 0..64 {
        scores[number] = score_at(moves, number);
    }
    scores
}

// What stands at the square of this number.
fn score_at(moves: &[ScoredMove], number: usize) -> i8
    ensures { (p : Position) (g : ScoredBy) → AreScores p g moves.now → number < 64
        → result ≡ score_at p g number }
{
    for scored in moves {
        if usize::from(scored.square.number()) == number {
            return scored.score;
        }
    }
    NO_SCORE
}

/// Writes the answer of a board of at most 30 empty squares, its legal squares, and the score of each move by full
/// minimax, by the caller's thread alone. `scoring` is 0 (the empty squares go to the winner) or 1 (discs alone).
/// `cells`, 0 or 1, 2, 4 .. 262,144, is the size of the table that the call makes and frees. Where there is no memory
/// it searches without a table, and answers the same. Refusals 1, 4, 5 and 6, tested in this order.
#[unsafe(no_mangle)]
pub extern "C" fn oth_scores(
    alloc: Global,
    board: OthBoard,
    scoring: u8,
    cells: u32,
    scores: &mut OthScores,
) -> u32
    ensures accepted { result ≡ DONE → Accepts board scoring cells }
    ensures scored { result ≡ DONE → AreMoveScores (position board) (scoring_of scoring) scores.new }
    ensures refused { result ≢ DONE → (r : RefusedBy) × (result ≡ code_of r) × Refuses board scoring cells r }
    ensures kept { result ≢ DONE → scores.new ≡ scores.old }
{
    deliver(scored(alloc, board, scoring, cells), scores)
}

// The scores, or the first refusal.
fn scored(alloc: Global, board: OthBoard, scoring: u8, cells: u32) -> Result<OthScores, Refusal>
    ensures accepted { IfOk result (λ s. Accepts board scoring cells) }
    ensures scored { IfOk result (AreMoveScores (position board) (scoring_of scoring)) }
    ensures err { IfErr result (Refuses board scoring cells) }
{
    let (board, scoring) = accepted(board, scoring, cells)?;
    let scores = match own_table(alloc, cells, scoring) {
        Some((table, seat)) => {
            let mut cells = cells_over(alloc, &board, &table, seat, true);
            scores_with(board, &mut cells, scoring)
        }
        None => {
            let mut alone = WithLocal::alone(alloc, board.empties());
            scores_with(board, &mut alone, scoring)
        }
    };
    Ok(OthScores::of(&scores))
}

/// As `oth_scores`, over the seat's table and under its scoring: exact, whatever other threads do over the table
/// meanwhile. Refusals 1, 5 and 31, tested in this order; they leave the seat as it was.
#[unsafe(no_mangle)]
pub extern "C" fn oth_scores_over(
    alloc: Global,
    seat: &mut OthSeat,
    board: OthBoard,
    scores: &mut OthScores,
) -> u32
    ensures scored { result ≡ DONE → TellsScores seat.old.held board scores.new }
    ensures same { IsKept seat.old.held seat.new.held }
    ensures refused { result ≢ DONE → (r : RefusedBy) × (result ≡ code_of r) × RefusesBoard seat.old.held board r }
    ensures kept { result ≢ DONE → (seat.new.held ≡ seat.old.held) × (scores.new ≡ scores.old) }
{
    let found = search_over(alloc, seat, board, |seated, board| {
        seated.scores(alloc, board)
    });
    deliver(found.map(|found| OthScores::of(&found)), scores)
}
