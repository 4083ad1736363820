//! An analysis: what each move is worth on the board that a game leads to, and what a move there loses.

ghost use Rattle.std.specs.Prelude.{◌≡◌, ◌≢◌, ◌<◌, ◌↔◌, ◌+ℤ◌, ◌-ℤ◌, All, Err, IfOk, IfSome, IsNone};
ghost use Rattle.oth_rules.specs.Laws.{IsLegal};
ghost use Rattle.oth_rules.specs.Move.{after};
ghost use Rattle.oth_rules.specs.Position.{empty_count};
ghost use Rattle.oth_rules.specs.Score.{score_of};
ghost use Rattle.oth_rules.specs.Value.{value};
ghost use Rattle.oth_search.specs.Root.Scores.{AreScores, IsScored};
ghost use Rattle.oth_text.specs.declared.fault.TranscriptFault.{TranscriptFault as Fault};
ghost use Rattle.oth_text.specs.declared.position.Position.{Position as Reached};
ghost use Rattle.oth_text.specs.Transcript.{IsTranscript, IsTranscriptFault};

use oth_rules::{Scoring, Square};
use oth_search::{MOST_EMPTIES, ScoredMove, Scores, WithLocal, scores_with};
use oth_text::{TranscriptFault, read_transcript};
use std::alloc::Global;

/// Why there are no scores.
#[derive(Clone, Copy, PartialEq, Eq, Debug)]
pub enum Unscored {
    Game(TranscriptFault),
    Empties,
}

/// The score of every move of the board that the moves of a game lead to, as `f5d6c3`, of at most 30 empty squares.
pub fn scores_after(alloc: Global, moves: &[u8], scoring: Scoring) -> Result<Scores, Unscored>
    ensures board { IfOk result (λ s. (p : Reached) × IsTranscript moves.now p × (s.answer.board ≡ p.board)) }
    ensures scores { IfOk result (λ s. AreScores s.answer.board scoring s.moves.items) }
    ensures fault { (f : Fault) → (result ≡ Err (Unscored.Game f)) ↔ IsTranscriptFault moves.now f }
    ensures many { result ≡ Err Unscored.Empties
        → (p : Reached) × IsTranscript moves.now p × (30 < empty_count p.board) }
{
    let board = read_transcript(moves).map_err(Unscored::Game)?.board;
    if board.empties() > MOST_EMPTIES {
        return Err(Unscored::Empties);
    }
    let mut cells = WithLocal::alone(alloc, board.empties());
    Ok(scores_with(board, &mut cells, scoring))
}

/// How much less the mover gets by a move to the square than by a best one, 0 to 128. None where no move to it is
/// listed, which is where none is legal.
pub fn loss_of(scores: &Scores, square: Square) -> Option<i16>
    ensures legal { IfSome result (λ loss. IsLegal scores.now.answer.board square) }
    ensures loss { let worth = value (score_of scores.now.answer.scoring) in
        IfSome result (λ loss. loss ≡ worth scores.now.answer.board +ℤ worth (after scores.now.answer.board square)) }
    ensures none { IsNone result → All (λ m. m.square ≢ square) scores.now.moves.items }
{
    match scored_at(scores, square) {
        Some(scored) => Some(difference(scores.score(), scored.score)),
        None => None,
    }
}

// The listed move to the square, with its score.
fn scored_at(scores: &Scores, square: Square) -> Option<ScoredMove>
    ensures scored { IfSome result (IsScored scores.now.answer.board scores.now.answer.scoring) }
    ensures square { IfSome result (λ m. m.square ≡ square) }
    ensures none { IsNone result → All (λ m. m.square ≢ square) scores.now.moves.items }
{
    let moves = scores.moves.as_slice();
    for scored in moves {
        if scored.square == square {
            return Some(*scored);
        }
    }
    None
}

fn difference(a: i8, b: i8) -> i16
    ensures { result ≡ a -ℤ b }
{
    i16::from(a) - i16::from(b)
}
