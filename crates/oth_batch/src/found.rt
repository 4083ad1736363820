//! What was found, where it is that of a board under a scoring; an answer by that of an image of its board.

ghost use Rattle.std.specs.Prelude.{◌≡◌, ◌≢◌, IfSome, IfNone};

use oth_book::Book;
use oth_rules::{Board, Scoring};
use oth_search::{Answer, MOST_EMPTIES, Scores};
use std::alloc::Global;

/// The answer, if it is the board's under the scoring.
pub(crate) fn matching_answer(answer: &Answer, board: &Board, scoring: Scoring) -> Option<Answer>
    ensures board { IfSome result (λ a. a.board ≡ board.now) }
    ensures scoring { IfSome result (λ a. a.scoring ≡ scoring) }
    ensures none { IfNone result (answer.now.board ≡ board.now → answer.now.scoring ≢ scoring) }
{
    if answer.board == *board && answer.scoring == scoring {
        Some(*answer)
    } else {
        None
    }
}

/// The scores, if they are those of the board's moves under the scoring.
pub(crate) fn matching_scores<'s>(
    scores: &'s Scores,
    board: &Board,
    scoring: Scoring,
) -> Option<&'s Scores>
    ensures board { IfSome result (λ s. s.now.answer.board ≡ board.now) }
    ensures scoring { IfSome result (λ s. s.now.answer.scoring ≡ scoring) }
{
    if scores.answer.board == *board && scores.answer.scoring == scoring {
        Some(scores)
    } else {
        None
    }
}

/// The answer of the board by that of an image of it, as a book of that one answer finds it. None where the answer is
/// of no image of the board, or there is no memory.
pub fn answer_by_image(alloc: Global, answer: &Answer, board: &Board) -> Option<Answer>
    ensures board { IfSome result (λ a. a.board ≡ board.now) }
    ensures scoring { IfSome result (λ a. a.scoring ≡ answer.now.scoring) }
{
    if answer.board.empties() > MOST_EMPTIES {
        return None;
    }
    let mut book = Book::new(alloc, answer.scoring);
    book.add(answer).ok()?;
    let found = book.find(board)?;
    if found.scoring == answer.scoring {
        Some(found)
    } else {
        None
    }
}

/// A copy of the scores.
pub fn copied(scores: &Scores) -> Option<Scores>
    ensures { IfSome result (λ s. s.answer ≡ scores.now.answer) }
{
    Some(Scores {
        answer: scores.answer,
        moves: scores.moves.clone().ok()?,
    })
}
