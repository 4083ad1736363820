//! What is asked of the boards that wait, and what is found of one.

ghost use Rattle.std.specs.Prelude.{◌≡◌, IfSome};

use crate::found::{answer_by_image, matching_scores};
use oth_book::Book;
use oth_rules::{Board, Scoring};
use oth_search::{Answer, Scores};
use std::alloc::Global;

/// What is asked of each of the boards that wait.
#[derive(Clone, Copy, Debug, PartialEq, Eq)]
pub enum Asked {
    /// Its score and all best moves.
    Answer,
    /// The score of each of its moves.
    Scores,
    /// The answers of the boards of a game's last turns, of which it is the first board.
    Game,
}

/// What boards have in common whose search is one: where answers are asked the discs of their canonical image, since
/// the answer of one gives that of each image, and else their own discs; the mover's before the opposing ones.
pub(crate) fn key_of(asked: Asked, board: &Board) -> (u64, u64) {
    let known = match asked {
        Asked::Answer => board.canonical().0,
        Asked::Scores | Asked::Game => *board,
    };
    (known.own(), known.opp())
}

/// What was found of a board.
#[derive(Drop)]
pub(crate) enum Found {
    Answer(Answer),
    Scores(Scores),
    Known(Book),
}

impl Found {
    /// The answer of this board under this scoring, if what was found is one of the board or of an image of it. For an
    /// image this takes memory, that of one entry of a book.
    pub(crate) fn answer(&self, alloc: Global, board: &Board, scoring: Scoring) -> Option<Answer>
        ensures board { IfSome result (λ a. a.board ≡ board.now) }
        ensures scoring { IfSome result (λ a. a.scoring ≡ scoring) }
    {
        let Found::Answer(answer) = self else {
            return None;
        };
        if answer.scoring != scoring {
            return None;
        }
        if answer.board == *board {
            return Some(*answer);
        }
        answer_by_image(alloc, answer, board)
    }

    /// The scores, if they are those of this board under this scoring.
    pub(crate) fn scores(&self, board: &Board, scoring: Scoring) -> Option<&Scores>
        ensures board { IfSome result (λ s. s.now.answer.board ≡ board.now) }
        ensures scoring { IfSome result (λ s. s.now.answer.scoring ≡ scoring) }
    {
        let Found::Scores(scores) = self else {
            return None;
        };
        matching_scores(scores, board, scoring)
    }

    /// The answers of the boards of a game's last turns, if those were asked.
    pub(crate) fn known(&self) -> Option<&Book> {
        match self {
            Found::Known(book) => Some(book),
            Found::Answer(_) | Found::Scores(_) => None,
        }
    }
}
