//! What a book tells of a board before it is searched.
//!
//! A book of the same scoring is asked after the three refusals, before any worker starts. An exact entry is the
//! answer, without a call of the gate. The search begins with the bounds of another entry: by several workers the
//! lower one raises the floor, one worker starts from both. Where the mover must pass they change their signs, and the
//! board after the pass is asked for. A board after a move begins with its bounds too, so one whose value the book has
//! is not searched.
ghost use Rattle.std.specs.Prelude.{◌≡◌, IfSome};
ghost use Rattle.oth_rules.specs.Symmetry.{canonical};
ghost use Rattle.oth_book.specs.Book.{Has, HasBoard};

use oth_book::Book;
use oth_rules::{Board, Scoring};
use oth_search::{Answer, RootMoves, Solved};

/// Returns the book's answer of `board`. None where there is no book, it is under another scoring, or it has no exact
/// bounds of the board.
pub(crate) fn answer_in(book: Option<&Book>, board: &Board, scoring: Scoring) -> Option<Answer>
    ensures board { IfSome result (λ a. a.board ≡ board.now) }
    ensures scoring { IfSome result (λ a. a.scoring ≡ scoring) }
{
    let book = book?;
    if book.scoring() != scoring {
        return None;
    }
    book.find(board)
}

/// Returns the book's bounds of `board`: -64 to 64 where there is no book, it is under another scoring, or it doesn't
/// have the board.
pub(crate) fn bounds_in(book: Option<&Book>, board: &Board, scoring: Scoring) -> Solved
    ensures board { result.board ≡ board.now }
    ensures scoring { result.scoring ≡ scoring }
    ensures by_book { IfSome book.entry (λ b. b.now.scoring ≡ scoring → HasBoard b.now.entries (canonical board.now)
        → Has b.now.entries (canonical board.now) result.interval.lower result.interval.upper) }
{
    let Some(book) = book else {
        return Solved::unknown(*board, scoring);
    };
    if book.scoring() != scoring {
        return Solved::unknown(*board, scoring);
    }
    match book.find_bounds(board) {
        Some(bounds) => bounds,
        None => Solved::unknown(*board, scoring),
    }
}

/// Returns the moves of `by_book`, a board with the book's bounds, in move order, with the book's bounds of the boards
/// after them.
pub(crate) fn moves_by_book(by_book: &Solved, book: Option<&Book>) -> RootMoves
    ensures board { result.board ≡ by_book.now.board }
    ensures scoring { result.scoring ≡ by_book.now.scoring }
{
    let mut moves = RootMoves::of(by_book, &[]);
    if book.is_some() {
        for place in 0..moves.len() {
            if let Some(root_move) = moves.get(place) {
                let known = bounds_in(book, &root_move.child.board, by_book.scoring);
                moves.narrow(place, &known);
            }
        }
    }
    moves
}
