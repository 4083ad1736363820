//! The ends of games: their positions are solved from the last to the first.

use oth_book::Book;
use oth_rules::{Board, Square};
use oth_search::{Answer, MOST_EMPTIES, Solved};
use oth_text::Turn;

/// Returns the answers of the boards before and after these turns, added to those of `known`. They are found from the
/// last turn to the first: what the board after a move is worth is at least the value of the one before it, which the
/// search of that one begins with. `answer_by` finds the answer of a board by what is known so far, or none; a board
/// without an answer is left out, and so is one for which there is no memory.
pub fn known_by<F: FnMut(&Board, &Book) -> Option<Answer>>(
    known: Book,
    turns: &[Turn],
    mut answer_by: F,
) -> Book
    requires { F.IsAlwaysCallable answer_by }
{
    let mut known = known;
    for at in 0..turns.len() {
        let turn = &turns[turns.len() - 1 - at];
        if let Some(after) = answer_by(&turn.after, &known) {
            learn_after(&mut known, turn, &after);
        }
        if let Some(before) = answer_by(&turn.before.board, &known) {
            learn(&mut known, &before);
        }
    }
    known
}

// Adds the answer of the board after the turn to what is known, and that the board before it is worth at least what
// the move is.
fn learn_after(known: &mut Book, turn: &Turn, after: &Answer) {
    learn(known, after);
    if let Some(square) = turn.played {
        learn_least(known, &turn.before.board, square, after);
    }
}

// Adds the answer to what is known, if its board has at most 30 empty squares.
fn learn(known: &mut Book, answer: &Answer) {
    if answer.board.empties() <= MOST_EMPTIES {
        let _ = known.add(answer);
    }
}

// Adds to what is known that the board is worth at least what the move to this square is, after which this is the
// answer.
fn learn_least(known: &mut Book, board: &Board, square: Square, after: &Answer) {
    if let Ok(least) = Solved::lift(board, square, &Solved::of_answer(after)) {
        let _ = known.add_bounds(&least);
    }
}
