//! The children of a board as a queue: each worker takes the next one that nobody has taken, and values it.
ghost use Rattle.std.specs.Prelude.{◌≡◌, IfSome};
ghost use Rattle.oth_pool.specs.Solving.{IsSolvable};

use crate::book_lookup::moves_by_book;
use oth_book::Book;
use oth_rules::{Board, Scoring};
use oth_search::{MOST_EMPTIES, RootMoves, Solved};
use oth_walk::claim;
use std::sync::atomic::AtomicU64;

/// The moves of a board with what is known of the boards after them, and a word in which the bit of each one's place
/// says whether it is taken.
#[derive(Drop)]
pub(crate) struct Queue {
    moves: RootMoves,
    taken: AtomicU64,
}

impl Queue {
    /// The children of `board` with the book's bounds of each, in the order in which they are searched.
    pub fn of(board: &Board, book: Option<&Book>, scoring: Scoring) -> Queue {
        Queue {
            moves: moves_by_book(&Solved::unknown(*board, scoring), book),
            taken: AtomicU64::new(0),
        }
    }

    /// The number of boards, taken or not.
    pub fn len(&self) -> usize {
        self.moves.len()
    }

    /// Takes the next board that nobody has taken. None where all are taken; no board of more than 30 empty squares is
    /// returned.
    pub fn take(&self) -> Option<Solved>
        ensures few { IfSome result (λ s. IsSolvable s.board) }
    {
        for place in 0..self.moves.len() {
            if claim(&self.taken, 1 << place) {
                return self.board(place);
            }
        }
        None
    }

    // The board at `place`, if there is one and it has at most 30 empty squares.
    fn board(&self, place: usize) -> Option<Solved>
        ensures few { IfSome result (λ s. IsSolvable s.board) }
    {
        let child = self.moves.get(place)?.child;
        if child.board.empties() > MOST_EMPTIES {
            return None;
        }
        Some(child)
    }
}
