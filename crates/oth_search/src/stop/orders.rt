//! The order of moves of each board on the way from the root to where a search is. No answer rests on it.
use crate::ordering::{MoveOrder, order};
use crate::root::MOST_EMPTIES;
use arrayvec::ArrayVec;
use oth_rules::{Board, Square};
use std::alloc::Global;

// A board, and the order of its moves.
#[derive(Clone, Copy)]
struct Ordered {
    board: Board,
    order: MoveOrder,
}

impl Ordered {
    // No move of the board that has no disc.
    fn empty() -> Ordered {
        Ordered {
            board: Board::default(),
            order: MoveOrder::of(&[]),
        }
    }
}

/// The order of moves of the last board with each number of empty squares. No two nodes of one path have as many, so a
/// search by one worker keeps the orders of its whole path. It takes 1 KB of the heap, or none and keeps nothing.
#[derive(Drop)]
pub(crate) struct Orders {
    last: Option<Vec<Ordered>>,
}

impl Orders {
    /// No order is kept by now. Where memory is refused, none ever is.
    pub(crate) fn new(alloc: Global) -> Orders {
        let places = usize::from(MOST_EMPTIES) + 1;
        Orders {
            last: vec![in alloc; Ordered::empty(); places].ok(),
        }
    }

    /// Keeps nothing.
    pub(crate) fn none() -> Orders {
        Orders { last: None }
    }

    /// The moves of the board in move order, as they are kept if they are.
    pub(crate) fn of(&mut self, board: &Board) -> ArrayVec<Square, 64> {
        let place = usize::from(board.empties());
        if let Some(kept) = self.kept(place) {
            if kept.board == *board {
                return kept.order.of_moves(board.moves());
            }
        }
        let squares = order(board);
        let order = MoveOrder::of(squares.as_slice());
        self.keep(
            place,
            Ordered {
                board: *board,
                order,
            },
        );
        squares
    }

    // What is kept at this place, if there is one.
    fn kept(&self, place: usize) -> Option<Ordered> {
        let last = self.last.as_ref()?;
        last.get(place).copied()
    }

    // Keeps this at this place, if there is one.
    fn keep(&mut self, place: usize, ordered: Ordered) {
        if let Some(last) = &mut self.last {
            if let Some(kept) = last.get_mut(place) {
                *kept = ordered;
            }
        }
    }
}
