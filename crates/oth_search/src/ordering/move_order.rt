//! Orders of the moves of a board as they are kept for a later search: the first ten squares.
use crate::tuning::KEPT_MOVES;
use arrayvec::ArrayVec;
use oth_rules::Square;

/// Ten squares in one word, six bits each, the first to be searched lowest. Places left over hold square 0.
#[derive(Clone, Copy)]
pub struct MoveOrder {
    word: u64,
}

impl MoveOrder {
    /// The order that this word keeps.
    pub fn of_word(word: u64) -> MoveOrder {
        MoveOrder { word }
    }

    /// The word that keeps the order.
    pub fn word(self) -> u64 {
        self.word
    }

    /// The order of these squares, of which the first ten are kept.
    pub fn of(squares: &[Square]) -> MoveOrder {
        let mut word = 0;
        for place in 0..KEPT_MOVES {
            let number = match squares.get(place as usize) {
                Some(square) => square.number(),
                None => 0,
            };
            word |= u64::from(number) << (6 * place);
        }
        MoveOrder { word }
    }

    /// The square at this place, from 0 to 9.
    pub fn at(self, place: u32) -> Square {
        Square::numbered(((self.word >> (6 * (place % KEPT_MOVES))) & 63) as u8)
    }

    /// This order, with the square moved to the front.
    pub fn with_first(self, first: Square) -> MoveOrder {
        let mut word = u64::from(first.number());
        let mut count = 1;
        for place in 0..KEPT_MOVES {
            let square = self.at(place);
            if square != first && count < KEPT_MOVES {
                word |= u64::from(square.number()) << (6 * count);
                count += 1;
            }
        }
        MoveOrder { word }
    }

    /// Each square of `moves` once: first those of the order, then the others, rising.
    pub fn of_moves(self, moves: u64) -> ArrayVec<Square, 64> {
        let mut squares = ArrayVec::new();
        let mut rest = moves;
        for place in 0..KEPT_MOVES {
            let square = self.at(place);
            if rest & square.word() != 0 {
                rest &= !square.word();
                let _ = squares.try_push(square);
            }
        }
        for number in 0..64 {
            let square = Square::numbered(number);
            if rest & square.word() != 0 {
                let _ = squares.try_push(square);
            }
        }
        squares
    }
}
