//! The order of boards in a book.
ghost use Rattle.std.specs.Prelude.{◌≡◌, ◌<◌};
ghost use Rattle.oth_book.specs.Order.{board_cmp, cell_byte};

use oth_rules::Board;
use std::cmp::Ordering;

/// The order of boards in a book: that of the bytes of their cells.
pub fn compare(a: &Board, b: &Board) -> Ordering
    ensures { result ≡ board_cmp a.now b.now }
{
    let differ = (a.own() ^ b.own()) | (a.opp() ^ b.opp());
    if differ == 0 {
        return Ordering::Equal;
    }
    let square = differ.trailing_zeros() as u8;
    cell(a, square).cmp(&cell(b, square))
}

/// The byte of a cell.
#[tactic(auto, unfolding(oth_rules::specs::Position::cell, oth_rules::specs::Square::has))]
pub fn cell(board: &Board, square: u8) -> u8
    requires { square < 64 }
    ensures { result ≡ cell_byte board.now square }
{
    if board.own() >> square & 1 == 1 {
        b'X'
    } else if board.opp() >> square & 1 == 1 {
        b'O'
    } else {
        b'-'
    }
}
