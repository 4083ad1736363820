//! The cells of a board as bytes.

ghost use Rattle.std.specs.Prelude.{◌≡◌, ◌<◌, ℕ, IsTrue, EachIndex, length, slice_index};
ghost use Rattle.std.specs.Prelude.{true, bit_and};
ghost use Rattle.oth_book.specs.Order.{cells};
ghost use Rattle.oth_book.specs.Shape.{is_cell};
ghost use Rattle.oth_rules.specs.Position.{IsBoard};

use oth_rules::Board;

/// The board with these cells.
pub fn read_cells(bytes: &[u8]) -> Board
    requires len { length bytes.now ≡ 64 }
    requires cells { EachIndex bytes.now (λ i. is_cell (slice_index bytes.now i) ≡ true) }
    ensures cells { cells result ≡ bytes.now }
    ensures board { IsBoard result }
{
    let mut own = 0u64;
    let mut opp = 0u64;
    for square in 0u8..64 {
        let byte = bytes[square as usize];
        if byte == b'X' {
            own |= 1 << square;
        } else if byte == b'O' {
            opp |= 1 << square;
        }
    }
    Board::of(own, opp).unwrap()
}
