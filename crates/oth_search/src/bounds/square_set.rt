//! Sets of squares, as words.
ghost use Rattle.std.specs.Prelude.{IsTrue, ◌≢◌, ℕ, ◌<◌, ◌≤◌};
ghost use Rattle.oth_search.specs.Bounds.Squares.{In, Without, With};

use oth_rules::Square;

/// The least square of a set of squares.
pub fn first(set: u64) -> Square
    requires { set ≢ 0 }
    ensures member { In set result }
    ensures least { (s : ℕ) → In set s → result ≤ s }
{
    Square::first_of(set)
}

/// A square of the set: the least of those that are in `early` too, or else the least.
pub fn preferred(set: u64, early: u64) -> Square
    requires { set ≢ 0 }
    ensures { In set result }
{
    let both = set & early;
    let all_or_none = u64::from(both != 0).wrapping_sub(1);
    Square::first_of(both | set & all_or_none)
}

/// The quadrants of the board with an odd number of the squares of `set`. Who moves into one tends to move last there.
pub fn odd_quadrants(set: u64) -> u64 {
    let pairs = set ^ (set >> 1);
    let half_rows = pairs ^ (pairs >> 2);
    let row_pairs = half_rows ^ (half_rows >> 8);
    let odd = (row_pairs ^ (row_pairs >> 16)) & FIRST_OF_QUADRANTS;
    odd.wrapping_mul(FIRST_QUADRANT)
}

// The first square of each quadrant of the board, of 16 squares each.
const FIRST_OF_QUADRANTS: u64 = 0x0000_0011_0000_0011;

/// The squares of the first quadrant, of the rows 1 to 4 and the columns a to d.
pub const FIRST_QUADRANT: u64 = 0x0000_0000_0f0f_0f0f;

/// Whether the square is in the set.
pub fn holds(set: u64, square: Square) -> bool
    ensures { IsTrue result → In set square }
{
    let word = square.word();
    set & word == word
}

/// The set without a square of it.
pub fn without(set: u64, square: Square) -> u64
    requires { In set square }
    ensures fewer { result < set }
    ensures rest { Without set square result }
{
    set & !square.word()
}

/// The set with the square added.
pub fn with(set: u64, square: Square) -> u64
    ensures { With set square result }
{
    set | square.word()
}
