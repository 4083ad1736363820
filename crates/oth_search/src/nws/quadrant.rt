//! The quadrants of the board, for parity in move ordering.

use crate::bounds::FIRST_QUADRANT;
use oth_rules::Square;

// The bits of a square's number that tell its quadrant: its half of the columns and of the rows.
const HALVES: u8 = 0x24;

/// The squares of the square's quadrant.
pub fn quadrant_of(square: Square) -> u64 {
    FIRST_QUADRANT.wrapping_shl(u32::from(square.number() & HALVES))
}

/// Whether both squares lie in one quadrant.
pub fn share_quadrant(a: Square, b: Square) -> bool {
    a.number() & HALVES == b.number() & HALVES
}
