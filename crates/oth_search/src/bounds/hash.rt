//! The hash of a board, by which tables and hints find its place.
ghost use Rattle.std.specs.Prelude.{◌≡◌, ◌+◌, ◌*◌, ◌%◌, ◌^◌};
ghost use Rattle.oth_search.specs.declared.bounds.hash.TheConstants.{OWN_FACTOR, OPPOSING_FACTOR};

use oth_rules::Board;

/// The factor of the mover's discs: odd, with about as many ones as zeros (2^64 by the golden ratio).
pub const OWN_FACTOR: u64 = 0x9e37_79b9_7f4a_7c15;

/// The factor of the opposing discs: odd, and unlike the other one (a prime of the hash XXH64).
pub const OPPOSING_FACTOR: u64 = 0xc2b2_ae3d_27d4_eb4f;

/// The hash of a board, 64 bits, of which the highest depend on all squares.
#[inline(always)]
pub fn board_hash(board: &Board) -> u64
    ensures { result ≡ (board.now.own * OWN_FACTOR + board.now.opp * OPPOSING_FACTOR) % 2 ^ 64 }
{
    let own = board.own().wrapping_mul(OWN_FACTOR);
    let opposing = board.opp().wrapping_mul(OPPOSING_FACTOR);
    own.wrapping_add(opposing)
}
