//! Flips of a move to the only empty square, by either side, counted along the four lines through it.
//!
//! A factor gathers the mover's discs of a line in eight bits, which pick the counts of both sides: the line's other
//! discs are the other side's (`line_counts`). The check computes for each square and all discs of each line that
//! the counts are those of the definition.
ghost use Rattle.std.specs.Prelude.{◌≡◌, ◌<◌, ◌≤◌, ◌+◌, ◌%◌, ◌/◌, ◌↔◌, false, slice_index_or, [], count_by};
ghost use Rattle.oth_rules.specs.Square.{squares};
ghost use Rattle.oth_rules.specs.Position.{pass};
ghost use Rattle.oth_rules.specs.Move.{is_flipped, is_legal};
ghost use Rattle.oth_rules.specs.LastMove.{IsLast, gathered};
ghost use Rattle.oth_rules.specs.declared.tables.line_counts.TheConstants.{LINE_COUNTS};

use crate::board::Board;
use crate::square::Square;
use crate::tables::LINE_COUNTS;

impl Board {
    /// How many discs a move to the only empty square flips: in the low byte those that the mover flips, in the high
    /// byte those that the other side flips if it moves there. 0 where the move is illegal.
    #[inline(always)]
    pub fn last_flips(&self, square: Square) -> u16
        requires { IsLast self.now square }
        ensures mover { result % 256 ≡ count_by (is_flipped self.now square) squares }
        ensures other { result / 256 ≡ count_by (is_flipped (pass self.now) square) squares }
        ensures none { (result % 256 ≡ 0) ↔ (is_legal self.now square ≡ false) }
        ensures none_of_other { (result / 256 ≡ 0) ↔ (is_legal (pass self.now) square ≡ false) }
    {
        let own = self.own();
        let [row, falling, column, rising] = *square.line_masks();
        let [by_row, by_falling, by_column, by_rising] = *square.line_factors();
        let [at_row, at_falling, at_column, at_rising] = *square.line_starts();
        counted(own & row, by_row, at_row)
            + counted(own & falling, by_falling, at_falling)
            + counted(own & column, by_column, at_column)
            + counted(own & rising, by_rising, at_rising)
    }
}

// The counts in the table from this place on, for these discs of a line, gathered by the factor.
fn counted(discs: u64, factor: u64, start: u16) -> u16
    requires { start ≤ 2506 }
    ensures value { result ≡ slice_index_or LINE_COUNTS (start + gathered discs factor) 0 }
    ensures most { result ≤ 1542 }
{
    let gathered = discs.wrapping_mul(factor) >> 56;
    LINE_COUNTS[start as usize + gathered as usize]
}
