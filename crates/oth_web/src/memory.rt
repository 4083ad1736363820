//! What a search remembers: bounds of boards, in places that whoever searches has on its stack and lends.

ghost use Rattle.std.specs.Prelude.{◌≡◌, ◌≤◌, IfSome};

use oth_rules::{Board, Scoring};
use oth_search::{Cells, Entry, Solved, board_hash};

// Empty squares: from here on a board belongs to the places of boards of more, so that the many boards of few empty
// squares do not drive it out.
const LARGER_MIN_EMPTIES: u8 = 9;

/// How many places there are for boards of few empty squares: a power of two. They take 98 KB of the stack.
pub const FEW: usize = 4096;

/// How many there are for boards of more: a power of two. They take 400 KB of the stack, and time to clear.
pub const MORE: usize = 16_384;

/// Bounds of boards of few empty squares, each at the place of its hash, where a later one overwrites an earlier one.
#[derive(Drop)]
pub struct FewMemory<'a> {
    few: &'a mut [Solved; FEW],
}

/// As `FewMemory`, and of boards of more empty squares beside them.
#[derive(Drop)]
pub struct Memory<'a> {
    few: FewMemory<'a>,
    more: &'a mut [Solved; MORE],
}

impl<'a> FewMemory<'a> {
    /// Remembers in these places.
    pub fn over(few: &'a mut [Solved; FEW]) -> FewMemory<'a> {
        FewMemory { few }
    }
}

impl<'a> Memory<'a> {
    /// Remembers in these places.
    pub fn over(few: &'a mut [Solved; FEW], more: &'a mut [Solved; MORE]) -> Memory<'a> {
        Memory {
            few: FewMemory::over(few),
            more,
        }
    }
}

impl<'a> Cells for FewMemory<'a> {
    ghost Fixed = { Unit {0} };

    ghost fixed = { λ c. tt };

    fn look(&mut self, _board: &Board, _scoring: Scoring) -> Option<Entry> {
        None
    }

    fn put(&mut self, _entry: &Entry) {}

    fn has_table(&self) -> bool {
        false
    }

    fn probe_local(&mut self, board: &Board, scoring: Scoring) -> Option<Solved> {
        let kept = self.few.get(place(board, FEW - 1))?;
        told_by(kept, board, scoring)
    }

    fn store_local(&mut self, solved: &Solved) {
        if let Some(kept) = self.few.get_mut(place(&solved.board, FEW - 1)) {
            *kept = *solved;
        }
    }
}

impl<'a> Cells for Memory<'a> {
    ghost Fixed = { Unit {0} };

    ghost fixed = { λ c. tt };

    fn look(&mut self, _board: &Board, _scoring: Scoring) -> Option<Entry> {
        None
    }

    fn put(&mut self, _entry: &Entry) {}

    fn has_table(&self) -> bool {
        false
    }

    fn keeps_local(&self, _empties: u8) -> bool {
        true
    }

    fn probe_local(&mut self, board: &Board, scoring: Scoring) -> Option<Solved> {
        if board.empties() < LARGER_MIN_EMPTIES {
            self.few.probe_local(board, scoring)
        } else {
            let kept = self.more.get(place(board, MORE - 1))?;
            told_by(kept, board, scoring)
        }
    }

    fn store_local(&mut self, solved: &Solved) {
        if solved.board.empties() < LARGER_MIN_EMPTIES {
            self.few.store_local(solved);
        } else if let Some(kept) = self.more.get_mut(place(&solved.board, MORE - 1)) {
            *kept = *solved;
        }
    }
}

/// What an empty place holds.
pub fn blank() -> Solved {
    Solved::unknown(Board::default(), Scoring::Winner)
}

// What a place holds, if it is of the board and under this scoring.
fn told_by(kept: &Solved, board: &Board, scoring: Scoring) -> Option<Solved>
    ensures asked { IfSome result (λ s. (s.board ≡ board.now) × (s.scoring ≡ scoring)) }
{
    if kept.board == *board && kept.scoring == scoring {
        return Some(*kept);
    }
    None
}

// The place of a board. The greatest one, `last`, is one less than a power of two.
#[tactic(auto, using(std::proofs::lemmas::Nat::and_le_r))]
fn place(board: &Board, last: usize) -> usize
    ensures { result ≤ last }
{
    let hash = board_hash(board);
    ((hash ^ (hash >> 8)) >> 44) as usize & last
}
