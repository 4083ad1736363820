//! Local hash tables, and cells that have some beside them.
ghost use Rattle.std.specs.Prelude.{◌≡◌, ◌<◌, ◌≤◌, IfSome, IsNone, vec_len};

use super::tables::LocalTables;
use crate::bounds::{Cells, Entry, NoCells, Solved, board_hash};
use crate::tuning::{FOLD, PLACES, SHIFT, large_last_below, last_below};
use oth_rules::{Board, Scoring};
use std::alloc::{AllocError, Global};

/// A local hash table: bounds of boards, each at the place of its hash, where a later one overwrites an earlier one.
/// What is stored may be lost, and what is returned is true. It takes 24 bytes of the heap for each place, and none of
/// the stack.
#[derive(Drop)]
pub struct LocalTable {
    places: Vec<Solved>,
    // The greatest place.
    last: usize,
    ghost full: { last < vec_len places },
}

impl LocalTable {
    /// Makes an empty table for a search from a root of `empties` empty squares: 4,096 places up to 15, else 8,192.
    /// Refused if there is no memory for it.
    pub fn below(alloc: Global, empties: u8) -> Result<LocalTable, AllocError> {
        LocalTable::with_last(alloc, last_below(empties))
    }

    /// Makes an empty table for boards of more empty squares in a search from such a root: 65,536 places up to 19,
    /// 262,144 for 20 and 21, else 1,048,576, which are 24 MB. Refused if there is no memory for it.
    pub fn large_below(alloc: Global, empties: u8) -> Result<LocalTable, AllocError> {
        LocalTable::with_last(alloc, large_last_below(empties))
    }

    // Makes an empty table with this greatest place.
    fn with_last(alloc: Global, last: usize) -> Result<LocalTable, AllocError>
        requires { last < 1048576 }
    {
        let places = vec![in alloc; blank(); last + 1]?;
        Ok(LocalTable { places, last })
    }

    /// Returns what the table has of the board under this scoring.
    pub fn probe_local(&self, board: &Board, scoring: Scoring) -> Option<Solved>
        ensures asked { IfSome result (λ s. (s.board ≡ board.now) × (s.scoring ≡ scoring)) }
    {
        told_by(&self.places[place(board, self.last)], board, scoring)
    }

    /// Stores these bounds, and so overwrites what was at their place.
    pub fn store_local(&mut self, solved: &Solved) {
        let place = place(&solved.board, self.last);
        self.places[place] = *solved;
    }
}

// What an empty place holds.
fn blank() -> Solved {
    Solved::unknown(Board::default(), Scoring::Winner)
}

// Returns what a place holds, if it is of the board and under this scoring.
fn told_by(kept: &Solved, board: &Board, scoring: Scoring) -> Option<Solved>
    ensures asked { IfSome result (λ s. (s.board ≡ board.now) × (s.scoring ≡ scoring)) }
{
    if kept.board == *board && kept.scoring == scoring {
        return Some(*kept);
    }
    None
}

// The place of a board. The greatest one, `last`, is one less than a power of two.
#[tactic(auto, using(std::proofs::lemmas::Nat::and_le_r))]
fn place(board: &Board, last: usize) -> usize
    ensures { result ≤ last }
{
    let hash = board_hash(board);
    ((hash ^ (hash >> FOLD)) >> SHIFT) as usize & last
}

/// Cells with local tables beside them. Boards for which those are meant go there, and all others to the cells.
#[derive(Drop)]
pub struct WithLocal<C> {
    /// Where all other boards are looked up and stored.
    pub cells: C,
    memories: LocalTables,
}

impl<C: Cells> WithLocal<C> {
    /// The cells, with these local tables.
    pub fn of(cells: C, memories: LocalTables) -> WithLocal<C>
        ensures { result.cells ≡ cells }
    {
        WithLocal { cells, memories }
    }

    /// The cells alone.
    pub fn into_cells(self) -> C
        ensures { result ≡ self.cells }
    {
        self.into_parts().0
    }

    /// The cells, and the local tables with what they keep.
    pub fn into_parts(self) -> (C, LocalTables)
        ensures { result.0 ≡ self.cells }
    {
        let WithLocal { cells, memories } = self;
        (cells, memories)
    }
}

impl WithLocal<NoCells> {
    /// Empty local tables without a transposition table, for a search by one thread from a root of `empties` empty
    /// squares.
    pub fn alone(alloc: Global, empties: u8) -> WithLocal<NoCells> {
        WithLocal::of(NoCells, LocalTables::of(alloc, empties, true))
    }
}

impl<C: Cells> Cells for WithLocal<C> {
    ghost Fixed = { C.Fixed };

    ghost fixed = { λ m. C.fixed m.cells };

    fn look(&mut self, board: &Board, scoring: Scoring) -> Option<Entry> {
        self.cells.look(board, scoring)
    }

    fn put(&mut self, entry: &Entry) {
        self.cells.put(entry);
    }

    fn has_table(&self) -> bool {
        self.cells.has_table()
    }

    fn keeps_local(&self, empties: u8) -> bool {
        self.memories.keeps_local(empties)
    }

    fn probe_local(&mut self, board: &Board, scoring: Scoring) -> Option<Solved> {
        self.memories.probe_local(board, scoring)
    }

    fn store_local(&mut self, solved: &Solved) {
        self.memories.store_local(solved);
    }
}

/// A local table that takes 96 KB of the stack, without a transposition table.
#[derive(Drop)]
pub struct StackCells {
    places: [Solved; PLACES],
}

impl StackCells {
    /// An empty table.
    pub fn new() -> StackCells {
        StackCells {
            places: [blank(); PLACES],
        }
    }
}

impl Cells for StackCells {
    ghost Fixed = { Unit {0} };

    ghost fixed = { λ c. tt };

    fn look(&mut self, _board: &Board, _scoring: Scoring) -> Option<Entry> {
        None
    }

    fn put(&mut self, _entry: &Entry) {}

    fn has_table(&self) -> bool {
        false
    }

    fn probe_local(&mut self, board: &Board, scoring: Scoring) -> Option<Solved> {
        told_by(&self.places[place(board, PLACES - 1)], board, scoring)
    }

    fn store_local(&mut self, solved: &Solved) {
        let place = place(&solved.board, PLACES - 1);
        self.places[place] = *solved;
    }
}
