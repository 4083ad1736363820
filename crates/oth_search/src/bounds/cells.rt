//! Cells: a transposition table as a search sees it, and its law; and cells that keep nothing.
ghost use Rattle.std.specs.Prelude.{◌≡◌, IfSome, IsNone};
ghost use Rattle.oth_rules.specs.Symmetry.{IsCanonical};

use super::entry::Entry;
use super::solved::Solved;
use oth_rules::{Board, Scoring};

/// Where a search stores what it found. What is stored may be lost. `look` and `probe_local` promise only that what
/// they return is of the board and the scoring that were asked for.
pub trait Cells {
    /// What no call changes, such as the table that the cells belong to.
    ghost Fixed: { Type 0 };

    ghost fixed: { Self → Fixed };

    /// Returns the entry of a canonical board under this scoring, if one is kept.
    fn look(&mut self, board: &Board, scoring: Scoring) -> Option<Entry>
        requires { IsCanonical board.now }
        ensures asked { IfSome result (λ e. (e.board ≡ board.now) × (e.scoring ≡ scoring)) }
        ensures fixed { fixed self.new ≡ fixed self.old };

    /// Offers an entry for storing. The cells are free to drop it.
    fn put(&mut self, entry: &Entry)
        ensures fixed { fixed self.new ≡ fixed self.old };

    /// Whether a look may find something: by default it may. Where not, a search spares the image of the board that it
    /// would ask for.
    fn has_table(&self) -> bool {
        true
    }

    /// Whether boards of `empties` empty squares (9 and more) go to the local table instead of the shared one: by
    /// default no.
    fn keeps_local(&self, _empties: u8) -> bool {
        false
    }

    /// Returns what the local table keeps of a board under this scoring, if anything: by default nothing. A search asks
    /// for boards of 5 to 8 empty squares, and for those that `keeps_local` names.
    fn probe_local(&mut self, _board: &Board, _scoring: Scoring) -> Option<Solved>
        ensures asked { IfSome result (λ s. (s.board ≡ _board.now) × (s.scoring ≡ _scoring)) }
        ensures fixed { fixed self.new ≡ fixed self.old }
    {
        None
    }

    /// Offers bounds of such a board to the local table. The cells are free to drop them, and by default do.
    fn store_local(&mut self, _solved: &Solved)
        ensures fixed { fixed self.new ≡ fixed self.old }
    {}
}

/// Cells that keep nothing: each look is `None`.
#[derive(Clone, Copy, Debug)]
pub struct NoCells;

impl Cells for NoCells {
    ghost Fixed = { Unit {0} };

    ghost fixed = { λ c. tt };

    fn look(&mut self, _board: &Board, _scoring: Scoring) -> Option<Entry>
        ensures none { IsNone result }
    {
        None
    }

    fn put(&mut self, _entry: &Entry) {}

    fn has_table(&self) -> bool {
        false
    }
}

/// Cells that may be missing: then nothing is found and nothing is kept.
impl<C: Cells> Cells for Option<C> {
    ghost use Rattle.std.specs.Prelude.{Option};
    ghost use Rattle.std.specs.Option.{option_map};

    ghost Fixed = { Option C.Fixed };

    ghost fixed = { λ cells. option_map C.fixed cells };

    fn look(&mut self, board: &Board, scoring: Scoring) -> Option<Entry> {
        self.as_mut()?.look(board, scoring)
    }

    fn put(&mut self, entry: &Entry) {
        if let Some(cells) = self {
            cells.put(entry);
        }
    }

    fn has_table(&self) -> bool {
        match self {
            Some(cells) => cells.has_table(),
            None => false,
        }
    }

    fn keeps_local(&self, empties: u8) -> bool {
        match self {
            Some(cells) => cells.keeps_local(empties),
            None => false,
        }
    }

    fn probe_local(&mut self, board: &Board, scoring: Scoring) -> Option<Solved> {
        self.as_mut()?.probe_local(board, scoring)
    }

    fn store_local(&mut self, solved: &Solved) {
        if let Some(cells) = self {
            cells.store_local(solved);
        }
    }
}
