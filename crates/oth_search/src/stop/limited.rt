//! Cells that count their look-ups down.
ghost use Rattle.std.specs.Prelude.{◌≡◌, ◌-◌, ◌↔◌, IsTrue, IsFalse, IfSome};
ghost use Rattle.oth_rules.specs.Symmetry.{IsCanonical};

use super::resume::Resume;
use crate::bounds::{Cells, Entry, Solved};
use oth_rules::{Board, Scoring};
use std::mem::replace;

/// Cells with a limit of look-ups. A search over them can be stopped when these are spent.
#[derive(Drop)]
pub struct Limited<C> {
    /// Where boards are looked up and stored.
    pub cells: C,
    /// How many boards may still be looked up, by `look` and `probe_local` together.
    pub left: u64,
    // What an earlier search had come to.
    resume: Resume,
}

impl<C: Cells> Limited<C> {
    /// The cells, in which `limit` boards may be looked up. What the search comes to is forgotten.
    pub fn of(cells: C, limit: u64) -> Limited<C>
        ensures left { result.left ≡ limit }
        ensures fixed { C.fixed result.cells ≡ C.fixed cells }
    {
        Limited::going_on(cells, limit, Resume::none())
    }

    /// The cells, in which `limit` boards may be looked up, for a search that goes on from where an earlier one left
    /// off, which `resume` tells.
    pub fn going_on(cells: C, limit: u64, resume: Resume) -> Limited<C>
        ensures left { result.left ≡ limit }
        ensures fixed { C.fixed result.cells ≡ C.fixed cells }
    {
        Limited {
            cells,
            left: limit,
            resume,
        }
    }

    /// The cells alone.
    pub fn into_cells(self) -> C
        ensures { result ≡ self.cells }
    {
        self.into_parts().0
    }

    /// The cells, and what the search had come to.
    pub fn into_parts(self) -> (C, Resume)
        ensures { result.0 ≡ self.cells }
    {
        let Limited {
            cells,
            left: _,
            resume,
        } = self;
        (cells, resume)
    }

    // Takes out what an earlier search had come to.
    pub(super) fn take_resume(&mut self) -> Resume
        ensures cells { self.new.cells ≡ self.old.cells }
        ensures left { self.new.left ≡ self.old.left }
    {
        replace(&mut self.resume, Resume::none())
    }

    // Leaves what this search has come to.
    pub(super) fn leave(&mut self, resume: Resume)
        ensures cells { self.new.cells ≡ self.old.cells }
        ensures left { self.new.left ≡ self.old.left }
    {
        self.resume = resume;
    }

    // Takes one from what is left.
    fn count(&mut self)
        ensures cells { self.new.cells ≡ self.old.cells }
        ensures one { self.new.left ≡ self.old.left - 1 }
    {
        self.left = self.left.saturating_sub(1);
    }

    // Takes away what is left where the flag is set.
    pub(super) fn hear(&mut self, is_set: bool)
        ensures cells { self.new.cells ≡ self.old.cells }
        ensures set { IsTrue is_set → self.new.left ≡ 0 }
        ensures unset { IsFalse is_set → self.new.left ≡ self.old.left }
    {
        if is_set {
            self.left = 0;
        }
    }

    // Whether nothing is left.
    pub(super) fn is_spent(&self) -> bool
        ensures { IsTrue result ↔ (self.now.left ≡ 0) }
    {
        self.left == 0
    }
}

impl<C: Cells> Cells for Limited<C> {
    ghost Fixed = { C.Fixed };

    ghost fixed = { λ l. C.fixed l.cells };

    /// Looks the board up in the cells, which takes one from what is left.
    fn look(&mut self, board: &Board, scoring: Scoring) -> Option<Entry>
        requires { IsCanonical board.now }
        ensures asked { IfSome result (λ e. (e.board ≡ board.now) × (e.scoring ≡ scoring)) }
        ensures fixed { C.fixed self.new.cells ≡ C.fixed self.old.cells }
        ensures one { self.new.left ≡ self.old.left - 1 }
    {
        self.count();
        self.cells.look(board, scoring)
    }

    fn put(&mut self, entry: &Entry) {
        self.cells.put(entry);
    }

    fn keeps_local(&self, empties: u8) -> bool {
        self.cells.keeps_local(empties)
    }

    /// Recalls the board from the cells, which takes one from what is left.
    fn probe_local(&mut self, board: &Board, scoring: Scoring) -> Option<Solved>
        ensures asked { IfSome result (λ s. (s.board ≡ board.now) × (s.scoring ≡ scoring)) }
        ensures fixed { C.fixed self.new.cells ≡ C.fixed self.old.cells }
        ensures one { self.new.left ≡ self.old.left - 1 }
    {
        self.count();
        self.cells.probe_local(board, scoring)
    }

    fn store_local(&mut self, solved: &Solved) {
        self.cells.store_local(solved);
    }
}
