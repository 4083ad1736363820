//! A node on the way from a move of the root to the node that one worker is at.
ghost use Rattle.std.specs.Prelude.{◌≡◌};

use oth_rules::{Board, Scoring};
use oth_search::{Cells, NullWindow, Solved};

/// The canonical image of the board that is searched, and the null window that the search is to decide.
#[derive(Clone, Copy)]
pub(super) struct PathNode {
    pub image: Board,
    pub window: NullWindow,
}

impl PathNode {
    /// Whether the table decides the search.
    pub fn is_decided<C: Cells>(&self, cells: &mut C, scoring: Scoring) -> bool
        ensures fixed { C.fixed cells.new ≡ C.fixed cells.old }
    {
        let known = Solved::looked_up(&self.image, cells, scoring);
        self.window.is_decided(known.interval)
    }
}
