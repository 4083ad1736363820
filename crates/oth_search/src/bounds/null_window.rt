//! A null window: the question whether a value is above a threshold or not.
ghost use Rattle.std.specs.Prelude.{◌≡◌, pos, negsuc, ◌≤ℤ◌, ◌+ℤ◌};
ghost use Rattle.oth_search.specs.Bounds.Interval.{IsThreshold, Decides};

use super::cells::Cells;
use super::interval::Interval;
use super::solved::Solved;
use oth_rules::{Board, Scoring};

/// A null window: the search is to decide whether a value is above `alpha`, -64 to 63, or not.
#[derive(Clone, Copy)]
pub struct NullWindow {
    pub alpha: i8,
    ghost is_threshold: { IsThreshold alpha },
}

impl NullWindow {
    /// The window that tells whether a value is at least this score, -63 to 64.
    pub fn at(score: i8) -> NullWindow
        requires low { negsuc 62 ≤ℤ score }
        requires high { score ≤ℤ pos 64 }
        ensures { result.alpha +ℤ pos 1 ≡ score }
    {
        NullWindow { alpha: score - 1 }
    }

    /// The window as the opponent sees it.
    pub fn turned(self) -> NullWindow {
        NullWindow {
            alpha: -self.alpha - 1,
        }
    }

    /// Whether a value of at least `score` is above the window.
    pub fn is_reached(self, score: i8) -> bool {
        score > self.alpha
    }

    /// Whether these bounds decide it.
    pub fn is_decided(self, bounds: Interval) -> bool {
        bounds.decides(self.alpha, self.alpha + 1)
    }

    /// Bounds of the board's value that decide it, by a search to the end.
    pub fn search<C: Cells>(self, board: &Board, cells: &mut C, scoring: Scoring) -> Solved
        ensures board { result.board ≡ board.now }
        ensures scoring { result.scoring ≡ scoring }
        ensures decides { Decides result.interval.lower result.interval.upper self.alpha (self.alpha +ℤ pos 1) }
        ensures fixed { C.fixed cells.new ≡ C.fixed cells.old }
    {
        Solved::by_null_window(board, self.alpha, cells, scoring)
    }
}
