//! Values of boards by repeated searches: up to a limit, on one side of a threshold, or exact.
ghost use Rattle.std.specs.Prelude.{◌≡◌, negsuc, pos, ◌≤ℤ◌, ◌+ℤ◌};
ghost use Rattle.oth_rules.specs.Laws.{IsScore};
ghost use Rattle.oth_search.specs.Bounds.Interval.{Decides};

use crate::bounds::{Cells, Solved};
use crate::nws::{Hearer, Unheard, nws_heard};
use crate::root::Pace;
use crate::shared::put;
use oth_rules::{Board, Scoring};

impl Solved {
    /// The board with its exact value if that is at most `limit`, else with a lower bound above `limit`.
    pub fn at_most<C: Cells>(board: &Board, limit: i8, cells: &mut C, scoring: Scoring) -> Solved
        requires { IsScore limit }
        ensures board { result.board ≡ board.now }
        ensures scoring { result.scoring ≡ scoring }
        ensures decides { Decides result.interval.lower result.interval.upper (negsuc 64) (limit +ℤ pos 1) }
        ensures fixed { C.fixed cells.new ≡ C.fixed cells.old }
    {
        let known = Solved::unknown(*board, scoring).decided_with(limit, cells, &mut Unheard);
        if known.interval.lower > limit {
            return known;
        }
        known.exact(cells)
    }

    /// The board with bounds that decide whether its value is above `alpha`, -65 to 64. Searches only where the known
    /// ones and those in the cells leave that open, and stores what it finds. Tells `hearer` of each search of a board
    /// after a move.
    pub fn decided_with<C: Cells, H: Hearer<C>>(
        &self,
        alpha: i8,
        cells: &mut C,
        hearer: &mut H,
    ) -> Solved
        requires low { negsuc 64 ≤ℤ alpha }
        requires high { alpha ≤ℤ pos 64 }
        ensures board { result.board ≡ self.now.board }
        ensures scoring { result.scoring ≡ self.now.scoring }
        ensures lower { self.now.interval.lower ≤ℤ result.interval.lower }
        ensures upper { result.interval.upper ≤ℤ self.now.interval.upper }
        ensures decides { Decides result.interval.lower result.interval.upper alpha (alpha +ℤ pos 1) }
        ensures fixed { C.fixed cells.new ≡ C.fixed cells.old }
    {
        if self.interval.decides(alpha, alpha + 1) {
            return *self;
        }
        let known = self.joined(&Solved::looked_up(&self.board, cells, self.scoring));
        if known.interval.decides(alpha, alpha + 1) {
            return known;
        }
        let found = nws_heard(&known, alpha, cells, hearer);
        let solved = known.narrowed(alpha, found);
        put(&solved, cells);
        solved
    }

    /// The board with its exact value, by null windows below its upper bound. Their steps widen while they lower it
    /// (`Pace`).
    pub(crate) fn exact<C: Cells>(&self, cells: &mut C) -> Solved
        ensures board { result.board ≡ self.now.board }
        ensures scoring { result.scoring ≡ self.now.scoring }
        ensures exact { result.interval.lower ≡ result.interval.upper }
        ensures fixed { C.fixed cells.new ≡ C.fixed cells.old }
    {
        let mut reply = *self;
        let mut pace = Pace::new();
        while reply.interval.lower < reply.interval.upper {
            let alpha = pace.below(reply.interval);
            reply = reply.decided_with(alpha, cells, &mut Unheard);
            pace = pace.after(reply.interval.upper <= alpha);
        }
        reply
    }
}
