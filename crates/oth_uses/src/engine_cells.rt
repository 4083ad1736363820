//! An engine's own search asks a table first, and keeps in it what it has found.

ghost use Rattle.std.specs.Prelude.{◌≡◌, ◌+ℤ◌, pos};
ghost use Rattle.oth_search.specs.Bounds.Interval.{Decides, IsThreshold};

use oth_rules::{Board, Scoring};
use oth_search::{Cells, Entry, Solved};

/// Bounds of the board's value, true by their type, that tell whether it is above `alpha`, -64 to 63: those that the
/// cells have, if they tell it, and else those that a search over them finds, which are then offered to them. A table's
/// cells are `TableCells`.
pub fn bounds_about<C: Cells>(cells: &mut C, board: &Board, alpha: i8, scoring: Scoring) -> Solved
    requires { IsThreshold alpha }
    ensures board { result.board ≡ board.now }
    ensures scoring { result.scoring ≡ scoring }
    ensures decides { Decides result.interval.lower result.interval.upper alpha (alpha +ℤ pos 1) }
{
    let kept = Solved::looked_up(board, cells, scoring);
    if kept.interval.decides(alpha, alpha + 1) {
        return kept;
    }
    let found = Solved::by_null_window(board, alpha, cells, scoring);
    cells.put(&Entry::of(&found));
    found
}
