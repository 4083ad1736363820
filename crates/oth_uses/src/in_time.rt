//! An engine that has to move soon: what a search finds that may look up a limited number of boards, and that another
//! thread may end.

ghost use Rattle.std.specs.Prelude.{◌≡◌};

use oth_rules::{Board, Scoring};
use oth_search::{Limited, Solved, StopFlag, solve_until};
use oth_table::TableCells;

/// Bounds of the board's value, true by their type, by a search that looks up at most about `most` boards, or ends soon
/// after another thread set the flag: both are the score where it was done. The cells are handed back, and a further
/// call over them goes on with what this one found.
pub fn bounds_in_time<'t>(
    cells: TableCells<'t>,
    board: &Board,
    most: u64,
    scoring: Scoring,
    stop: &StopFlag,
) -> (TableCells<'t>, Solved)
    ensures board { result.1.board ≡ board.now }
    ensures scoring { result.1.scoring ≡ scoring }
{
    let mut limited = Limited::of(cells, most);
    let known = match solve_until(board, &mut limited, scoring, stop) {
        Ok(answer) => Solved::of_answer(&answer),
        Err(stopped) => stopped.known,
    };
    (limited.into_cells(), known)
}
