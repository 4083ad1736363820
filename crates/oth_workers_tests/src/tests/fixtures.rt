//! What the tests begin with. A test fails where there is none.

ghost use Rattle.std.specs.Prelude.{◌≤◌};
ghost use Rattle.oth_rules.specs.Position.{empty_count};
ghost use Rattle.oth_pieces.specs.Watch as floor;
ghost use Rattle.oth_table.specs.SharedTable as table;

use oth_pieces::{Floor, FloorSeat};
use oth_rules::samples::board;
use oth_rules::{Board, Scoring};
use oth_search::{Answer, solve_alone};
use oth_table::{SharedTable, TableSeat};
use std::process::Abort;

// The board of these discs.
pub(super) fn board_of(rt: &impl Abort, words: [u64; 2]) -> Board
    ensures { empty_count result ≤ 30 }
{
    let Some(board) = board(words) else {
        panic!(rt; "no board")
    };
    board
}

// The board's answer by one thread that keeps nothing.
pub(super) fn answer_of(rt: &impl Abort, board: &Board, scoring: Scoring) -> Answer {
    let Ok(answer) = solve_alone(board, scoring) else {
        panic!(rt; "no answer")
    };
    answer
}

// A floor of the board by winner, and its first seat.
pub(super) fn floor_of<R: AllocGlobal + Abort>(rt: &R, board: &Board) -> (Floor, FloorSeat)
    ensures { floor.IsSeatOf result.0 result.1 }
{
    let Ok((floor, seat)) = Floor::new(rt.alloc(), board, Scoring::Winner) else {
        panic!(rt; "no floor")
    };
    (floor, seat)
}

// A table of `cells` cells by winner, and its first seat.
pub(super) fn table_of<R: AllocGlobal + Abort>(rt: &R, cells: u32) -> (SharedTable, TableSeat)
    ensures { table.IsSeatOf result.0 result.1 }
{
    let Ok((table, seat)) = SharedTable::new(rt.alloc(), cells, Scoring::Winner) else {
        panic!(rt; "no table")
    };
    (table, seat)
}
