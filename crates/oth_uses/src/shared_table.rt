//! Two threads solve two boards over one table, each from a seat of its own.

ghost use Rattle.std.specs.Prelude.{IfOk};
ghost use Rattle.oth_search.specs.Bounds.Full.{IsFullMinimax};
ghost use Rattle.oth_table.specs.SharedTable.{IsSeatOf};

use oth_rules::{Board, Scoring};
use oth_search::{Answer, solve_with};
use oth_table::{SharedTable, TableCells, TableError, TableSeat};
use std::alloc::Global;
use std::thread::{Threads, join};

/// The answers of both boards, with the empty squares given to the winner, over a table of `cells` cells.
pub fn solve_both<R: Threads>(
    rt: &R,
    alloc: Global,
    first: Board,
    second: Board,
    cells: u32,
) -> Result<(Answer, Answer), TableError>
    ensures { IfOk result (λ a. IsFullMinimax first Scoring.Winner a.0 × IsFullMinimax second Scoring.Winner a.1) }
{
    let (table, mut seat) = SharedTable::new(alloc, cells, Scoring::Winner)?;
    let other = table.seat(alloc, &mut seat)?;
    let shared = &table;
    Ok(join(
        rt,
        || -> Answer
            requires { IsSeatOf shared.now seat }
            ensures { IsFullMinimax first Scoring.Winner result }
        { solve_from(shared, seat, first) },
        || -> Answer
            requires { IsSeatOf shared.now other }
            ensures { IsFullMinimax second Scoring.Winner result }
        { solve_from(shared, other, second) },
    ))
}

// The answer of the board by a search over the table, from this seat of it.
fn solve_from(table: &SharedTable, seat: TableSeat, board: Board) -> Answer
    requires { IsSeatOf table.now seat }
    ensures { IsFullMinimax board Scoring.Winner result }
{
    solve_with(board, &mut TableCells::of(table, seat), Scoring::Winner)
}
