//! The solver, by the caller's thread alone.

ghost use Rattle.std.specs.Prelude.{◌≡◌, ◌≢◌, ◌<◌, ◌≤◌, IfOk, IfErr, IfSome};
ghost use Rattle.oth_rules.specs.Position.{empty_count};
ghost use Rattle.oth_search.specs.Bounds.Full.{IsFullMinimax};
ghost use Rattle.oth_table.specs.SharedTable.{IsSeatOf};
ghost use Rattle.oth_c.specs.Answers.{IsAnswer, scoring_of};
ghost use Rattle.oth_c.specs.Boards.{position};
ghost use Rattle.oth_c.specs.Codes.{code_of};
ghost use Rattle.oth_c.specs.Solving.{Accepts, Refuses};
ghost use Rattle.oth_c.specs.declared.refusal.Refusal.{Refusal as RefusedBy};
ghost use Rattle.oth_c.specs.declared.refusal.Refusal.TheVariants as refusal;

use crate::answer::OthAnswer;
use crate::board::OthBoard;
use crate::refusal::{DONE, Refusal, deliver};
use oth_rules::{Board, Scoring};
use oth_search::{Answer, LocalTables, MOST_EMPTIES, WithLocal, solve_alone, solve_with};
use oth_table::{SharedTable, TableCells, TableSeat, is_size};
use std::alloc::Global;

/// Writes the score and all best moves of a board of at most 30 empty squares by full minimax, and what its mover does.
/// `scoring` is 0 (the empty squares go to the winner) or 1 (discs alone). `cells`, 0 or 1, 2, 4 .. 262,144, is the
/// size of the table that the call makes and frees. Where there is no memory it searches without a table, and answers
/// the same. Refusals 1, 4, 5 and 6, tested in this order.
#[unsafe(no_mangle)]
pub extern "C" fn oth_solve_alone(
    alloc: Global,
    board: OthBoard,
    scoring: u8,
    cells: u32,
    answer: &mut OthAnswer,
) -> u32
    ensures accepted { result ≡ DONE → Accepts board scoring cells }
    ensures answered { result ≡ DONE → IsAnswer (position board) (scoring_of scoring) answer.new }
    ensures refused { result ≢ DONE → (r : RefusedBy) × (result ≡ code_of r) × Refuses board scoring cells r }
    ensures kept { result ≢ DONE → answer.new ≡ answer.old }
{
    deliver(solved(alloc, board, scoring, cells), answer)
}

// The answer, or the first refusal.
fn solved(alloc: Global, board: OthBoard, scoring: u8, cells: u32) -> Result<OthAnswer, Refusal>
    ensures accepted { IfOk result (λ a. Accepts board scoring cells) }
    ensures answered { IfOk result (IsAnswer (position board) (scoring_of scoring)) }
    ensures err { IfErr result (Refuses board scoring cells) }
{
    let (board, scoring) = accepted(board, scoring, cells)?;
    let answer = match own_table(alloc, cells, scoring) {
        Some((table, seat)) => {
            let mut cells = cells_over(alloc, &board, &table, seat, true);
            solve_with(board, &mut cells, scoring)
        }
        None => without_table(&board, scoring),
    };
    Ok(OthAnswer::of(&answer))
}

/// Returns the board of these words and the scoring of this number, where they can be searched with `cells` cells; else
/// the first refusal.
pub fn accepted(board: OthBoard, scoring: u8, cells: u32) -> Result<(Board, Scoring), Refusal>
    ensures accepted { IfOk result (λ x. Accepts board scoring cells) }
    ensures given { IfOk result (λ x. (x.0 ≡ position board) × (x.1 ≡ scoring_of scoring)) }
    ensures err { IfErr result (Refuses board scoring cells) }
{
    let board = board.board()?;
    let scoring = scoring_of(scoring)?;
    if board.empties() > MOST_EMPTIES {
        return Err(Refusal::Empties);
    }
    if cells != 0 && !is_size(cells) {
        return Err(Refusal::Cells);
    }
    Ok((board, scoring))
}

/// The scoring of this number: 0 `Winner`, 1 `Discs`; refused from 2 on.
pub fn scoring_of(number: u8) -> Result<Scoring, Refusal>
    ensures ok { IfOk result (λ g. (number < 2) × (g ≡ scoring_of number)) }
    ensures err { IfErr result (λ r. (2 ≤ number) × (r ≡ refusal.Scoring)) }
{
    match number {
        0 => Ok(Scoring::Winner),
        1 => Ok(Scoring::Discs),
        _ => Err(Refusal::Scoring),
    }
}

/// Makes a table of `cells` cells, and its first seat. There is none of 0 cells, or where there is no memory.
pub fn own_table(alloc: Global, cells: u32, scoring: Scoring) -> Option<(SharedTable, TableSeat)>
    ensures { IfSome result (λ x. IsSeatOf x.0 x.1) }
{
    SharedTable::new(alloc, cells, scoring).ok()
}

/// Returns the cells of the table, used from this seat of it, and memories for a search of the board. `is_alone`: no
/// other thread searches over the table.
pub fn cells_over<'t>(
    alloc: Global,
    board: &Board,
    table: &'t SharedTable,
    seat: TableSeat,
    is_alone: bool,
) -> WithLocal<TableCells<'t>>
    requires { IsSeatOf table.now seat }
    ensures table { result.cells.table ≡ table.now }
    ensures seat { result.cells.seat ≡ seat }
{
    let memories = LocalTables::of(alloc, board.empties(), is_alone);
    WithLocal::of(TableCells::of(table, seat), memories)
}

// The answer by a search without a table.
fn without_table(board: &Board, scoring: Scoring) -> Answer
    requires { empty_count board.now ≤ 30 }
    ensures { IsFullMinimax board.now scoring result }
{
    match solve_alone(board, scoring) {
        Ok(answer) => answer,
        Err(_) => unreachable!(),
    }
}
