//! The score of every move of a board.
//!
//! The boards after the moves lie in a queue, one word of which has a bit for each board that is taken. Each worker
//! takes the next board and values it, over its own seat of one table. Where there are fewer boards than workers, all
//! workers value one board after the other, as `solve` does.
ghost use Rattle.std.specs.Prelude.{◌≡◌, IfOk, IfErr, true};
ghost use Rattle.oth_rules.specs.Move.{can_move};
ghost use Rattle.oth_pool.specs.Solving.{IsSolvable, Refuses, Accepts};
ghost use Rattle.oth_search.specs.Bounds.Full.{IsFullMinimax};
ghost use Rattle.oth_search.specs.Root.Scores.{AreScores};

use crate::means::Means;
use crate::queue::Queue;
use crate::solving::{SolveError, accepted, crew, solve};
use crate::tuning::cells_for;
use crate::valuing::{valued_apart, valued_together};
use arrayvec::ArrayVec;
use oth_book::Book;
use oth_rules::{Board, Scoring};
use oth_search::{NoCells, Scores, Solved, answer_by};
use oth_table::{SharedTable, TableCells};
use oth_walk::Gate;
use std::alloc::Global;
use std::thread::Threads;

/// Returns the score of every move of a board by full minimax, and the board's answer, by `workers` workers over a
/// table of at most `cells` cells (0: none), which is kept from one move to the next. Waits for its workers. Neither
/// their number nor the table's size nor the schedule changes the scores, nor refused memory or threads.
///
/// A book of the same scoring is asked of each child: an exact entry is its value, and the gate hears nothing of the
/// child; other bounds narrow the search. With at least as many moves as workers, each worker values children by
/// itself, so the gate hears of several boards at once: of each in one thread, its items as [`solve`] by one worker has
/// them. With fewer moves, all workers value one child after another, as [`solve`] does. Where the mover has no move,
/// [`solve`] is asked.
pub fn scores<R: Threads + Sync, G: Gate>(
    rt: &R,
    alloc: Global,
    board: &Board,
    workers: u8,
    cells: u32,
    gate: &G,
    book: Option<&Book>,
    scoring: Scoring,
) -> Result<Scores, SolveError>
    ensures answer { IfOk result (λ s. IsFullMinimax board.now scoring s.answer) }
    ensures scores { IfOk result (λ s. AreScores board.now scoring s.moves.items) }
    ensures accepted { IfOk result (λ s. Accepts board.now workers cells) }
    ensures err { IfErr result (Refuses board.now workers cells) }
{
    accepted(board, workers, cells)?;
    if !board.can_move() {
        let answer = solve(rt, alloc, board, workers, cells, gate, book, scoring)?;
        return Ok(Scores::of(answer, &[], &mut NoCells));
    }
    let means = Means {
        rt,
        alloc,
        gate,
        workers,
    };
    let replies = valued_children(&means, board, book, scoring, cells);
    let answer = answer_by(*board, replies.as_slice(), &mut NoCells, scoring);
    Ok(Scores::of(answer, replies.as_slice(), &mut NoCells))
}

// Returns the children of `board` with their values, found over a table unless `cells` is 0 or memory is refused.
fn valued_children<R: Threads + Sync, G: Gate>(
    means: &Means<R, G>,
    board: &Board,
    book: Option<&Book>,
    scoring: Scoring,
    cells: u32,
) -> ArrayVec<Solved, 64>
    requires { IsSolvable board.now }
{
    let cells = cells_for(cells, board.empties(), means.workers);
    match SharedTable::new(means.alloc, cells, scoring) {
        Ok((table, seat)) => {
            let mut access = Some(TableCells::of(&table, seat));
            replies_over(means, board, book, scoring, &mut access)
        }
        Err(_) => replies_over(means, board, book, scoring, &mut None),
    }
}

// As `valued_children`, over the table at hand, if there is one: each worker values children by itself where there are
// at least as many children as workers, else all workers value one child after another.
fn replies_over<'t, R: Threads + Sync, G: Gate>(
    means: &Means<R, G>,
    board: &Board,
    book: Option<&Book>,
    scoring: Scoring,
    access: &mut Option<TableCells<'t>>,
) -> ArrayVec<Solved, 64>
    requires { IsSolvable board.now }
{
    let queue = Queue::of(board, book, scoring);
    let crewed = Means {
        rt: means.rt,
        alloc: means.alloc,
        gate: means.gate,
        workers: crew(means.workers, board.empties().saturating_sub(1)),
    };
    if queue.len() < crewed.workers as usize {
        return valued_together(&crewed, &queue, access);
    }
    valued_apart(&crewed, &queue, board.empties(), access)
}
