//! Values the boards of a queue: each by one worker, or each by all workers.
ghost use Rattle.std.specs.Prelude.{◌≡◌};
ghost use Rattle.oth_pool.specs.Solving.{IsSolvable};

use crate::at_once::for_each_at_once;
use crate::means::Means;
use crate::queue::Queue;
use crate::solving::answer_over;
use crate::work::room_for;
use arrayvec::ArrayVec;
use oth_pieces::awake;
use oth_search::{Cells, Kind, NoPeers, Solved, ended, is_few, solve_few, value_of};
use oth_table::TableCells;
use oth_walk::{Alone, Announced, Gate, Sharing, WorkerCells, worker_cells};
use std::thread::Threads;

// What one worker searches over, and the boards that it has valued.
#[derive(Drop)]
struct Valuer<'t> {
    cells: WorkerCells<'t>,
    valued: ArrayVec<Solved, 64>,
}

/// Values the boards of the queue, children of a root of `empties` empty squares, each by one worker: it takes the next
/// board until there is none. The caller values what the workers leave where they are out of memory.
pub(crate) fn valued_apart<'t, R: Threads + Sync, G: Gate>(
    means: &Means<R, G>,
    queue: &Queue,
    empties: u8,
    access: &mut Option<TableCells<'t>>,
) -> ArrayVec<Solved, 64> {
    let mut valuers = valuers_of(means, empties, access);
    for_each_at_once(
        means.rt,
        &|valuer: &mut Valuer| { value_next_ones(means, queue, valuer) },
        valuers.as_mut_slice(),
    );
    let mut last = Valuer {
        cells: cells_of(means, empties, access),
        valued: valued_by(valuers.as_slice()),
    };
    value_next_ones(means, queue, &mut last);
    last.valued
}

/// Values the boards of the queue one after another, each by all workers.
pub(crate) fn valued_together<'t, R: Threads + Sync, G: Gate>(
    means: &Means<R, G>,
    queue: &Queue,
    access: &mut Option<TableCells<'t>>,
) -> ArrayVec<Solved, 64> {
    let mut valued = ArrayVec::new();
    for _ in 0..queue.len() {
        let Some(by_book) = queue.take() else {
            break;
        };
        let _ = valued.try_push(value_together(means, &by_book, access));
    }
    valued
}

// Makes a valuer for each worker, as far as there is memory.
fn valuers_of<'t, R, G>(
    means: &Means<R, G>,
    empties: u8,
    access: &mut Option<TableCells<'t>>,
) -> Vec<Valuer<'t>> {
    let mut valuers = room_for(means.alloc, u32::from(means.workers));
    for _ in 0..means.workers {
        let valuer = Valuer {
            cells: cells_of(means, empties, access),
            valued: ArrayVec::new(),
        };
        let _ = valuers.push(valuer);
    }
    valuers
}

// Returns what a worker searches over that values children of a root of `empties` empty squares.
fn cells_of<'t, R, G>(
    means: &Means<R, G>,
    empties: u8,
    access: &mut Option<TableCells<'t>>,
) -> WorkerCells<'t> {
    let sharing = if means.workers == 1 {
        Sharing::Alone
    } else {
        Sharing::of_several(access)
    };
    worker_cells(means.alloc, empties, sharing, access)
}

// Values the next boards of the queue, until all are taken.
fn value_next_ones<'t, R, G: Gate>(means: &Means<R, G>, queue: &Queue, valuer: &mut Valuer<'t>) {
    for _ in 0..queue.len() {
        let Some(by_book) = queue.take() else {
            return;
        };
        let sibling = valuer.valued.as_slice().last();
        let valued = value_alone(means, &by_book, sibling, &mut valuer.cells);
        let _ = valuer.valued.try_push(valued);
    }
}

// All boards that these workers have valued.
fn valued_by<'t>(valuers: &[Valuer<'t>]) -> ArrayVec<Solved, 64> {
    let mut all = ArrayVec::new();
    for valuer in valuers {
        for valued in valuer.valued.as_slice() {
            let _ = all.try_push(*valued);
        }
    }
    all
}

// Values `by_book`, a board with the book's bounds, by one worker. `sibling` is the board that this worker valued
// before, if there is one.
fn value_alone<R, G: Gate, C: Cells>(
    means: &Means<R, G>,
    by_book: &Solved,
    sibling: Option<&Solved>,
    cells: &mut C,
) -> Solved {
    if by_book.interval.is_exact() {
        return *by_book;
    }
    if !means.gate.hears() {
        means.gate.begins(&awake(by_book.board).0);
        if is_few(by_book.board.empties()) {
            return value_few(by_book);
        }
        return value_of(by_book, sibling, cells, &mut NoPeers);
    }
    let announced = Announced::of(&by_book.board, None, means.gate);
    let mut alone = Alone::of(means.alloc, means.gate, &announced);
    let valued = value_of(by_book, sibling, cells, &mut alone);
    announced.finish(means.gate);
    valued
}

// Values `by_book`, a board of few empty squares with the book's bounds.
fn value_few(by_book: &Solved) -> Solved {
    let board = by_book.board;
    match Kind::of(&board) {
        Kind::Move => Solved::of_answer(&solve_few(by_book)),
        Kind::Pass => Solved::of_answer(&solve_few(&by_book.passed())).before_pass(&board),
        Kind::End => Solved::of_answer(&ended(board, by_book.scoring)),
    }
}

// Values `by_book`, a board with the book's bounds, by all workers.
fn value_together<'t, R: Threads + Sync, G: Gate>(
    means: &Means<R, G>,
    by_book: &Solved,
    access: &mut Option<TableCells<'t>>,
) -> Solved
    requires { IsSolvable by_book.now.board }
{
    if by_book.interval.is_exact() {
        return *by_book;
    }
    let board = by_book.board;
    match Kind::of(&board) {
        Kind::Move => Solved::of_answer(&answer_over(means, by_book, None, access)),
        Kind::Pass => {
            let answer = answer_over(means, &by_book.passed(), None, access);
            Solved::of_answer(&answer).before_pass(&board)
        }
        Kind::End => Solved::of_answer(&ended(board, by_book.scoring)),
    }
}
