//! The whole search of a board.
ghost use Rattle.std.specs.Prelude.{◌≡◌, ◌<◌, ◌≤◌, ◌≤ℤ◌, true, IfOk, IfErr, IfSome, length};
ghost use Rattle.oth_rules.specs.Position.{empty_count};
ghost use Rattle.oth_rules.specs.Move.{can_move};
ghost use Rattle.oth_pool.specs.Solving.{IsSolvable, Refuses, Accepts};
ghost use Rattle.oth_search.specs.Bounds.Full.{IsFullMinimax};
ghost use Rattle.oth_pieces.specs.Hands.{IsCrew};
ghost use Rattle.oth_pieces.specs.History.{floor_after};
ghost use Rattle.oth_pieces.specs.Watch.{IsSeatOf};

use crate::above_book::{ask_higher, start_of_several};
use crate::book_lookup::{answer_in, bounds_in, moves_by_book};
use crate::means::Means;
use crate::run::{Links, bounds_for, hints_for, run};
use crate::tuning::{CREW_MIN_EMPTIES, cells_for};
use oth_book::Book;
use oth_pieces::{Floor, FloorSeat, Frontier, is_crew};
use oth_rules::{Board, Scoring};
use oth_search::{
    Answer, Kind, MOST_EMPTIES, NoPeers, RootMoves, Solved, before_pass, ended, is_few, solve_few,
    solve_moves,
};
use oth_table::{SharedTable, TableCells, is_size};
use oth_walk::{
    Alone, Announced, BoundsSeat, Gate, MoveBounds, RootBound, Search, Sharing, worker_cells,
};
use std::alloc::Global;
use std::thread::Threads;
use thiserror::Error;

/// Why a board isn't solved: the first of these that holds.
#[derive(Clone, Copy, PartialEq, Eq, Debug, Error)]
pub enum SolveError {
    /// Refusal 1: this many squares are empty, more than 30.
    #[error("the board has {0} empty squares, and at most 30 are solved")]
    TooManyEmpties(u8),
    /// Refusal 2: the workers aren't 1 to 16.
    #[error("there can be 1 to 16 workers")]
    Workers,
    /// Refusal 3: the cells are neither 0 nor one of 1, 2, 4 .. 262,144.
    #[error("a table has 0 cells, or a power of two of at most 262144")]
    Cells,
}

/// Returns the score and all best moves of a board by full minimax, by `workers` workers over a table of at most
/// `cells` cells (0: none). Waits for its workers. Neither their number nor the table's size nor the schedule changes
/// the answer, nor refused memory or threads. A book of the same scoring is asked first: an exact entry is the answer,
/// and the gate hears nothing; the bounds of another entry narrow the search, and several workers start with a floor at
/// the lower one. It is asked of the boards after the moves too, and one of them whose value it has is not searched.
pub fn solve<R: Threads + Sync, G: Gate>(
    rt: &R,
    alloc: Global,
    board: &Board,
    workers: u8,
    cells: u32,
    gate: &G,
    book: Option<&Book>,
    scoring: Scoring,
) -> Result<Answer, SolveError>
    ensures ok { IfOk result (λ a. IsFullMinimax board.now scoring a) }
    ensures accepted { IfOk result (λ a. Accepts board.now workers cells) }
    ensures err { IfErr result (Refuses board.now workers cells) }
{
    accepted(board, workers, cells)?;
    if let Some(answer) = answer_in(book, board, scoring) {
        return Ok(answer);
    }
    let by_book = bounds_in(book, board, scoring);
    let means = Means {
        rt,
        alloc,
        gate,
        workers: crew(workers, board.empties()),
    };
    Ok(answer(&means, &by_book, book, cells))
}

/// Refuses by the first cause for which the board isn't solved, if there is one.
pub(crate) fn accepted(board: &Board, workers: u8, cells: u32) -> Result<(), SolveError>
    ensures ok { IfOk result (λ nothing. Accepts board.now workers cells) }
    ensures err { IfErr result (Refuses board.now workers cells) }
{
    let empties = board.empties();
    if empties > MOST_EMPTIES {
        return Err(SolveError::TooManyEmpties(empties));
    }
    if !is_crew(workers) {
        return Err(SolveError::Workers);
    }
    if cells != 0 && !is_size(cells) {
        return Err(SolveError::Cells);
    }
    Ok(())
}

/// Returns how many of `workers` workers pay for a board of `empties` empty squares.
pub(crate) fn crew(workers: u8, empties: u8) -> u8
    requires { IsCrew workers }
    ensures { IsCrew result }
{
    if empties < CREW_MIN_EMPTIES {
        workers.min(2)
    } else {
        workers
    }
}

// Returns the answer of `by_book`, a board with the book's bounds. Where the mover must pass, the book is asked of the
// board after the pass first.
fn answer<R: Threads + Sync, G: Gate>(
    means: &Means<R, G>,
    by_book: &Solved,
    book: Option<&Book>,
    cells: u32,
) -> Answer
    requires few { IsSolvable by_book.now.board }
    ensures board { result.board ≡ by_book.now.board }
    ensures scoring { result.scoring ≡ by_book.now.scoring }
{
    let board = by_book.board;
    match Kind::of(&board) {
        Kind::Move => answer_moves(means, by_book, book, cells),
        Kind::Pass => {
            let passed = by_book.passed();
            let answer = match answer_in(book, &passed.board, passed.scoring) {
                Some(answer) => answer,
                None => answer_moves(means, &passed, book, cells),
            };
            before_pass(board, answer)
        }
        Kind::End => ended(board, by_book.scoring),
    }
}

// As `answer`, of a board whose mover has a move, over a table unless `cells` is 0 or memory is refused. A board of few
// empty squares, of whose items nobody hears, has no table and one worker.
fn answer_moves<R: Threads + Sync, G: Gate>(
    means: &Means<R, G>,
    by_book: &Solved,
    book: Option<&Book>,
    cells: u32,
) -> Answer
    requires some { can_move by_book.now.board ≡ true }
    requires few { IsSolvable by_book.now.board }
    ensures board { result.board ≡ by_book.now.board }
    ensures scoring { result.scoring ≡ by_book.now.scoring }
{
    let empties = by_book.board.empties();
    if is_few(empties) && !means.gate.hears() {
        means.gate.begins(&by_book.board);
        return solve_few(by_book);
    }
    let cells = cells_for(cells, empties, means.workers);
    match SharedTable::new(means.alloc, cells, by_book.scoring) {
        Ok((table, seat)) => {
            let mut access = Some(TableCells::of(&table, seat));
            answer_over(means, by_book, book, &mut access)
        }
        Err(_) => answer_over(means, by_book, book, &mut None),
    }
}

/// Returns the answer of `by_book`, a board with the book's bounds whose mover has a move: several workers search the
/// items of its frontier, and the caller what they left open. The caller searches alone where it is the only worker, or
/// there is no memory for a frontier or a floor.
pub(crate) fn answer_over<'t, R: Threads + Sync, G: Gate>(
    means: &Means<R, G>,
    by_book: &Solved,
    book: Option<&Book>,
    access: &mut Option<TableCells<'t>>,
) -> Answer
    requires some { can_move by_book.now.board ≡ true }
    requires few { IsSolvable by_book.now.board }
    ensures board { result.board ≡ by_book.now.board }
    ensures scoring { result.scoring ≡ by_book.now.scoring }
{
    if means.workers > 1 {
        if let Some(answer) = answer_together(means, by_book, book, access) {
            return answer;
        }
    }
    answer_alone(means, by_book, book, access)
}

// Returns the answer by the caller's search alone.
#[inline(never)]
fn answer_alone<'t, R: Threads + Sync, G: Gate>(
    means: &Means<R, G>,
    by_book: &Solved,
    book: Option<&Book>,
    access: &mut Option<TableCells<'t>>,
) -> Answer
    requires { can_move by_book.now.board ≡ true }
    ensures board { result.board ≡ by_book.now.board }
    ensures scoring { result.scoring ≡ by_book.now.scoring }
{
    let empties = by_book.board.empties();
    let mut cells = worker_cells(means.alloc, empties, Sharing::Alone, access);
    let mut moves = moves_by_book(by_book, book);
    if !means.gate.hears() {
        means.gate.begins(&by_book.board);
        ask_higher(&mut moves, &mut cells, &mut NoPeers);
        return solve_moves(moves, &mut cells, &mut NoPeers);
    }
    let announced = Announced::of(&by_book.board, None, means.gate);
    let mut alone = Alone::of(means.alloc, means.gate, &announced);
    ask_higher(&mut moves, &mut cells, &mut alone);
    let answer = solve_moves(moves, &mut cells, &mut alone);
    announced.finish(means.gate);
    answer
}

// Returns the answer by what the workers tell of the root's moves and by the caller's search of what they left open.
// None where there is no memory for a frontier or a floor.
#[inline(never)]
fn answer_together<'t, R: Threads + Sync, G: Gate>(
    means: &Means<R, G>,
    by_book: &Solved,
    book: Option<&Book>,
    access: &mut Option<TableCells<'t>>,
) -> Option<Answer>
    requires some { can_move by_book.now.board ≡ true }
    requires few { IsSolvable by_book.now.board }
    ensures board { IfSome result (λ a. a.board ≡ by_book.now.board) }
    ensures scoring { IfSome result (λ a. a.scoring ≡ by_book.now.scoring) }
{
    let alloc = means.alloc;
    let frontier = frontier_of(alloc, &by_book.board)?;
    let mut moves = moves_by_book(by_book, book);
    let start = start_of_several(alloc, &moves, access);
    let sharing = Sharing::of_several(access);
    let search = Search::of(&start, &frontier, sharing);
    let (floor, mut seat) = raised_floor(alloc, by_book)?;
    let hints = hints_for(means, &search);
    let bounds = bounds_for(means, by_book);
    let announced = Announced::of(&by_book.board, Some(&*frontier), means.gate);
    let links = Links {
        root: by_book,
        floor: &floor,
        hints: &hints,
        bounds: &bounds,
        announced: &announced,
    };
    // As `means`, but no longer than the links.
    let means = Means {
        rt: means.rt,
        alloc,
        gate: means.gate,
        workers: means.workers,
    };
    let _ = run(&means, &search, links, &mut seat, access);
    take_in_told(&bounds, &mut moves);
    moves.narrow_root(&RootBound::of(&floor, seat).root());
    let mut cells = worker_cells(alloc, by_book.board.empties(), sharing, access);
    let mut alone = Alone::of(alloc, means.gate, &announced);
    let answer = solve_moves(moves, &mut cells, &mut alone);
    announced.finish(means.gate);
    Some(answer)
}

// Narrows the moves to what the workers told of them: all that they found, where there is memory for the bounds.
fn take_in_told(bounds: &Option<MoveBounds>, moves: &mut RootMoves)
    ensures { moves.new ≡ moves.old }
{
    let mut seat = BoundsSeat::of(bounds);
    for place in 0..moves.len() {
        if let Some(root_move) = moves.get(place) {
            if let Some(told) = seat.hear(root_move.square) {
                moves.narrow(place, &told);
            }
        }
    }
}

// Makes the frontier of the board on the heap, which leaves the stack to the search. None where there is no memory.
#[inline(never)]
fn frontier_of(alloc: Global, board: &Board) -> Option<Box<Frontier>>
    requires { IsSolvable board.now }
{
    Box::new(alloc, Frontier::of(board, 2)).ok()
}

// Makes a floor of the board as high as the book's lower bound, and its first seat. None where there is no memory.
fn raised_floor(alloc: Global, by_book: &Solved) -> Option<(Floor, FloorSeat)>
    ensures home { IfSome result (λ made. IsSeatOf made.0 made.1) }
    ensures root { IfSome result (λ made. made.0.root.board ≡ by_book.now.board) }
    ensures scoring { IfSome result (λ made. made.0.root.scoring ≡ by_book.now.scoring) }
    ensures raised { IfSome result (λ made. by_book.now.interval.lower ≤ℤ floor_after made.1.seen) }
{
    let (floor, mut seat) = Floor::new(alloc, &by_book.board, by_book.scoring).ok()?;
    floor.raise(&mut seat, by_book).ok()?;
    Some((floor, seat))
}
