//! The test of a book's claims by several workers.
//!
//! `verify_by` is `oth_book::verify_knowing`, told what is found of the claims' boards. Those of the next `MOST_JOBS`
//! claims at the most are the jobs of a crew, so a wrong entry is met at most a batch late. A board that isn't among
//! them is solved by all workers together, and one of fewer than 13 empty squares by the search of `verify` itself.

ghost use Rattle.std.specs.Prelude.{◌≡◌, ◌≤◌, All, IfOk, IfErr, IfSome, length};
ghost use Rattle.std.specs.Thread.{IsSync};
ghost use Rattle.oth_rules.specs.Position.{empty_count};
ghost use Rattle.oth_book.specs.True.{IsWrong};
ghost use Rattle.oth_book.specs.Book.{IsTrueBook};

use crate::asked::Asked;
use crate::batch::Batch;
use crate::crew::Crew;
use crate::jobs::Jobs;
use crate::tuning::{ALL_WORKERS_MIN_EMPTIES, MOST_JOBS, ONE_WORKER_MAX_EMPTIES};
use oth_book::{Book, Claim, Claims, Wrong, verify_knowing};
use oth_pool::Gate;
use oth_rules::Board;
use oth_search::Answer;
use std::alloc::Global;
use std::sync::Wait;
use std::thread::Threads;

/// Returns the book of the claims where all are true, else the first that isn't, or out of memory, as
/// [`oth_book::verify`] does. Boards that one worker is enough for are solved side by side, larger ones one after the
/// other by all workers, over tables of at most `cells` cells each. Waits for its workers. Neither their number nor the
/// tables' size changes the verdict, nor the gate, which hears each claim's board as awaited, nor refused threads, nor
/// refused memory once there is room for the book.
pub fn verify_by<'b, R: Wait + Threads + Sync, G: Gate>(
    rt: &'b R,
    alloc: Global,
    claims: Claims,
    workers: u8,
    cells: u32,
    gate: &'b G,
) -> Result<Book, Wrong>
    ensures same { IfOk result (λ book. book ≡ claims) }
    ensures holds { IfOk result (λ book. IsTrueBook book) }
    ensures wrong { IfErr result (λ w. IsWrong claims w) }
{
    let batch = Batch {
        rt,
        alloc,
        gate,
        book: None,
        workers,
        cells,
        scoring: claims.scoring(),
    };
    verify_together(&batch, claims)
}

// As `verify_by`, with a crew for as many workers as pay for the first claims.
fn verify_together<'b, R: Wait + Threads + Sync, G: Gate>(
    batch: &'b Batch<'b, R, G>,
    claims: Claims,
) -> Result<Book, Wrong>
    ensures same { IfOk result (λ book. book ≡ claims) }
    ensures holds { IfOk result (λ book. IsTrueBook book) }
    ensures wrong { IfErr result (λ w. IsWrong claims w) }
{
    let crew = Crew::of(batch, jobs_of_claims(batch, claims.entries()));
    let mut left = Some(claims);
    let mut work = || -> Result<Book, Wrong>
        ensures same { IfSome left.entry (λ claims. IfOk result (λ book. book ≡ claims)) }
        ensures holds { IfOk result (λ book. IsTrueBook book) }
        ensures wrong { IfSome left.entry (λ claims. IfErr result (λ w. IsWrong claims w)) }
    {
        match left.take() {
            Some(claims) => verify_beside(&crew, claims),
            None => Err(Wrong::Memory),
        }
    };
    crew.beside(&mut work)
}

// As `verify_by`, while the crew does the jobs of the first claims, and then of the next ones.
fn verify_beside<R: Wait + Threads + Sync, G: Gate>(
    crew: &Crew<'_, R, G>,
    claims: Claims,
) -> Result<Book, Wrong>
    ensures same { IfOk result (λ book. book ≡ claims) }
    ensures holds { IfOk result (λ book. IsTrueBook book) }
    ensures wrong { IfErr result (λ w. IsWrong claims w) }
{
    let mut left = MOST_JOBS;
    verify_knowing(
        crew.batch().alloc,
        claims,
        |rest: &[Claim]| -> Option<Answer>
            requires { IsSync R.row × IsSync G.row }
        {
            if left == 0 {
                crew.give(jobs_of_claims(crew.batch(), rest));
                left = MOST_JOBS;
            }
            left = left.saturating_sub(1);
            answer_of(crew, &rest.first()?.board)
        },
    )
}

// Makes jobs for the boards of the first claims. None where one worker is enough, or there is no memory.
fn jobs_of_claims<'b, R: Threads + Sync, G: Gate>(
    batch: &'b Batch<'b, R, G>,
    claims: &[Claim],
) -> Option<Jobs<'b, R, G>> {
    let boards = boards_of_claims(batch.alloc, claims)?;
    Jobs::of(batch, Asked::Answer, boards.as_slice())
}

// The boards of the first `MOST_JOBS` claims that aren't over and that one worker is enough for, if there is memory.
fn boards_of_claims(alloc: Global, claims: &[Claim]) -> Option<Vec<Board>>
    ensures count { IfSome result (λ boards. length boards.items ≤ MOST_JOBS) }
    ensures small { IfSome result (λ boards. All (λ b. empty_count b ≤ ONE_WORKER_MAX_EMPTIES) boards.items) }
{
    let mut boards = Vec::new(alloc);
    for place in 0..claims.len().min(MOST_JOBS) {
        let board = claims[place].board;
        if board.empties() <= ONE_WORKER_MAX_EMPTIES && !board.is_over() {
            boards.push(board).ok()?;
        }
    }
    Some(boards)
}

// The answer of the board by its job, or by all workers, where that pays.
fn answer_of<R: Wait + Threads + Sync, G: Gate>(
    crew: &Crew<'_, R, G>,
    board: &Board,
) -> Option<Answer>
    ensures { IfSome result (λ a. a.board ≡ board.now) }
{
    let batch = crew.batch();
    batch.gate.awaits(board);
    if let Some(answer) = crew.answer_of(board) {
        return Some(answer);
    }
    if board.empties() < ALL_WORKERS_MIN_EMPTIES || board.is_over() {
        return None;
    }
    batch.solve(board, batch.workers, batch.book).ok()
}
