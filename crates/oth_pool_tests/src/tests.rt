//! The worked boards and boards of games: answers, scores, and what a gate hears.

mod agreement;
mod book;
mod crews;
mod fixtures;
mod gate;
mod known;
mod refused;
mod rows;
mod scoring;

use gate::{Hearing, items_of};
use oth_pool::{Open, SolveError, solve};
use oth_rules::{Board, Scoring};
use oth_search::{Answer, Kind};
use std::alloc::Global;
use std::thread::Threads;

const A: [u64; 2] = [8, 0xffff_ffff_ffff_ff74];

const B: [u64; 2] = [0xffff_ffff_ffff_fcfc, 0x0000_0000_0000_0202];

// Row 1 `-OXXXXO-`, row 8 the same, and `X` on all other squares.
const CORNERS: [u64; 2] = [0x3cff_ffff_ffff_ff3c, 0x4200_0000_0000_0042];

const C: [u64; 2] = [0xffff_ffff_ffff_ff3c, 0x42];

// What `solve` answers, which asks no book and whose gate hears nothing: boards of few empty squares have no table, and
// one worker.
fn answered<R: Threads + Sync>(
    rt: &R,
    alloc: Global,
    board: &Board,
    workers: u8,
    cells: u32,
    scoring: Scoring,
) -> Result<Answer, SolveError> {
    solve(rt, alloc, board, workers, cells, &Open, None, scoring)
}

// The score, the best moves and the kind that `solve` answers, as by `answered`; None where it refuses.
fn solved<R: Threads + Sync>(
    rt: &R,
    alloc: Global,
    words: [u64; 2],
    workers: u8,
    cells: u32,
    scoring: Scoring,
) -> Option<(i8, u64, Kind)> {
    let board = Board::of(words[0], words[1]).ok()?;
    let answer = answered(rt, alloc, &board, workers, cells, scoring).ok()?;
    Some((answer.score, answer.best, answer.kind))
}

// As `solved`, with a gate that hears, so that boards of few empty squares have a table and several workers too. None
// also where it doesn't hear once of each item.
fn solved_heard<R: Threads + Sync>(
    rt: &R,
    alloc: Global,
    words: [u64; 2],
    workers: u8,
    cells: u32,
    scoring: Scoring,
) -> Option<(i8, u64, Kind)> {
    let board = Board::of(words[0], words[1]).ok()?;
    let gate = Hearing::new();
    let answer = solve(rt, alloc, &board, workers, cells, &gate, None, scoring).ok()?;
    let items = if board.is_over() {
        0
    } else {
        u32::try_from(items_of(&board).0).ok()?
    };
    if gate.heard_once(items) {
        Some((answer.score, answer.best, answer.kind))
    } else {
        None
    }
}
