//! Boards that are solved, over as much memory as pays.

ghost use Rattle.std.specs.Prelude.{◌≡◌};

use crate::memory::{FEW, FewMemory, MORE, Memory, blank};
use oth_rules::{Board, Scoring};
use oth_search::{Answer, NoCells, Scores, scores_with, solve_with};

// Empty squares: from here on a search remembers boards of few empty squares. Below it that takes longer than it saves.
const FEW_MIN_EMPTIES: u8 = 10;

// Empty squares: from here on it remembers boards of more, too.
const MORE_MIN_EMPTIES: u8 = 14;

/// The value and all best moves of a board.
pub fn answered(board: Board, scoring: Scoring) -> Answer
    ensures board { result.board ≡ board }
    ensures scoring { result.scoring ≡ scoring }
{
    match board.empties() {
        0..FEW_MIN_EMPTIES => solve_with(board, &mut NoCells, scoring),
        FEW_MIN_EMPTIES..MORE_MIN_EMPTIES => answered_by_few(board, scoring),
        _ => answered_by_more(board, scoring),
    }
}

// As `answered`, with places for boards of few empty squares. Never inlined, nor are those below: each clears its own
// places alone.
#[inline(never)]
fn answered_by_few(board: Board, scoring: Scoring) -> Answer
    ensures board { result.board ≡ board }
    ensures scoring { result.scoring ≡ scoring }
{
    let mut few = [blank(); FEW];
    solve_with(board, &mut FewMemory::over(&mut few), scoring)
}

// As `answered`, with places for boards of more, too.
#[inline(never)]
fn answered_by_more(board: Board, scoring: Scoring) -> Answer
    ensures board { result.board ≡ board }
    ensures scoring { result.scoring ≡ scoring }
{
    let (mut few, mut more) = ([blank(); FEW], [blank(); MORE]);
    solve_with(board, &mut Memory::over(&mut few, &mut more), scoring)
}

/// The score of every move of a board.
pub fn scored(board: Board, scoring: Scoring) -> Scores
    ensures board { result.answer.board ≡ board }
    ensures scoring { result.answer.scoring ≡ scoring }
{
    match board.empties() {
        0..FEW_MIN_EMPTIES => scores_with(board, &mut NoCells, scoring),
        FEW_MIN_EMPTIES..MORE_MIN_EMPTIES => scored_by_few(board, scoring),
        _ => scored_by_more(board, scoring),
    }
}

// As `scored`, with places for boards of few empty squares.
#[inline(never)]
fn scored_by_few(board: Board, scoring: Scoring) -> Scores
    ensures board { result.answer.board ≡ board }
    ensures scoring { result.answer.scoring ≡ scoring }
{
    let mut few = [blank(); FEW];
    scores_with(board, &mut FewMemory::over(&mut few), scoring)
}

// As `scored`, with places for boards of more, too.
#[inline(never)]
fn scored_by_more(board: Board, scoring: Scoring) -> Scores
    ensures board { result.answer.board ≡ board }
    ensures scoring { result.answer.scoring ≡ scoring }
{
    let (mut few, mut more) = ([blank(); FEW], [blank(); MORE]);
    scores_with(board, &mut Memory::over(&mut few, &mut more), scoring)
}
