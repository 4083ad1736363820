//! The score and all best moves of a board.
ghost use Rattle.std.specs.Prelude.{◌≡◌, ◌<◌, ◌↔◌, negsuc, pos, ◌+ℤ◌, true, false, IsErr, IfOk, IfErr};
ghost use Rattle.oth_rules.specs.Position.{empty_count, pass};
ghost use Rattle.oth_rules.specs.Move.{can_move, is_over};
ghost use Rattle.oth_rules.specs.Score.{score_of};
ghost use Rattle.oth_rules.specs.Value.{value};
ghost use Rattle.oth_rules.specs.Laws.{IsScore};
ghost use Rattle.oth_search.specs.Bounds.Interval.{Encloses, Decides};
ghost use Rattle.oth_search.specs.Bounds.Full.{IsFullMinimax};

use super::best_so_far::BestSoFar;
use super::few::{is_few, solve_few};
use super::moves::{RootMove, RootMoves};
use super::root_peers::{NoPeers, RootPeers};
use super::settle::settle_moves;
use crate::bounds::{Answer, Cells, Interval, Kind, NoCells, Solved};
use crate::local::{StackCells, is_remembered};
use oth_rules::{Board, Scoring};
use thiserror::Error;

/// Refusal 1: a board with more empty squares than are solved, with their number.
#[derive(Clone, Copy, PartialEq, Eq, Debug, Error)]
#[error("the board has {empties} empty squares, and at most 30 are solved")]
pub struct TooManyEmpties {
    pub empties: u8,
}

/// The most empty squares of a board that is solved.
pub const MOST_EMPTIES: u8 = 30;

/// The score and all best moves of a board of at most 30 empty squares, by the caller's thread alone.
pub fn solve_alone(board: &Board, scoring: Scoring) -> Result<Answer, TooManyEmpties>
    ensures refused { IsErr result ↔ (30 < empty_count board.now) }
    ensures counted { IfErr result (λ e. e.empties ≡ empty_count board.now) }
    ensures solved { IfOk result (λ a. (a.board ≡ board.now) × (a.scoring ≡ scoring)) }
    ensures full { IfOk result (IsFullMinimax board.now scoring) }
{
    let empties = board.empties();
    if empties > MOST_EMPTIES {
        return Err(TooManyEmpties { empties });
    }
    Ok(solve_without_table(*board, scoring))
}

// The answer of a board, by a search without a table.
fn solve_without_table(board: Board, scoring: Scoring) -> Answer
    ensures board { result.board ≡ board }
    ensures scoring { result.scoring ≡ scoring }
{
    if is_remembered(board.empties()) {
        solve_remembering(board, scoring)
    } else {
        solve_with(board, &mut NoCells, scoring)
    }
}

// As `solve_without_table`, with a local table. That takes time to make and 96 KB of the stack, so it is kept out of
// line.
#[inline(never)]
fn solve_remembering(board: Board, scoring: Scoring) -> Answer
    ensures board { result.board ≡ board }
    ensures scoring { result.scoring ≡ scoring }
{
    solve_with(board, &mut StackCells::new(), scoring)
}

/// The answer of a board, by a search over the cells; up to 6 empty squares without them.
pub fn solve_with<C: Cells>(board: Board, cells: &mut C, scoring: Scoring) -> Answer
    ensures board { result.board ≡ board }
    ensures scoring { result.scoring ≡ scoring }
    ensures fixed { C.fixed cells.new ≡ C.fixed cells.old }
{
    match Kind::of(&board) {
        Kind::Move => solve_unobserved(board, cells, scoring),
        Kind::Pass => {
            let passed = solve_unobserved(board.pass(), cells, scoring);
            before_pass(board, passed)
        }
        Kind::End => ended(board, scoring),
    }
}

// The answer of a board whose mover has a move, by a search of which nobody hears.
fn solve_unobserved<C: Cells>(board: Board, cells: &mut C, scoring: Scoring) -> Answer
    requires { can_move board ≡ true }
    ensures board { result.board ≡ board }
    ensures scoring { result.scoring ≡ scoring }
    ensures fixed { C.fixed cells.new ≡ C.fixed cells.old }
{
    let root = Solved::unknown(board, scoring);
    if is_few(board.empties()) {
        return solve_few(&root);
    }
    solve_moves(RootMoves::of(&root, &[]), cells, &mut NoPeers)
}

/// The answer of a board that is over.
pub fn ended(board: Board, scoring: Scoring) -> Answer
    requires { is_over board ≡ true }
    ensures board { result.board ≡ board }
    ensures scoring { result.scoring ≡ scoring }
{
    Answer {
        board,
        scoring,
        score: board.final_score(scoring),
        best: 0,
        kind: Kind::End,
    }
}

/// The answer of a board whose mover must pass, by that of the board after the pass.
pub fn before_pass(board: Board, passed: Answer) -> Answer
    requires passed { passed.board ≡ pass board }
    requires none { can_move board ≡ false }
    requires some { can_move (pass board) ≡ true }
    ensures board { result.board ≡ board }
    ensures scoring { result.scoring ≡ passed.scoring }
{
    Answer {
        board,
        scoring: passed.scoring,
        score: -passed.score,
        best: 0,
        kind: Kind::Pass,
    }
}

/// The answer of a root whose mover has a move. A board after a move is searched only where what is known leaves open
/// whether the move is exact or worse than the score. The peers hear of these searches; where they end one early, the
/// rest is searched without them.
pub fn solve_moves<C: Cells, O: RootPeers<C>>(
    mut moves: RootMoves,
    cells: &mut C,
    peers: &mut O,
) -> Answer
    requires { can_move moves.board ≡ true }
    ensures board { result.board ≡ moves.board }
    ensures scoring { result.scoring ≡ moves.scoring }
    ensures fixed { C.fixed cells.new ≡ C.fixed cells.old }
{
    settle_moves(&mut moves, cells, peers);
    best_moves(&moves, cells)
}

/// The score of a root and the moves that reach it. The score starts at what is known to be reached, and a board after
/// a move is searched only where too little is known of it.
pub(crate) fn best_moves<C: Cells>(moves: &RootMoves, cells: &mut C) -> Answer
    requires { can_move moves.now.board ≡ true }
    ensures board { result.board ≡ moves.now.board }
    ensures scoring { result.scoring ≡ moves.now.scoring }
    ensures fixed { C.fixed cells.new ≡ C.fixed cells.old }
{
    let root = moves.backed_up();
    let mut best = BestSoFar {
        score: root.interval.lower,
        moves: 0,
    };
    for root_move in moves.as_slice() {
        let RootMove { square, child } = *root_move;
        let reply = reply_below(&child, -best.score, cells);
        if reply.lower > -best.score {
            continue;
        }
        best = best.with(square, -reply.lower);
    }
    Answer::of(
        &root.board,
        best.score,
        best.moves,
        Kind::Move,
        root.scoring,
    )
}

// Bounds of a board, exact if its value is at most `limit`, else above `limit`: those that are known, or else by a
// search.
fn reply_below<C: Cells>(known: &Solved, limit: i8, cells: &mut C) -> Interval
    requires { IsScore limit }
    ensures encloses { Encloses result.lower result.upper (value (score_of known.now.scoring) known.now.board) }
    ensures decides { Decides result.lower result.upper (negsuc 64) (limit +ℤ pos 1) }
    ensures fixed { C.fixed cells.new ≡ C.fixed cells.old }
{
    if known.interval.decides(-65, limit + 1) {
        return known.interval;
    }
    Solved::at_most(&known.board, limit, cells, known.scoring).interval
}
