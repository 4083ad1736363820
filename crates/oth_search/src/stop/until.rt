//! The search that is ended when its look-ups are spent, or when another thread sets the flag.
ghost use Rattle.std.specs.Prelude.{◌≡◌, ◌↔◌, IsTrue, IfOk, IfErr, true, false};
ghost use Rattle.oth_rules.specs.Position.{pass};
ghost use Rattle.oth_rules.specs.Move.{can_move};
ghost use Rattle.oth_search.specs.Bounds.Full.{IsFullMinimax};

use super::flag::StopFlag;
use super::limited::Limited;
use super::resume::{Begun, Resume};
use crate::bounds::{Answer, Cells, Interval, Kind, NullWindow, Solved};
use crate::root::{
    Pace, RootMove, RootMoves, RootPeers, Round, before_pass, best_moves, ended, first_threshold,
    settle,
};
use crate::shared::TreePeers;
use crate::tuning::STOP_MIN_EMPTIES;
use arrayvec::ArrayVec;
use oth_rules::{Board, Scoring, Square};
use thiserror::Error;

// A search by one worker that is stopped when the look-ups are spent or the flag is set.
#[derive(Drop)]
struct UntilEnded<'s> {
    stop: &'s StopFlag,
    root: Board,
    scoring: Scoring,
    resume: Resume,
    // Whether its guess was ended, after which nothing that it tells is kept.
    is_ended: bool,
}

impl<'s> UntilEnded<'s> {
    // What it had come to.
    fn into_resume(self) -> Resume {
        let UntilEnded { resume, .. } = self;
        resume
    }
}

impl<'s, C: Cells> TreePeers<Limited<C>> for UntilEnded<'s> {
    fn fewest(&self) -> u8 {
        STOP_MIN_EMPTIES
    }

    fn gives_up(&mut self, _searched: &Board, cells: &mut Limited<C>) -> bool
        ensures fixed { C.fixed cells.new.cells ≡ C.fixed cells.old.cells }
        ensures spent { IsTrue result ↔ (cells.new.left ≡ 0) }
    {
        cells.hear(self.stop.is_set());
        cells.is_spent()
    }

    // As they were kept, since a search that goes on comes to the boards on its way once more.
    fn kept_order(&mut self, board: &Board) -> ArrayVec<Square, 64> {
        self.resume.kept_order(board)
    }
}

impl<'s, C: Cells> RootPeers<Limited<C>> for UntilEnded<'s> {
    fn decide(&mut self, known: &RootMove, alpha: i8, cells: &mut Limited<C>) -> Solved {
        let child = known.child;
        if child.interval.decides(alpha, alpha + 1) {
            return child;
        }
        child.narrowed_by_abdada(NullWindow::at(alpha + 1), cells, self)
    }

    // By the bounds alone, so that a search that goes on asks as the ended one did.
    fn next(&mut self, bounds: Interval, start: i8, _pace: Pace) -> i8 {
        Pace::by_bounds(bounds, start).onward(bounds, start)
    }

    fn guessed(&mut self, board: &Board, alpha: i8) -> Option<i8> {
        self.resume.told(board, alpha, self.scoring)
    }

    // Not of the root: which of its moves were asked before tells more.
    fn tell_guessed(&mut self, board: &Board, alpha: i8, found: i8) {
        if !self.is_ended && *board != self.root {
            self.resume.tell(board, alpha, self.scoring, found);
        }
    }

    fn ends_guess(&mut self, cells: &mut Limited<C>) -> bool
        ensures fixed { C.fixed cells.new.cells ≡ C.fixed cells.old.cells }
        ensures spent { IsTrue result ↔ (cells.new.left ≡ 0) }
        ensures told { self.new.is_ended ≡ result }
    {
        cells.hear(self.stop.is_set());
        self.is_ended = cells.is_spent();
        self.is_ended
    }

    fn is_over(&self, cells: &Limited<C>) -> bool
        ensures spent { IsTrue result ↔ (cells.now.left ≡ 0) }
    {
        cells.is_spent()
    }
}

/// A search was stopped before it was done. `known` is what was known of its board by then, and `moves` has its moves
/// with what was known of the board after each: none where the mover must pass.
#[derive(Debug, Drop, Error)]
#[error("the search was ended before it was done")]
pub struct Stopped {
    pub known: Solved,
    pub moves: RootMoves,
}

/// The answer of a board by a search over the cells, or what is known of the board if the look-ups are spent before, or
/// the flag is set, which ends at once each search that begins, unless the game is over. Else the search stops at the
/// next board of 11 and more empty squares, or at the next look of its first guess, so somewhat later; one of fewer
/// empty squares, which takes about a millisecond, hears no flag that is set meanwhile.
pub fn solve_until<C: Cells>(
    board: &Board,
    cells: &mut Limited<C>,
    scoring: Scoring,
    stop: &StopFlag,
) -> Result<Answer, Stopped>
    ensures board { IfOk result (λ a. (a.board ≡ board.now) × (a.scoring ≡ scoring)) }
    ensures full { IfOk result (IsFullMinimax board.now scoring) }
    ensures known { IfErr result (λ s. (s.known.board ≡ board.now) × (s.known.scoring ≡ scoring)) }
    ensures moves { IfErr result (λ s. (s.moves.board ≡ board.now) × (s.moves.scoring ≡ scoring)) }
    ensures spent { IfErr result (λ s. cells.new.left ≡ 0) }
    ensures fixed { C.fixed cells.new.cells ≡ C.fixed cells.old.cells }
{
    match Kind::of(board) {
        Kind::Move => solve_moves_until(*board, cells, scoring, stop),
        Kind::Pass => solve_past_until(board, cells, scoring, stop),
        Kind::End => Ok(ended(*board, scoring)),
    }
}

// As `solve_until`, of a board whose mover must pass.
fn solve_past_until<C: Cells>(
    board: &Board,
    cells: &mut Limited<C>,
    scoring: Scoring,
    stop: &StopFlag,
) -> Result<Answer, Stopped>
    requires none { can_move board.now ≡ false }
    requires some { can_move (pass board.now) ≡ true }
    ensures board { IfOk result (λ a. (a.board ≡ board.now) × (a.scoring ≡ scoring)) }
    ensures known { IfErr result (λ s. (s.known.board ≡ board.now) × (s.known.scoring ≡ scoring)) }
    ensures moves { IfErr result (λ s. (s.moves.board ≡ board.now) × (s.moves.scoring ≡ scoring)) }
    ensures spent { IfErr result (λ s. cells.new.left ≡ 0) }
    ensures fixed { C.fixed cells.new.cells ≡ C.fixed cells.old.cells }
{
    match solve_moves_until(board.pass(), cells, scoring, stop) {
        Ok(passed) => Ok(before_pass(*board, passed)),
        Err(stopped) => {
            let known = stopped.known.before_pass(board);
            let moves = RootMoves::of(&known, &[]);
            Err(Stopped { known, moves })
        }
    }
}

// As `solve_until`, of a board whose mover has a move.
fn solve_moves_until<C: Cells>(
    board: Board,
    cells: &mut Limited<C>,
    scoring: Scoring,
    stop: &StopFlag,
) -> Result<Answer, Stopped>
    requires { can_move board ≡ true }
    ensures board { IfOk result (λ a. (a.board ≡ board) × (a.scoring ≡ scoring)) }
    ensures known { IfErr result (λ s. (s.known.board ≡ board) × (s.known.scoring ≡ scoring)) }
    ensures moves { IfErr result (λ s. (s.moves.board ≡ board) × (s.moves.scoring ≡ scoring)) }
    ensures spent { IfErr result (λ s. cells.new.left ≡ 0) }
    ensures fixed { C.fixed cells.new.cells ≡ C.fixed cells.old.cells }
{
    cells.hear(stop.is_set());
    let resume = cells.take_resume();
    let mut driver = UntilEnded {
        stop,
        root: board,
        scoring,
        resume,
        is_ended: false,
    };
    let begun = taken_up(board, cells, scoring, &mut driver);
    let Begun {
        mut moves,
        mut round,
    } = begun;
    settle(&mut moves, true, &mut round, cells, &mut driver);
    let is_guessed = !driver.is_ended;
    let mut resume = driver.into_resume();
    let is_spent = cells.is_spent();
    if is_spent && is_guessed {
        let moves = moves.another();
        resume.keep(Begun { moves, round });
    }
    cells.leave(resume);
    if is_spent {
        let known = moves.backed_up();
        return Err(Stopped { known, moves });
    }
    Ok(best_moves(&moves, cells))
}

// What an ended search of this root had come to, or else its moves after a guess, which may be ended too.
fn taken_up<C: Cells>(
    board: Board,
    cells: &mut Limited<C>,
    scoring: Scoring,
    driver: &mut UntilEnded<'_>,
) -> Begun
    ensures board { result.moves.board ≡ board }
    ensures scoring { result.moves.scoring ≡ scoring }
    ensures fixed { C.fixed cells.new.cells ≡ C.fixed cells.old.cells }
{
    if let Some(begun) = driver.resume.begun(&board, scoring) {
        return begun;
    }
    let mut moves = RootMoves::of(&Solved::unknown(board, scoring), &[]);
    let round = Round::first(first_threshold(&mut moves, cells, driver));
    Begun { moves, round }
}
