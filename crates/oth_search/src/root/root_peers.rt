//! The hooks of the root driver.
ghost use Rattle.std.specs.Prelude.{◌≡◌, negsuc, pos, ◌≤ℤ◌, IfSome};
ghost use Rattle.oth_rules.specs.Laws.{IsScore};
ghost use Rattle.oth_search.specs.Bounds.Interval.{IsThreshold};

use super::moves::{RootMove, RootMoves};
use super::pace::Pace;
use crate::bounds::{Cells, Interval, Solved};
use crate::nws::Unheard;
use oth_rules::{Board, Square};

/// Hooks of the root driver, called in the thread that searches: they hear of the searches of the boards after a root's
/// moves, tell what other workers found, and choose how such a board is searched. By default one worker searches alone,
/// each null window to its end. No answer depends on them.
pub trait RootPeers<C: Cells> {
    /// A search of the board after this move is about to begin.
    fn begin_move(&mut self, _root_move: &RootMove) {}

    /// That search has ended; `moves` has the bounds of the boards after all moves by now.
    fn end_move(&mut self, _root_move: &RootMove, _moves: &RootMoves) {}

    /// Returns what is known of the board after a move by now, whoever found it.
    fn known_by_now(&mut self, known: &Solved, _cells: &mut C) -> Solved
        ensures board { result.board ≡ known.now.board }
        ensures scoring { result.scoring ≡ known.now.scoring }
        ensures fixed { C.fixed _cells.new ≡ C.fixed _cells.old }
    {
        *known
    }

    /// Returns the least upper bound that is known of any board after a move, whoever found it: `own`, or less.
    fn best(&mut self, own: i8) -> i8
        requires { IsScore own }
        ensures { IsScore result }
    {
        own
    }

    /// Whether others know enough of the board after the move to this square, so that it needs no further search.
    fn is_done(&mut self, _square: Square) -> bool {
        false
    }

    /// Returns the threshold of the next null window for a value between `bounds`, where no better move is known.
    /// `start` was the first threshold of all.
    fn next(&mut self, bounds: Interval, start: i8, pace: Pace) -> i8
        requires { IsThreshold start }
        ensures low { negsuc 64 ≤ℤ result }
        ensures high { result ≤ℤ pos 64 }
    {
        pace.onward(bounds, start)
    }

    /// Returns closer bounds of the board after this move. They decide whether its value is above `alpha`, unless the
    /// search ends early.
    fn decide(&mut self, known: &RootMove, alpha: i8, cells: &mut C) -> Solved
        requires low { negsuc 64 ≤ℤ alpha }
        requires high { alpha ≤ℤ pos 64 }
        ensures board { result.board ≡ known.now.child.board }
        ensures scoring { result.scoring ≡ known.now.child.scoring }
        ensures lower { known.now.child.interval.lower ≤ℤ result.interval.lower }
        ensures upper { result.interval.upper ≤ℤ known.now.child.interval.upper }
        ensures fixed { C.fixed cells.new ≡ C.fixed cells.old }
    {
        known.child.decided_with(alpha, cells, &mut Unheard)
    }

    /// During a first guess: a bound, on its side of `alpha`, of what the board seems to have, if another worker told
    /// it, or this one in a search that was ended.
    fn guessed(&mut self, _board: &Board, _alpha: i8) -> Option<i8>
        requires { IsThreshold _alpha }
        ensures { IfSome result IsScore }
    {
        None
    }

    /// During a first guess: tells a bound, on its side of `alpha`, of what the board seems to have.
    fn tell_guessed(&mut self, _board: &Board, _alpha: i8, _found: i8)
        requires threshold { IsThreshold _alpha }
        requires score { IsScore _found }
    {}

    /// During a first guess: whether the board is deferred, since another worker is at it.
    fn is_deferred(&mut self, _board: &Board) -> bool {
        false
    }

    /// During a first guess: a look at the board begins.
    fn begin_guess(&mut self, _board: &Board) {}

    /// That look has ended.
    fn end_guess(&mut self, _board: &Board) {}

    /// During a first guess: whether it ends with what was seen by now.
    fn ends_guess(&mut self, _cells: &mut C) -> bool
        ensures fixed { C.fixed _cells.new ≡ C.fixed _cells.old }
    {
        false
    }

    /// Whether to stop asking: no further null window is searched.
    fn is_over(&self, _cells: &C) -> bool {
        false
    }
}

/// The peers of a worker that searches alone: none.
#[derive(Clone, Copy, Debug)]
pub struct NoPeers;

impl<C: Cells> RootPeers<C> for NoPeers {}
