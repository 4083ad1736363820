//! The peers of a worker as `RootPeers` of the root driver (`root/settle` of `oth_search`).
//!
//! From 14 empty squares on workers over a table make the first guess together, and the first that is done tells it;
//! below, that guess is a draw. Without a table each worker guesses by itself.

ghost use Rattle.std.specs.Prelude.{◌≡◌};
ghost use Rattle.oth_rules.specs.Laws.{IsScore};
ghost use Rattle.oth_search.specs.Bounds.Interval.{IsThreshold};

use super::Peers;
use crate::announcing::Gate;
use oth_rules::{Board, Square};
use oth_search::{Cells, Interval, NullWindow, Pace, RootMove, RootMoves, RootPeers, Solved, put};

impl<'w, G: Gate, C: Cells> RootPeers<C> for Peers<'w, G> {
    fn begin_move(&mut self, root_move: &RootMove) {
        self.hints.begin(&root_move.child.board);
    }

    fn end_move(&mut self, root_move: &RootMove, _moves: &RootMoves) {
        self.hints.end(&root_move.child.board);
    }

    fn known_by_now(&mut self, known: &Solved, cells: &mut C) -> Solved {
        known.joined(&Solved::looked_up(&known.board, cells, known.scoring))
    }

    fn best(&mut self, own: i8) -> i8 {
        own.min(-self.root_bound.floor())
    }

    fn is_done(&mut self, square: Square) -> bool {
        self.is_settled(square)
    }

    fn next(&mut self, bounds: Interval, start: i8, pace: Pace) -> i8 {
        let pace = if self.guesses() {
            Pace::by_bounds(bounds, start)
        } else {
            pace
        };
        pace.onward(bounds, start)
    }

    fn decide(&mut self, known: &RootMove, alpha: i8, cells: &mut C) -> Solved {
        let RootMove { square, child } = *known;
        if child.interval.decides(alpha, alpha + 1) {
            return child;
        }
        let window = NullWindow::at(alpha + 1);
        self.begin_below(known);
        if let Some((number, known)) = self.announcer.begin_move(&child, cells) {
            self.gate.known_before(number, &known);
            self.gate.before(number);
            self.announcer.tell(number);
        }
        let found = child.narrowed_by_abdada(window, cells, self);
        if let Some(number) = self.announcer.end_move(&found) {
            self.gate.known_after(number, &found.awake());
            self.gate.after(number);
        }
        put(&found, cells);
        self.raise_by(&RootMove {
            square,
            child: found,
        });
        found
    }

    fn guessed(&mut self, board: &Board, alpha: i8) -> Option<i8> {
        if !self.guesses() {
            return None;
        }
        let is_above = self.hints.seen(board, alpha + 1)?;
        Some(beside(alpha, is_above))
    }

    fn tell_guessed(&mut self, board: &Board, alpha: i8, found: i8) {
        self.hints.tell_seen(board, alpha + 1, found > alpha);
    }

    fn is_deferred(&mut self, board: &Board) -> bool {
        self.guesses() && self.hints.is_searched(board)
    }

    fn begin_guess(&mut self, board: &Board) {
        self.hints.begin(board);
    }

    fn end_guess(&mut self, board: &Board) {
        self.hints.end(board);
    }
}

// The bound of a value that seems to be above `alpha`, or not: `alpha + 1`, or `alpha`.
fn beside(alpha: i8, is_above: bool) -> i8
    requires { IsThreshold alpha }
    ensures { IsScore result }
{
    if is_above { alpha + 1 } else { alpha }
}
