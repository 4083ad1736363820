//! A null-window search that is heard: before it searches a board after a move it says so, and afterwards that it has.
ghost use Rattle.std.specs.Prelude.{◌≡◌, true};
ghost use Rattle.oth_rules.specs.Move.{can_move};
ghost use Rattle.oth_rules.specs.Score.{score_of};
ghost use Rattle.oth_rules.specs.Value.{value};
ghost use Rattle.oth_search.specs.Bounds.Interval.{BoundsAt, IsThreshold};

use super::deep::{bounded_by_child, most_at, nws_node};
use super::node::Node;
use crate::bounds::{Cells, Solved, without};
use crate::ordering::{Child, next_child, ranked};
use crate::tuning::EVALUATION_MIN_EMPTIES;
use arrayvec::ArrayVec;
use oth_rules::Scoring;

/// Hears of the searches of the boards after one board's moves. No answer depends on it.
pub trait Hearer<C: Cells> {
    /// The search of this board is about to begin, of which nothing is known but what the cells have.
    fn begin(&mut self, unknown: &Solved, cells: &mut C)
        ensures fixed { C.fixed cells.new ≡ C.fixed cells.old };

    /// That search has ended, and found these bounds of the board.
    fn end(&mut self, found: &Solved);
}

/// The hearer of a search of which nobody hears.
#[derive(Clone, Copy, Debug)]
pub struct Unheard;

impl<C: Cells> Hearer<C> for Unheard {
    fn begin(&mut self, _unknown: &Solved, _cells: &mut C) {}

    fn end(&mut self, _found: &Solved) {}
}

/// As `nws_node`, of the board of `known`, but tells `hearer` of each search of a board after a move, or after a forced
/// pass and a move, and looks up these children alone, not the board.
pub fn nws_heard<C: Cells, H: Hearer<C>>(
    known: &Solved,
    alpha: i8,
    cells: &mut C,
    hearer: &mut H,
) -> i8
    requires { IsThreshold alpha }
    ensures value { BoundsAt (value (score_of known.now.scoring) known.now.board) alpha result }
    ensures fixed { C.fixed cells.new ≡ C.fixed cells.old }
{
    let Solved { board, scoring, .. } = *known;
    let node = Node::of(board);
    if node.moves != 0 {
        return nws_heard_moves(node, alpha, cells, scoring, hearer);
    }
    let passed = Node::of(board.pass());
    if passed.moves != 0 {
        return -nws_heard_moves(passed, -alpha - 1, cells, scoring, hearer);
    }
    board.final_score(scoring)
}

// As `nws_heard`, of a board whose mover has a move: the best-ranked one first, unless a cutoff comes before.
fn nws_heard_moves<C: Cells, H: Hearer<C>>(
    node: Node,
    alpha: i8,
    cells: &mut C,
    scoring: Scoring,
    hearer: &mut H,
) -> i8
    requires threshold { IsThreshold alpha }
    requires some { can_move node.board ≡ true }
    ensures value { BoundsAt (value (score_of scoring) node.board) alpha result }
    ensures fixed { C.fixed cells.new ≡ C.fixed cells.old }
{
    if let Some(most) = most_at(&node.board, alpha, scoring) {
        return most;
    }
    let mut list: ArrayVec<Child, 32> = ranked(&node, EVALUATION_MIN_EMPTIES, 64);
    if node.board.empties() >= EVALUATION_MIN_EMPTIES {
        if let Some(found) = bounded_by_child(&node.board, list.as_slice(), alpha, cells, scoring) {
            return found;
        }
    }
    let mut best = -64;
    let mut left = node.moves;
    while left != 0 {
        let child = next_child(&node.board, list.as_mut_slice(), left);
        left = without(left, child.square());
        let asked = Solved::unknown(child.board, scoring);
        hearer.begin(&asked, cells);
        let found = nws_node(child.node(), -alpha - 1, cells, scoring);
        hearer.end(&asked.narrowed(-alpha - 1, found));
        let score = -found;
        if score > alpha {
            return score;
        }
        if score > best {
            best = score;
        }
    }
    best
}
