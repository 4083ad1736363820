//! The selective search: few moves at each node, down to boards of few empty squares, which are searched in full. It
//! makes guesses; no answer rests on it.
ghost use Rattle.std.specs.Prelude.{◌≡◌, ◌<◌};
ghost use Rattle.std.specs.List.{All};
ghost use Rattle.oth_rules.specs.Laws.{IsScore};
ghost use Rattle.oth_search.specs.Bounds.Interval.{IsThreshold};
ghost use Rattle.oth_search.specs.Ordering.Children.{IsChild};

use crate::bounds::{Cells, greater, without};
use crate::nws::{Node, nws_node};
use crate::ordering::{Child, next_child, ranked};
use crate::tuning::{
    GUESS_EVALUATION_MIN_EMPTIES, GUESS_LOOKAHEAD_MAX_EMPTIES, MANY_PLIES, MOST_RANKED, WIDTH,
    WIDTH_AT_FIRST, most_empties_in_full,
};
use arrayvec::ArrayVec;
use oth_rules::{Board, Scoring};

// How far a glance sees: `plies` plies, and `width` moves of the first board.
#[derive(Clone, Copy)]
struct Sight {
    plies: u8,
    width: usize,
}

impl Sight {
    // The sight from a board after a reply: as many plies as lead to boards of few empty squares, which are searched in
    // full.
    fn after_reply(board: &Board) -> Sight {
        let empties = board.empties();
        let plies = empties.saturating_sub(most_empties_in_full(empties));
        Sight {
            plies,
            width: if plies >= MANY_PLIES {
                WIDTH_AT_FIRST
            } else {
                WIDTH
            },
        }
    }

    // The sight one ply on.
    fn below(self) -> Sight
        requires { 0 < self.plies }
        ensures { result.plies < self.plies }
    {
        Sight {
            plies: self.plies - 1,
            width: WIDTH,
        }
    }
}

/// Returns a bound, on its side of `alpha` (-64 to 63), of the value that the board after a reply to a root's move
/// seems to have, by the selective search. No answer depends on it.
pub fn seeming_value<C: Cells>(board: Board, alpha: i8, cells: &mut C, scoring: Scoring) -> i8
    requires { IsThreshold alpha }
    ensures score { IsScore result }
    ensures fixed { C.fixed cells.new ≡ C.fixed cells.old }
{
    let sight = Sight::after_reply(&board);
    glance(Node::of(board), alpha, sight, cells, scoring)
}

/// Returns the children of a node, as many as a guess ranks.
pub(super) fn ranked_for_guess(node: &Node) -> ArrayVec<Child, MOST_RANKED>
    ensures { All (IsChild node.now.board) result.items }
{
    ranked(
        node,
        GUESS_EVALUATION_MIN_EMPTIES,
        GUESS_LOOKAHEAD_MAX_EMPTIES,
    )
}

// As `seeming_value`, of any node, as far as `sight` goes: by its `sight.width` best-ranked moves.
fn glance<C: Cells>(node: Node, alpha: i8, sight: Sight, cells: &mut C, scoring: Scoring) -> i8
    requires { IsThreshold alpha }
    ensures score { IsScore result }
    ensures fixed { C.fixed cells.new ≡ C.fixed cells.old }
{
    if sight.plies == 0 {
        return nws_node(node, alpha, cells, scoring);
    }
    if node.moves == 0 {
        let passed = Node::of(node.board.pass());
        if passed.moves == 0 {
            return node.board.final_score(scoring);
        }
        return -glance(passed, -alpha - 1, sight, cells, scoring);
    }
    let mut ranked = ranked_for_guess(&node);
    let mut best = -64;
    let mut left = node.moves;
    for _ in 0..sight.width {
        if left == 0 {
            break;
        }
        let child = next_child(&node.board, ranked.as_mut_slice(), left);
        left = without(left, child.square());
        let score = -glance(child.node(), -alpha - 1, sight.below(), cells, scoring);
        if score > alpha {
            return score;
        }
        best = greater(best, score);
    }
    best
}
