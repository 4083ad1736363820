//! The look ahead of the move ordering, a few plies on boards of many empty squares: alpha-beta over the evaluations of
//! boards in place of their scores.
ghost use Rattle.std.specs.Prelude.{◌≡◌, ◌<◌, false};

use super::child::Child;
use super::children::{add_children, next_child};
use super::evaluation::{Evaluation, by_discs, look_past_moves};
use crate::bounds::without;
use crate::nws::Node;
use crate::tuning::MOST_LOOKED;
use arrayvec::ArrayVec;

/// The window of a look: `alpha`, what the mover already has, and `beta`, from where on the look ends.
#[derive(Clone, Copy)]
pub struct EvalWindow {
    alpha: Evaluation,
    beta: Evaluation,
}

impl EvalWindow {
    /// The window from the worst evaluation up to `beta`.
    pub fn up_to(beta: Evaluation) -> EvalWindow {
        EvalWindow {
            alpha: Evaluation::WORST,
            beta,
        }
    }

    // The window as the opponent sees it.
    fn turned(self) -> EvalWindow {
        EvalWindow {
            alpha: self.beta.turned(),
            beta: self.alpha.turned(),
        }
    }

    // The window once the mover has `found`.
    fn having(self, found: Evaluation) -> EvalWindow {
        EvalWindow {
            alpha: self.alpha.better(found),
            beta: self.beta,
        }
    }
}

/// Evaluates a node for its mover after `plies` plies, at least one. Less exact outside `window`.
#[cycle(lookahead)]
pub fn lookahead(node: Node, plies: u8, window: EvalWindow) -> Evaluation {
    if node.moves != 0 {
        return lookahead_at_moves(node, plies, window);
    }
    let passed = Node::of(node.board.pass());
    if passed.moves != 0 {
        return lookahead_at_moves(passed, plies, window.turned()).turned();
    }
    by_discs(&node.board)
}

// As `lookahead`, of a node whose mover has a move, the best-ranked moves first.
#[cycle(lookahead)]
fn lookahead_at_moves(node: Node, plies: u8, window: EvalWindow) -> Evaluation {
    if plies < 2 {
        return look_past_moves(&node.board, node.moves, window.beta);
    }
    let mut list: ArrayVec<Child, MOST_LOOKED> = ArrayVec::new();
    add_children(&node, &mut list);
    let mut best = Evaluation::WORST;
    let mut left = node.moves;
    while left != 0 {
        let child = next_child(&node.board, list.as_mut_slice(), left);
        left = without(left, child.square());
        let after = lookahead(child.node(), plies - 1, window.having(best).turned());
        best = best.better(after.turned());
        if best.reaches(window.beta) {
            return best;
        }
    }
    best
}
