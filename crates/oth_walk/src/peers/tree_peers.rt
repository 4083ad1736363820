//! The peers of a worker as `TreePeers` of the search below a move (`shared/abdada` of `oth_search`).
//!
//! A worker marks the node that it searches, and defers a node that another has marked to a later round through the
//! moves, so that workers part at once and meet again where only marked boards are left. What one finds the others
//! look up in the table: a board and the boards after its moves before its moves are searched, and boards above after
//! a move was. Boards of fewer than 10 empty squares (11 where the root has 20 or more) are searched to the end by one
//! worker. Such a search is given up where the floor rises (not without a table, where all that it has found would be
//! lost), where bounds settle the move, or where the table decides one of the boards above.

use super::Peers;
use super::path_node::PathNode;
use crate::announcing::Gate;
use crate::tuning::{CHILDREN_TOGETHER, FEW_TOGETHER, KEPT_ORDER_MIN_EMPTIES};
use arrayvec::ArrayVec;
use oth_rules::{Board, Square};
use oth_search::{Cells, NullWindow, Solved, TreePeers};

impl<'w, G: Gate, C: Cells> TreePeers<C> for Peers<'w, G> {
    fn fewest(&self) -> u8 {
        self.shape.fewest
    }

    fn undeferred(&self, empties: u8) -> usize {
        if empties <= self.shape.dealt {
            FEW_TOGETHER
        } else {
            CHILDREN_TOGETHER
        }
    }

    // Another worker seems to search the board, and this one could learn what it finds.
    fn is_deferred(&mut self, board: &Board) -> bool {
        self.shares() && self.hints.is_searched(board)
    }

    fn begin(&mut self, board: &Board, cells: &mut C) {
        self.hints.begin(board);
        let unknown = Solved::unknown(*board, self.root_bound.scoring());
        if let Some((number, known)) = self.announcer.begin(&unknown, cells) {
            self.gate.known_before(number, &known);
            self.gate.before(number);
            self.announcer.tell(number);
        }
    }

    fn end(&mut self, found: &Solved) {
        if let Some(number) = self.announcer.end(found) {
            self.gate.known_after(number, &found.awake());
            self.gate.after(number);
        }
        self.hints.end(&found.board);
    }

    fn enter(&mut self, board: &Board, window: NullWindow) -> usize {
        let depth = self.path.len();
        if self.shares() {
            let (image, _) = board.canonical();
            let _ = self.path.push(PathNode { image, window });
        }
        depth
    }

    fn leave(&mut self, depth: usize) {
        self.path.truncate(depth);
    }

    // The floor has risen, the root's move is settled, or the table decides one of the searches under way. Without a
    // shared table a search goes on at a higher floor: what it has found by now would be lost.
    fn gives_up(&mut self, searched: &Board, cells: &mut C) -> bool {
        let most = self.checked_ancestors(searched.empties());
        self.shares() && self.root_bound.floor() > self.floor_before
            || self.is_out(cells)
            || self.is_any_decided(most, cells)
    }

    fn kept_order(&mut self, board: &Board) -> ArrayVec<Square, 64> {
        self.order_of(board)
    }

    fn prefer(&mut self, board: &Board, square: Square) {
        if board.empties() < KEPT_ORDER_MIN_EMPTIES {
            return;
        }
        if let Some(kept) = self.hints.order_of(board) {
            self.hints.keep_order(board, kept.with_first(square));
        }
    }
}
