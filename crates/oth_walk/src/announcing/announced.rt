//! Which items of a board a gate has heard of. An item is announced by whoever is about to search it for the first
//! time, whichever way it came there, and once: all who search the board share one set of the announced items.

use super::gate::Gate;
use super::item_set::ItemSet;
use arrayvec::ArrayVec;
use oth_pieces::{Frontier, awake};
use oth_rules::{Board, Square};
use std::thread;

// How often a thread gives its processor up, at the most, for another one that is telling the gate of an item which
// both are about to search.
const MOST_YIELDS: u32 = 10_000;

/// The items of a board, numbered as its frontier has them, and of which of them the gate has heard.
#[derive(Drop)]
pub struct Announced {
    root: Board,
    below: ArrayVec<Below, 64>,
    items: u32,
    // The items that somebody announces, and those that are announced.
    taken: ItemSet,
    heard: ItemSet,
}

// The items below a move of the root: the number of the first one, and the replies that lead to them, by rising
// squares. Where there are no replies, the board after the move is itself the only item.
#[derive(Clone, Copy, Default)]
struct Below {
    square: Square,
    first: u32,
    replies: u64,
}

impl Below {
    // The items below the move to `square`, after which the board is `child`, from `first` on.
    fn of(square: Square, first: u32, child: &Board, frontier: Option<&Frontier>) -> Below {
        let (child, _) = awake(*child);
        let is_item = match frontier {
            Some(frontier) => frontier.item(first) == Some(child),
            None => false,
        };
        let replies = if is_item { 0 } else { child.moves() };
        Below {
            square,
            first,
            replies,
        }
    }

    // The number behind the last one.
    fn end(&self) -> u32 {
        self.first.saturating_add(self.replies.count_ones().max(1))
    }

    // The number of the item after the reply to the square of this word.
    fn number_of(&self, reply: u64) -> Option<u32> {
        if self.replies & reply == 0 {
            return None;
        }
        let before = self.replies & reply.wrapping_sub(1);
        Some(self.first.saturating_add(before.count_ones()))
    }
}

impl Announced {
    /// The items of this frontier of the board, or without one those two plies below it, of none of which the gate has
    /// heard. It hears that the search of the board begins.
    pub fn of<G: Gate>(board: &Board, frontier: Option<&Frontier>, gate: &G) -> Announced {
        let (root, _) = awake(*board);
        gate.begins(&root);
        let below = items_below(&root, frontier);
        let items = match below.as_slice().last() {
            Some(last) => last.end(),
            None => 0,
        };
        Announced {
            root,
            below,
            items,
            taken: ItemSet::new(),
            heard: ItemSet::new(),
        }
    }

    /// How many items there are.
    pub(crate) fn count(&self) -> u32 {
        self.items
    }

    /// The number of the board after the root's move to this square, where it is an item.
    pub(crate) fn number_of_move(&self, square: Square) -> Option<u32> {
        let below = self.below_move(square)?;
        if below.replies == 0 {
            Some(below.first)
        } else {
            None
        }
    }

    /// The number of this board after the root's move to the square and a reply, where it is an item.
    pub(crate) fn number_of(&self, square: Square, board: &Board) -> Option<u32> {
        let root = self.root.empty_squares();
        if board.empties() + 2 != self.root.empties() {
            return None;
        }
        let below = self.below_move(square)?;
        below.number_of(root & !board.empty_squares() & !square.word())
    }

    /// Whether the gate has heard of an item.
    pub(crate) fn has_begun(&self) -> bool {
        !self.heard.is_empty()
    }

    /// Claims the item, whose search is about to begin. True: the caller tells the gate, then calls `tell`. Where
    /// another thread is telling the gate, that is given the processor for a while, so that nobody searches the item
    /// before.
    pub(crate) fn take(&self, number: u32) -> bool {
        if self.taken.add(number) {
            return true;
        }
        for _ in 0..MOST_YIELDS {
            if self.heard.has(number) {
                break;
            }
            thread::yield_now();
        }
        false
    }

    /// The gate has heard of the item, which the caller has taken.
    pub(crate) fn tell(&self, number: u32) {
        self.heard.add(number);
    }

    /// Announces the items of which no search was needed.
    pub fn finish<G: Gate>(&self, gate: &G) {
        for number in 0..self.items {
            self.pass_over(number, gate);
        }
    }

    /// Announces this item, if no search of it was needed.
    pub fn pass_over<G: Gate>(&self, number: u32, gate: &G) {
        if self.taken.add(number) {
            gate.before(number);
            gate.after(number);
        }
    }

    // The items below the root's move to this square, if it is legal.
    fn below_move(&self, square: Square) -> Option<Below> {
        for below in self.below.as_slice() {
            if below.square == square {
                return Some(*below);
            }
        }
        None
    }
}

// The items below each move of the root, numbered as a frontier has them: those of `frontier`, if there is one.
fn items_below(root: &Board, frontier: Option<&Frontier>) -> ArrayVec<Below, 64> {
    let moves = root.moves();
    let mut all = ArrayVec::new();
    let mut first = 0u32;
    for number in 0..64 {
        let square = Square::numbered(number);
        if moves & square.word() == 0 {
            continue;
        }
        if let Some(child) = root.play(square) {
            let below = Below::of(square, first, &child, frontier);
            first = below.end();
            let _ = all.try_push(below);
        }
    }
    all
}
