//! One worker that searches a board alone, with no floor and no hints. Its null windows tell it of each reply to a move
//! of the root (`Hearer`), so that each is announced before its first search.
ghost use Rattle.std.specs.Prelude.{◌≡◌};

use super::announced::Announced;
use super::announcer::Announcer;
use super::gate::Gate;
use oth_search::{Cells, Hearer, RootMove, RootMoves, RootPeers, Solved};
use std::alloc::Global;

/// The only worker of a search, which tells a gate of the items that it searches, and how far it is.
#[derive(Drop)]
pub struct Alone<'g, G> {
    gate: &'g G,
    announcer: Announcer<'g>,
}

impl<'g, G: Gate> Alone<'g, G> {
    /// The only worker of a search of the board of these items.
    pub fn of(alloc: Global, gate: &'g G, announced: &'g Announced) -> Alone<'g, G> {
        Alone {
            gate,
            announcer: Announcer::of(alloc, announced),
        }
    }
}

// Returns what is known of the root, and how many of its moves need no further search.
fn known_of(moves: &RootMoves) -> (Solved, u64) {
    let root = moves.backed_up();
    let mut settled = 0u64;
    for root_move in moves.as_slice() {
        if root_move.child.is_settled(-root.interval.lower) {
            settled = settled.saturating_add(1);
        }
    }
    (root, settled)
}

impl<'g, G: Gate, C: Cells> RootPeers<C> for Alone<'g, G> {
    fn end_move(&mut self, _root_move: &RootMove, moves: &RootMoves) {
        if self.gate.follows() {
            let (root, settled) = known_of(moves);
            self.gate.goes_on(&root, settled);
        }
    }

    fn decide(&mut self, known: &RootMove, alpha: i8, cells: &mut C) -> Solved {
        let RootMove { square, child } = *known;
        if child.interval.decides(alpha, alpha + 1) {
            return child;
        }
        self.announcer.enter(square);
        if let Some((number, known)) = self.announcer.begin_move(&child, cells) {
            self.gate.known_before(number, &known);
            self.gate.before(number);
            self.announcer.tell(number);
        }
        let found = child.decided_with(alpha, cells, self);
        if let Some(number) = self.announcer.end_move(&found) {
            self.gate.known_after(number, &found.awake());
            self.gate.after(number);
        }
        found
    }
}

impl<'g, G: Gate, C: Cells> Hearer<C> for Alone<'g, G> {
    fn begin(&mut self, unknown: &Solved, cells: &mut C) {
        if let Some((number, known)) = self.announcer.begin(unknown, cells) {
            self.gate.known_before(number, &known);
            self.gate.before(number);
            self.announcer.tell(number);
        }
    }

    fn end(&mut self, found: &Solved) {
        if let Some(number) = self.announcer.end(found) {
            self.gate.known_after(number, &found.awake());
            self.gate.after(number);
        }
    }
}
