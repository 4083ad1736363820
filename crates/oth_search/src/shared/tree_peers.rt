//! The hooks of the shared search.

ghost use Rattle.std.specs.Prelude.{◌≡◌};

use crate::bounds::{Cells, NullWindow, Solved};
use crate::ordering::order;
use arrayvec::ArrayVec;
use oth_rules::{Board, Square};

/// Hooks of the shared search: who is at a node, when to give up, which move order to use. The defaults are those of
/// one worker. No answer depends on them.
pub trait TreePeers<C: Cells> {
    /// Boards of fewer empty squares than this are searched to the end, and no hook is called there.
    fn fewest(&self) -> u8;

    /// How many of the first moves of a board of `empties` empty squares are searched even if another worker is at
    /// them. Where the children have fewer empty squares than `fewest`, each of them may be deferred.
    fn undeferred(&self, _empties: u8) -> usize {
        64
    }

    /// Whether the board is deferred, since another worker is at it.
    fn is_deferred(&mut self, _board: &Board) -> bool {
        false
    }

    /// A search of the board begins.
    fn begin(&mut self, _board: &Board, _cells: &mut C)
        ensures fixed { C.fixed _cells.new ≡ C.fixed _cells.old }
    {}

    /// That search has ended, and found these bounds of the board.
    fn end(&mut self, _found: &Solved) {}

    /// The moves of the board are about to be searched with this window. Returns how many such searches were under way
    /// before.
    fn enter(&mut self, _board: &Board, _window: NullWindow) -> usize {
        0
    }

    /// Only `depth` of these searches are still under way: as many as `enter` returned.
    fn leave(&mut self, _depth: usize) {}

    /// Whether to give up the searches under way, now that this board was searched.
    fn gives_up(&mut self, searched: &Board, cells: &mut C) -> bool
        ensures fixed { C.fixed cells.new ≡ C.fixed cells.old };

    /// The moves of the board in the order in which they are searched: by default each legal one once.
    fn kept_order(&mut self, board: &Board) -> ArrayVec<Square, 64> {
        order(board)
    }

    /// The move caused a cutoff, or is the best: it is to come first when the board's moves are searched again.
    fn prefer(&mut self, _board: &Board, _square: Square) {}
}
