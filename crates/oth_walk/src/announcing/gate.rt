//! The gate: hooks that hear of the items of a search, and of how far it is.

use oth_rules::Board;
use oth_search::Solved;

/// Hears of the search of each item of the root's frontier, whoever searches it: `before` and `after`, each once. The
/// first search of the item lies between the two. Items that no search needs, since the bounds that other items gave
/// settle their move of the root, come last, with nothing between the two calls. A search that opens an item again
/// isn't announced, nor is a guess of the root's score, which settles nothing.
///
/// Whoever is about to search an item while another thread is in `before` of it waits a little, but not for a gate that
/// takes long. No answer depends on what a gate does. The other calls do nothing by default.
pub trait Gate: Sync {
    /// The search of the item of this number is about to begin, in the calling thread.
    fn before(&self, task: u32);

    /// The search of the item of this number has ended, in the same thread.
    fn after(&self, task: u32);

    /// The search of this board, after a forced pass where there is one, is about to begin. The items of which this
    /// thread hears next, or the threads that it starts, are those two plies below it: boards that are searched side by
    /// side have items of the same numbers.
    fn begins(&self, _board: &Board) {}

    /// The answer of this board is the next one that is wanted. A run calls this, in its own thread, for each board of
    /// a line before its answer is found or waited for; `solve` does not.
    fn awaits(&self, _board: &Board) {}

    /// Whether the gate hears of the items and of how far the search is: by default it does. If not, one worker calls
    /// none of `before`, `after` and `goes_on`, and makes nothing for them.
    fn hears(&self) -> bool {
        true
    }

    /// The table, and what the calling thread has found itself, give these bounds of the item's board, after a forced
    /// pass where there is one. The `before` of the item follows, and its first search. That the board is the item's is
    /// tested, and no clause says so.
    fn known_before(&self, _task: u32, _known: &Solved) {}

    /// That search has found these bounds of the item's board: all scores where it was given up. The `after` of the
    /// item follows.
    fn known_after(&self, _task: u32, _found: &Solved) {}

    /// Whether `goes_on` is to be called, which takes a little time.
    fn follows(&self) -> bool {
        false
    }

    /// By now `root` holds what is known of the root under search, and `settled` of its moves need no further search.
    /// Searches of several boards may go on at once.
    fn goes_on(&self, _root: &Solved, _settled: u64) {}
}

/// A gate that does nothing.
#[derive(Clone, Copy)]
pub struct Open;

impl Gate for Open {
    fn before(&self, _task: u32) {}

    fn after(&self, _task: u32) {}

    fn hears(&self) -> bool {
        false
    }
}
