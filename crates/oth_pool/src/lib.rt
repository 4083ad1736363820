//! The search of one board by several workers: how they are started, in which order they draw its items, and the
//! answer. The order of the items and the numbers of `tuning` affect speed only: each answer is proved whatever they
//! are.
//!
//! Every number on its way from a worker to the answer is a `Solved`, whose bounds are true by its type, so which
//! windows were asked, which items were skipped, which replies were lost, and the schedule stand outside the proof of
//! the answer. How the board of a `solve` is searched, with one start of threads:
//!
//!     book            an exact entry is the answer; a search begins with the bounds of another, and of the boards
//!       |             after the moves; above_book: or at a guess, if that lies above the best that is known
//!     frontier        the boards two plies below the root; ranks: what promises most is drawn first
//!       |
//!     workers         each: draw a number -> search the item and its move, each new item announced -> reply
//!       |               no number left -> search what is still open of the root's moves
//!       |               all read and raise one floor, tell bounds of the root's moves, and meet in one table
//!     told            these bounds and the floor: they settle each move, unless memory was refused
//!       |
//!     solve_moves     searches only what is neither exact nor strictly below the score
//!
//! By one worker the caller searches alone, by `solve_moves`, with no floor and no deques. Whoever is about to search
//! an item for the first time announces it (`Announced`), however it came there; the items that no search needed come
//! last. Replies are what `run_workers` returns; `solve` needs none.
#![tactic(auto)]

mod above_book;
mod at_once;
mod book_lookup;
mod draw_order;
mod means;
mod queue;
pub mod run;
mod scoring_moves;
mod solving;
mod tuning;
mod valuing;
pub mod work;
mod workers;

pub use oth_pieces::{
    Collector, Drawn, Floor, FloorError, FloorSeat, Frontier, Hand, Item, MOST_ITEMS, Refusal,
    Reply, Stranger, Tasks, TasksError,
};
pub use oth_walk::{Gate, Open, WorkerCells, claim, worker_cells};
pub use run::{Gathered, run_workers};
pub use scoring_moves::scores;
pub use solving::{SolveError, solve};
