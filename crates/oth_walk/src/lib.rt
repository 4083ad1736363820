//! One worker of a search: what it searches over, what it knows of the root, what it and the others tell each other,
//! and how it settles the root's moves. All of this but the bounds that are found chooses what is searched next: hints,
//! guesses, orders and the numbers of `tuning` affect speed only. A move of the root is left for good by true bounds
//! alone: the worker's own, the table's, or those that workers tell each other (`MoveBounds`).
//!
//! `Search` (`shared`) is what all workers have in common: the root, its scoring, its moves, its frontier, and the
//! `SharedNodes` of the search, which says who learns from whom (`Sharing`) and how small the shared nodes get. It is
//! passed beside `Worker` where a contract names it, not kept in it: a shared reference can't change, so no contract
//! has to say that it didn't.
#![tactic(auto)]

mod access;
mod announcing;
mod drawn;
mod guess;
mod hints;
mod move_bounds;
mod peers;
mod reply;
mod root_bound;
mod shared;
mod tuning;
mod worker;

pub use access::{WorkerCells, worker_cells};
pub use announcing::{Alone, Announced, Announcer, Gate, ItemSet, Open, claim};
pub use drawn::{search_item, settle_all};
pub use hints::{HintSeat, Hints};
pub use move_bounds::{BoundsSeat, MoveBounds};
pub use root_bound::RootBound;
pub use shared::{Search, Seats, SharedNodes, Sharing};
pub use tuning::orders_for;
pub use worker::Worker;
