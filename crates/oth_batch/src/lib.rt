//! Boards that wait together, solved or scored side by side, each by one worker; the ends of games, each analysed so;
//! and the claims of a book, tested so.
//! How boards are shared out (`split`, `tuning`) affects speed only: no answer depends on it.
//!
//! A collection of small boards keeps several workers busy only where each has a board of its own. Each `Answer` is
//! true by its type, and so are `Scores`; which boards have them rests on no theorem. `split` decides by an estimate
//! of each board's effort: there are no jobs where no two boards are small enough for a worker each, and a board that
//! is worth more than a worker's share is left to all workers together. `jobs` has the jobs, of one board each or of
//! several of few empty squares, and `crew` the threads that do those of one batch after the other. `recent` keeps
//! what was found of the last boards of an input, for those that come again.
#![tactic(auto)]

mod asked;
mod batch;
mod beside;
mod crew;
mod found;
mod games;
mod jobs;
mod recent;
mod split;
mod tuning;
mod verifying;

pub use asked::Asked;
pub use batch::Batch;
pub use crew::Crew;
pub use games::known_by;
pub use jobs::Jobs;
pub use recent::Recent;
pub use split::workers_for;
pub use tuning::{MOST_JOBS, ONE_WORKER_MAX_EMPTIES};
pub use verifying::verify_by;
