//! Callers of the crates, as `docs/LIBRARY.md` shows them: each a file of its own, with its promise and its proof.
#![tactic(auto)]

mod analysis;
mod book_and_workers;
mod engine_cells;
mod game;
mod in_time;
mod own_sink;
mod shared_table;
mod solved_board;

pub use analysis::{Unscored, loss_of, scores_after};
pub use book_and_workers::{NoAnswer, solve_by_book};
pub use engine_cells::bounds_about;
pub use game::board_after;
pub use in_time::bounds_in_time;
pub use own_sink::{KeptText, kept_report};
pub use shared_table::solve_both;
pub use solved_board::{Unsolved, best_moves};
