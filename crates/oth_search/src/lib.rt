//! The search by one thread: null windows, principal variation, move ordering, and bounds true by their types.
//! Contracts leave free what is searched first and what is kept, since that affects speed only: the order of moves,
//! ranks and evaluations, guesses, the hooks of `TreePeers` and `RootPeers`, what tables forget, and the numbers of
//! `tuning`.
#![tactic(auto)]

mod bounds;
mod exact;
mod local;
mod nws;
mod ordering;
mod pvs;
mod root;
mod shared;
mod stop;
mod tuning;

pub use bounds::{
    Answer, Cells, Entry, Interval, Kind, NoCells, NotChild, NullWindow, OPPOSING_FACTOR,
    OWN_FACTOR, Solved, backed_up_from, board_hash, bounds_among,
};
pub use local::{LocalTable, LocalTables, WithLocal};
pub use nws::Hearer;
pub use ordering::{MoveOrder, order};
pub use pvs::search;
pub use root::{
    MOST_EMPTIES, NoPeers, Pace, RootGoal, RootMove, RootMoves, RootPeers, Round, ScoredMove,
    Scores, TooManyEmpties, answer_by, ask_at, ask_in_rounds, before_pass, ended, first_threshold,
    is_few, scores_with, seeming_value, settle_at, settle_moves, solve_alone, solve_few,
    solve_moves, solve_with, surest_of, value_of,
};
pub use shared::{TreePeers, put};
pub use stop::{Limited, Resume, StopFlag, Stopped, solve_until};
