//! From a board to its answer, told once for one worker and for several: bounds of the board after each move of the
//! root are kept and narrowed by null windows. From 12 empty squares on a first guess says where to begin, below that
//! 0:
//!
//!     guess             the least value that a reply seems to have, by null windows of a selective search
//!       |
//!     ask_in_rounds     each reply in turn is asked for that value, until one has it; where none has, for more
//!       |
//!     settle_at         the leader: null windows ever further below what is known of it, until its value is known
//!       |               each other reply: a null window at the best value; if it is no worse, on as the leader
//!     best_moves        reads the score and all best moves, and searches only what is still open
//!
//! What another worker knows comes in by `RootPeers`: bounds of a reply (`known_by_now`), the best value (`best`), that
//! a reply is settled (`is_done`), which boards others are at and what they told of them while a guess is made
//! (`is_deferred`, `guessed`), and how a question is searched (`decide`). For one worker each of these does nothing,
//! and the compiler leaves nothing of them.
//!
//! `moves`: the root's moves, each legal one once with the board after it, true by the type, in move order; all of the
//! above narrow what is known of these boards. `guess`, a room of its own: the first guess and the selective search
//! that it is made by. `pace`: how far a null window lies below what is known. `value`: the value of a board whose best
//! moves nobody asks for; the other moves are only asked whether they are better. `scores`: a board's moves with their
//! scores, from the values of the boards after them. `few`: the answer of a board of so few empty squares that none of
//! this pays. `best_so_far`: the score that `best_moves` and `few` have come to, and its moves.
mod best_moves;
mod best_so_far;
mod few;
mod guess;
mod moves;
mod pace;
mod root_peers;
mod scores;
mod settle;
mod value;

pub(crate) use best_moves::best_moves;
pub use best_moves::{
    MOST_EMPTIES, TooManyEmpties, before_pass, ended, solve_alone, solve_moves, solve_with,
};
pub use few::{is_few, solve_few};
pub use guess::seeming_value;
pub use moves::{RootMove, RootMoves, surest_of};
pub use pace::Pace;
pub use root_peers::{NoPeers, RootPeers};
pub use scores::{ScoredMove, Scores, answer_by, scores_with};
pub(crate) use settle::settle;
pub use settle::{
    RootGoal, Round, ask_at, ask_in_rounds, first_threshold, settle_at, settle_moves,
};
pub use value::value_of;
