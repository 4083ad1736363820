//! A transposition table that threads share without locks.
//!
//! `table` has the table, its seats and their calls, and two files for a look at a cell and a put in it; `cells` the
//! `TableCells` that a search uses; `choice` a board's two cells and which of them takes a store; `rule` the rule and
//! the kinds of step; `history` what views and events are made of; `laws` what follows from the contracts.
//!
//! How it is proved: `specs/History` says what a cell holds after a history and which event fits it, without words
//! and threads; `specs/Cells` is the rule that ties the words and all views to one history; `specs/Steps` says what
//! each kind of step tells the seat that makes it. `specs/SharedTable`, `Choices`, `Pairs`, `Alone` and `Parts` are
//! what the public contracts cite. `proofs/Keeps` has the one lemma that every step serves, `proofs/Moves`,
//! `Allowed`, `Seats` and `Cuts` one short lemma for each kind of step.
#![tactic(auto)]

mod cells;
mod choice;
mod history;
mod laws;
mod rule;
mod size;
mod table;

pub use cells::TableCells;
pub use choice::{pick, place, second};
pub use history::{Event, Limits, Stage, Terms, View, Why};
pub use laws::{a_past_is_legal, a_stranger_did_nothing, alone, published_within_the_wear};
pub use rule::OneHistory;
pub use size::is_size;
pub use table::{Look, Put, SharedTable, TableError, TableSeat};
