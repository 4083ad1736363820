//! The rules, the solver and the texts for C programs: each export is a call of a crate below it, over numbers and
//! plain structs. `include/othsolve.h` declares them and says what C must keep.
//!
//! An export does nothing but call one function that answers with a `Result`, write what it gives, and return the
//! number. The exports of texts stand in a room of their own, `texts`. `specs/Codes`, `Rules`, `Solving`, `Positions`
//! and `Texts` say which number comes when, `specs/Boards` and `Answers` what the structs stand for, `specs/Owned` what
//! the struct of a seat owns, and `specs/Seats` what its calls promise.
#![tactic(auto)]

mod answer;
mod board;
mod loose;
mod refusal;
mod rules;
mod scores;
mod seat;
mod seated;
mod sharing;
mod solving;
mod texts;
mod within;
