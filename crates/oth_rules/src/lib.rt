//! The rules of Othello over two words of discs: moves, flips, scores and symmetries, each equal to its
//! definition over single squares.
//!
//! The rules speak of squares alone. Equality, the order of images, an entry's words and the table's hash go by the
//! two words of a `Position`. The value takes the scoring as a parameter, so every law is proved for both scorings
//! at once.
#![tactic(auto)]

mod board;
mod direction;
mod lanes;
mod last_move;
pub mod laws;
mod masks;
pub mod samples;
mod scoring;
mod square;
mod stable;
mod sym;
mod tables;
mod twin;

pub use board::{Board, Overlap};
pub use direction::NOT_H;
pub use masks::INNER;
pub use scoring::Scoring;
pub use square::Square;
pub use sym::{Sym, map, unmap};
pub use twin::{Twin, TwinWord};
