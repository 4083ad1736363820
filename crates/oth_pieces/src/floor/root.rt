//! The root that a floor is of.
use oth_rules::{Board, Scoring};

/// What a floor is of: a board, and the scoring by which its value is meant.
#[derive(Clone, Copy, PartialEq, Eq, Debug)]
pub struct Root {
    pub board: Board,
    pub scoring: Scoring,
}
