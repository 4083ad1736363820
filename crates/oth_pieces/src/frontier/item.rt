//! The items of a frontier.
use oth_rules::{Board, Square};

/// A board of a frontier, with what it has to do with the root.
#[derive(Clone, Copy, Debug, Default)]
pub struct Item {
    pub board: Board,
    /// The root's move that leads to it.
    pub square: Square,
    /// Whether its mover is the root's.
    pub same_mover: bool,
}
