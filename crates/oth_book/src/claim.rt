//! An entry as a book's text says it.
use oth_rules::Board;

/// An entry as a book's text says it: a board, bounds of its value from -64 to 64, and all best moves as a set of
/// squares. Where the bounds differ the set is empty. By itself it may be untrue.
#[derive(Clone, Copy, Debug, PartialEq, Eq)]
pub struct Claim {
    pub board: Board,
    pub lower: i8,
    pub upper: i8,
    pub best: u64,
}
