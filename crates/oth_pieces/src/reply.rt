//! What was found of an item, and why a collector refuses it.
use oth_search::Solved;
use thiserror::Error;

/// An item's number, and bounds of its board.
#[derive(Clone, Copy, Debug)]
pub struct Reply {
    pub number: u32,
    pub solved: Solved,
}

/// Why a reply isn't taken: the first of these that holds.
#[derive(Clone, Copy, PartialEq, Eq, Debug, Error)]
pub enum Refusal {
    /// There is no item of this number.
    #[error("there is no item of this number")]
    Stranger,
    /// The item has a reply.
    #[error("the item has a reply")]
    Double,
    /// The board isn't the item's.
    #[error("the solved board is not the item's")]
    OtherBoard,
    /// The board was solved under the other scoring.
    #[error("the board was solved by the other scoring")]
    OtherScoring,
}
