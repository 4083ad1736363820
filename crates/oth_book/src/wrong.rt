//! What is wrong with an entry of a book, and the number by which it is told.
ghost use Rattle.std.specs.Prelude.{◌≡◌};
ghost use Rattle.oth_book.specs.Numbers.{wrong_number, wrong_entry};

use thiserror::Error;

/// What is wrong with an entry.
#[derive(Clone, Copy, Debug, PartialEq, Eq, Drop)]
pub enum Cause {
    /// The bounds don't enclose the board's value.
    Bounds,
    /// The bounds are the value, and the word isn't that of all best moves.
    Best,
    /// The board has more than 30 empty squares.
    Empties,
}

/// The first wrong entry, counted from 1, and why; or out of memory.
#[derive(Clone, Copy, Debug, PartialEq, Eq, Drop, Error)]
pub enum Wrong {
    #[error("entry {0} is wrong")]
    Entry(u32, Cause),
    #[error("out of memory")]
    Memory,
}

impl Wrong {
    /// The number by which it is told, 1 to 4.
    pub fn number(self) -> u8
        ensures { result ≡ wrong_number self }
    {
        match self {
            Wrong::Entry(_, Cause::Bounds) => 1,
            Wrong::Entry(_, Cause::Best) => 2,
            Wrong::Entry(_, Cause::Empties) => 3,
            Wrong::Memory => 4,
        }
    }

    /// The entry that is wrong, counted from 1.
    pub fn entry(self) -> Option<u32>
        ensures { result ≡ wrong_entry self }
    {
        match self {
            Wrong::Entry(entry, _) => Some(entry),
            Wrong::Memory => None,
        }
    }
}
