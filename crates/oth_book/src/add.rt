//! Additions to a book.

ghost use Rattle.std.specs.Prelude.{◌≡◌, ◌≤◌, ◌<◌, length, IfOk, IfErr, OnErr, OnOk};
ghost use Rattle.std.specs.List.{insert};
ghost use Rattle.oth_book.specs.Add.{HasNoRoom};
ghost use Rattle.oth_book.specs.Numbers.{refusal_number};

use crate::claim::Claim;
use crate::text::MAX_ENTRIES;
use thiserror::Error;

/// What an addition did.
#[derive(Clone, Copy, Debug, PartialEq, Eq, Drop)]
pub enum Added {
    /// The board was put in.
    New,
    /// All of it was there; nothing changed.
    Present,
    /// The entry of the board was made exact or closer.
    Sharper,
}

/// Why nothing was added. The book is unchanged.
#[derive(Clone, Copy, Debug, PartialEq, Eq, Drop, Error)]
pub enum AddError {
    #[error("out of memory")]
    Memory,
    #[error("the book is full")]
    Full,
    #[error("the book is by the other scoring")]
    Scoring,
    #[error("the bounds are one number, and no best moves are known")]
    OneNumber,
    #[error("the board has more than 30 empty squares")]
    Empties,
}

impl AddError {
    /// The number by which the refusal is told, 1 to 5.
    pub fn number(self) -> u8
        ensures { result ≡ refusal_number self }
    {
        match self {
            AddError::Memory => 1,
            AddError::Full => 2,
            AddError::Scoring => 3,
            AddError::OneNumber => 4,
            AddError::Empties => 5,
        }
    }
}

/// Puts an entry in at the place.
pub fn put_in(entries: &mut Vec<Claim>, place: usize, entry: Claim) -> Result<Added, AddError>
    requires within { place ≤ length entries.old.items }
    requires few { length entries.old.items ≤ 100000 }
    ensures new { IfOk result (λ done. (done ≡ Added.New)
        × (entries.new.items ≡ insert entries.old.items place entry)) }
    ensures full { IfErr result (λ why. HasNoRoom entries.old.items why) }
    ensures room { OnOk result (length entries.old.items < 100000) }
    ensures unchanged { OnErr result (entries.new.items ≡ entries.old.items) }
{
    if entries.len() == MAX_ENTRIES {
        return Err(AddError::Full);
    }
    if entries.insert(place, entry).is_err() {
        return Err(AddError::Memory);
    }
    Ok(Added::New)
}
