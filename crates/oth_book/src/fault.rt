//! Why bytes are refused as a book.

ghost use Rattle.std.specs.Prelude.{◌≡◌};
ghost use Rattle.oth_book.specs.Numbers.{fault_number, fault_line};

use thiserror::Error;

/// The first fault of bytes that are no book's text, or out of memory for the entries of one that may be. Lines are
/// counted from 1 after the header.
#[derive(Clone, Copy, Debug, PartialEq, Eq, Drop, Error)]
pub enum BookFault {
    #[error("the header is wrong")]
    Header,
    #[error("line {0} is no entry and no end line")]
    Line(u32),
    #[error("the board of line {0} isn't above the one before")]
    Order(u32),
    #[error("the number of entries is wrong")]
    Count,
    #[error("the book is cut short")]
    CutShort,
    #[error("bytes follow the end")]
    Trailing,
    #[error("out of memory")]
    Memory,
}

impl BookFault {
    /// The number by which the fault is told, 1 to 7.
    pub fn number(self) -> u8
        ensures { result ≡ fault_number self }
    {
        match self {
            BookFault::Header => 1,
            BookFault::Line(_) => 2,
            BookFault::Order(_) => 3,
            BookFault::Count => 4,
            BookFault::CutShort => 5,
            BookFault::Trailing => 6,
            BookFault::Memory => 7,
        }
    }

    /// The line that the fault names, from 1 after the header: of the faults 2 and 3.
    pub fn line(self) -> Option<u32>
        ensures { result ≡ fault_line self }
    {
        match self {
            BookFault::Line(line) => Some(line),
            BookFault::Order(line) => Some(line),
            _ => None,
        }
    }
}
