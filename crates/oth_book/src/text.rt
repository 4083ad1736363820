//! The text of a book, read and written.
//!
//! `numeral`: numbers of fixed width. `shape`: which byte is allowed where. `cells`: the squares of a board. `line`:
//! one line, an entry or the end. `read`: the lines in turn, and the first fault. `writing`: the book as a text.
mod cells;
mod line;
mod numeral;
mod read;
mod shape;
mod writing;

pub(crate) use read::{MAX_ENTRIES, check_entries, read_entries, read_header};
pub use writing::{WriteFault, write};
