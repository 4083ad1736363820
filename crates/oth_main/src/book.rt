//! The commands of the book, and what they print. The faults of other commands are printed here too.
//!
//! `book_file` reads and verifies the bytes of a file, `addition` adds boards to a book, `book_commands` prints and
//! writes. `message` has the lines that a command of the book prints, and `reasons` what it prints them to: standard
//! error, whether words are told there, and the reason, which is kept until it is told so.
mod addition;
mod book_commands;
mod book_file;
mod message;
mod reasons;

pub use book_commands::{STATUS_DONE, book_add, book_verify, print_run_fault};
pub use book_file::{BookRefusal, MOST_BOOK_BYTES, REFUSED, open_book, print_refusal};
pub use reasons::{Errors, Reason, Scene, tell_scoring};
