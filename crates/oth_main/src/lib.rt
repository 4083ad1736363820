//! The commands of the book, and what a terminal shows. What a program calls of `oth_run` is handed on from there.
//!
//! `joined` has sources that are read one after the other. All else stands in two rooms: `book`, the commands of the
//! book and what they print, and `terminal`, what a terminal shows while a run goes on.
#![tactic(auto)]

mod book;
mod joined;
mod terminal;

pub use book::{
    BookRefusal, Errors, MOST_BOOK_BYTES, REFUSED, Reason, STATUS_DONE, Scene, book_add,
    book_verify, open_book, print_refusal, print_run_fault, tell_scoring,
};
pub use joined::{Joined, sources_share_no_line};
pub use oth_run::{ReportSink, RunFault, check_settings, run, run_judged};
pub use oth_words::{Command, Settings, Telling, Words, read_words};
pub use terminal::{
    Awaited, FaultyLine, Input, Progress, ROW_LEN, Reached, Report, Row, Shown, Watch,
};
